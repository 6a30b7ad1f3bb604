ghost use Rattle.std.specs.Prelude.{◌≡◌};
ghost use Rattle.wp_core.specs.Changes.{turn_index};
ghost use Rattle.wp_core.specs.Turns.{turn_of};

/// One of the six turns. Who holds it reads and changes the state that it guards, and nobody else does.
#[derive(Clone, Copy)]
pub enum Turn {
    /// The history and its log.
    Write,
    /// The sets of prepared transactions.
    Prepared,
    /// The live snapshots with the old commit map.
    Snapshots,
    /// The versions.
    Store,
    /// Names, keys and labels.
    Locks,
    /// The manifest and the table files.
    Tables,
}

impl Turn {
    pub fn index(self) -> u8
        ensures { result ≡ turn_index (turn_of self) }
    {
        match self {
            Turn::Write => 0,
            Turn::Prepared => 1,
            Turn::Snapshots => 2,
            Turn::Store => 3,
            Turn::Locks => 4,
            Turn::Tables => 5,
        }
    }
}
