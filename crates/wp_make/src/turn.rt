ghost use Rattle.std.specs.Prelude.{◌≡◌};
ghost use Rattle.wp_make.specs.Generator.{turn_of};

/// What a client does in one turn.
#[derive(Clone, Copy)]
pub(crate) enum Turn {
    Put,
    Del,
    Get,
    Begin,
    /// A flush or a compaction.
    Maintain,
    /// Prepares the transaction and commits it.
    Commit,
    /// Prepares the transaction and rolls it back.
    RollBack,
}

/// The turn by the number below 8 that was drawn for it, where a transaction is begun or none is.
pub(crate) fn turn_of(begun: bool, drawn: u64) -> Turn
    ensures { result ≡ turn_of begun drawn }
{
    if begun {
        match drawn {
            0..=3 => Turn::Put,
            4 => Turn::Del,
            5 => Turn::Get,
            6 => Turn::Commit,
            _ => Turn::RollBack,
        }
    } else {
        match drawn {
            0..=2 => Turn::Put,
            3 => Turn::Del,
            4 => Turn::Begin,
            5 | 6 => Turn::Get,
            _ => Turn::Maintain,
        }
    }
}
