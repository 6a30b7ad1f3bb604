ghost use Rattle.std.specs.Prelude.{◌≡◌, true};
ghost use Rattle.wp_core.specs.Turns.{turn_holder, with_holder, Holds, all_free, turn_of};

use std::marker::Model;
use wp_core::Turn;

/// Of each turn the actor that holds it, if one does.
#[derive(Clone, Copy)]
pub struct Holders {
    pub write: Option<usize>,
    pub prepared: Option<usize>,
    pub snapshots: Option<usize>,
    pub store: Option<usize>,
    pub locks: Option<usize>,
    pub tables: Option<usize>,
}

impl Model for Holders {
    ghost use Rattle.wp_core.specs.Turns.{Holders};

    ghost Value = { Holders };

    ghost view = { λ h. record { write = h.write; prepared = h.prepared; snapshots = h.snapshots; store = h.store; locks = h.locks; tables = h.tables } };

    ghost inverse = { λ h. record { write = h.write; prepared = h.prepared; snapshots = h.snapshots; store = h.store; locks = h.locks; tables = h.tables } };
}

impl Holders {
    pub fn of(&self, turn: Turn) -> Option<usize>
        ensures { result ≡ turn_holder self.now (turn_of turn) }
    {
        match turn {
            Turn::Write => self.write,
            Turn::Prepared => self.prepared,
            Turn::Snapshots => self.snapshots,
            Turn::Store => self.store,
            Turn::Locks => self.locks,
            Turn::Tables => self.tables,
        }
    }

    pub fn holds(&self, turn: Turn, by: usize) -> bool
        ensures { result ≡ true → Holds self.now (turn_of turn) by }
    {
        self.of(turn) == Some(by)
    }

    pub fn set(&mut self, turn: Turn, holder: Option<usize>)
        ensures { self.new ≡ with_holder self.old (turn_of turn) holder }
    {
        match turn {
            Turn::Write => self.write = holder,
            Turn::Prepared => self.prepared = holder,
            Turn::Snapshots => self.snapshots = holder,
            Turn::Store => self.store = holder,
            Turn::Locks => self.locks = holder,
            Turn::Tables => self.tables = holder,
        }
    }
}

impl Holders {
    pub fn free() -> Holders
        ensures { result ≡ all_free }
    {
        Holders {
            write: None,
            prepared: None,
            snapshots: None,
            store: None,
            locks: None,
            tables: None,
        }
    }
}
