ghost use Rattle.std.specs.Prelude.{◌≡◌};
ghost use Rattle.wp_core.specs.States.{turn_of};
ghost use Rattle.wp_core.specs.World.{content_of as content_in};
ghost use Rattle.wp_core.specs.Turns as turns;

use crate::locks::LockState;
use crate::prepared::PreparedSets;
use crate::snapshots::Snapshots;
use crate::store::{Installed, StoreState};
use crate::world::World;
use crate::writes::WriteState;
use std::marker::Model;
use std::snapshot::Snapshot;
use wp_core::Turn;

/// The state behind one turn. No step reads it, so it has no bytes.
#[derive(Drop)]
pub enum Guarded {
    Writes(Snapshot<WriteState>),
    Prepared(Snapshot<PreparedSets>),
    Snapshots(Snapshot<Snapshots>),
    Store(Snapshot<StoreState>),
    Locks(Snapshot<LockState>),
    Installed(Snapshot<Installed>),
}

/// The state behind one turn, as one that holds it left it.
pub struct Content {
    pub state: Guarded,
}

impl Model for Content {
    ghost use Rattle.std.specs.Coded.{codes};
    ghost use Rattle.wp_model.specs.PreparedSets.{prepared_sets_code};
    ghost use Rattle.wp_model.specs.Snapshots.{snapshots_code};
    ghost use Rattle.wp_model.specs.LockState.{lock_state_code};
    ghost use Rattle.wp_core.specs.States.{Content};

    ghost Value = { Content };

    ghost coded = { Prim.hlevel (codes, prepared_sets_code, snapshots_code, lock_state_code) };

    ghost use Rattle.wp_machine.specs.Parts.{content_of};

    ghost view = { λ c. content_of c.state };
}

impl Content {
    pub fn turn(&self) -> Turn
        ensures { turns.turn_of result ≡ turn_of self.now }
    {
        match &self.state {
            Guarded::Writes(_) => Turn::Write,
            Guarded::Prepared(_) => Turn::Prepared,
            Guarded::Snapshots(_) => Turn::Snapshots,
            Guarded::Store(_) => Turn::Store,
            Guarded::Locks(_) => Turn::Locks,
            Guarded::Installed(_) => Turn::Tables,
        }
    }

    /// The state behind the turn, as the world has it now.
    pub fn of(world: &World, turn: Turn) -> Content
        ensures { result ≡ content_in world.now (turns.turn_of turn) }
    {
        let state = match turn {
            Turn::Write => Guarded::Writes(Snapshot::of(&world.writes)),
            Turn::Prepared => Guarded::Prepared(Snapshot::of(&world.prepared)),
            Turn::Snapshots => Guarded::Snapshots(Snapshot::of(&world.snapshots)),
            Turn::Store => Guarded::Store(Snapshot::of(&world.store)),
            Turn::Locks => Guarded::Locks(Snapshot::of(&world.locks)),
            Turn::Tables => Guarded::Installed(Snapshot::of(&world.installed)),
        };
        Content { state }
    }
}

// Written out, so that no crate above proves anew how all that it holds is let go.
impl Drop for Content {
    fn drop(self) {
        let Self { state: _state } = self;
    }
}
