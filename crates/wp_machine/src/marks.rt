//! What an actor noted, and the steps of its that may have ended it. No step reads it, so it has no bytes.
ghost use Rattle.std.specs.Prelude.{◌≡◌, ◌∷◌, List, length};

use crate::actor::Participant;
use crate::cache::Cache;
use crate::locks::LockState;
use crate::step::Kind;
use crate::store::StoreState;
use crate::views::Fact;
use crate::world::World;
use crate::writes::WriteState;
use std::snapshot::Snapshot;

/// A fact that the actor noted, or a step of its that may have ended some.
#[derive(Drop)]
pub enum Mark {
    Noted(Snapshot<Fact>),
    /// A step of this kind by this participant, in a world with these states and words.
    Made(
        Snapshot<WriteState>,
        Snapshot<StoreState>,
        Snapshot<LockState>,
        Snapshot<Cache>,
        Snapshot<Participant>,
        Snapshot<Kind>,
    ),
}

impl Mark {
    ghost use Rattle.wp_machine.specs.Marks.{notes_of, left_by, apart_step};
    ghost use Rattle.wp_machine.specs.declared.marks.Mark.{Mark};

    /// That the participant makes the step.
    pub fn of(world: &World, participant: &Participant, kind: &Kind) -> Mark
        ensures { (before : List Mark) → notes_of (result ∷ before) ≡ left_by (apart_step world.now.writes world.now.store world.now.locks participant.now kind.now) world.now.writes.history (length world.now.cache) (notes_of before) }
    {
        Mark::Made(
            Snapshot::of(&world.writes),
            Snapshot::of(&world.store),
            Snapshot::of(&world.locks),
            Snapshot::of(&world.cache),
            Snapshot::of(participant),
            Snapshot::of(kind),
        )
    }
}
