//! What the steps that an actor makes without a turn make of a world.
ghost use Rattle.std.specs.Prelude.{◌≡◌, ℕ, OnOk, Some, option_map};
ghost use Rattle.std.specs.FinMap as finite;
ghost use Rattle.wp_core.specs.Steps as step;
ghost use Rattle.wp_machine.specs.Machine.{own_step};
ghost use Rattle.wp_machine.specs.Effect.{IsEffect};

use crate::actor::Actor;
use crate::step::OwnStep;
use crate::world::World;
use std::alloc::AllocError;
use wp_model::{Batch, Name};

fn set_batch(
    world: &mut World,
    actor: &mut Actor,
    name: Name,
    batch: Batch,
) -> Result<(), AllocError>
    ensures { (s : step.Step) → option_map (λ t. step.set_batch name t batch) (finite.get actor.old.participant.transactions name) ≡ Some s
        → OnOk result ((by : ℕ) → IsEffect by world.old actor.old s world.new actor.new) }
{
    let Some(transaction) = actor.participant.transaction(&name) else {
        return Ok(());
    };
    let changed = transaction.with_batch(batch, world.alloc)?;
    actor.put_transaction(&name, changed, world.alloc)
}

pub(crate) fn own(world: &mut World, actor: &mut Actor, kind: OwnStep) -> Result<(), AllocError>
    ensures { (s : step.Step) → own_step actor.old.participant kind ≡ Some s
        → OnOk result ((by : ℕ) → IsEffect by world.old actor.old s world.new actor.new) }
{
    match kind {
        OwnStep::SetBatch(name, batch) => set_batch(world, actor, name, batch),
        OwnStep::Note(fact) => actor.note(fact),
        OwnStep::SetClient(client) => {
            actor.participant.client = Some(client);
            Ok(())
        }
    }
}
