//! What the steps with the prepared turn make of a world.
ghost use Rattle.std.specs.Prelude.{◌≡◌, ℕ, OnOk, Some};
ghost use Rattle.wp_core.specs.Steps as step;
ghost use Rattle.wp_machine.specs.Machine.{prepared_step};
ghost use Rattle.wp_machine.specs.Effect.{IsEffect};

use crate::actor::Actor;
use crate::effects::turn::hold;
use crate::step::PreparedStep;
use crate::world::World;
use std::alloc::AllocError;
use wp_core::Turn;

pub(crate) fn prepared(
    world: &mut World,
    actor: &mut Actor,
    kind: PreparedStep,
) -> Result<(), AllocError>
    ensures { (s : step.Step) → prepared_step kind ≡ Some s
        → OnOk result ((by : ℕ) → IsEffect by world.old actor.old s world.new actor.new) }
{
    let next = world.writes.next_number()?;
    match kind {
        PreparedStep::Add => world.prepared.add(next)?,
        PreparedStep::TakePending => world.prepared.take_from_heap(next),
        PreparedStep::AddDelayedCommit(p, c) | PreparedStep::DelayPending(p, c) => {
            world.prepared.commit(p, c)?;
        }
        PreparedStep::TakeOut(p) => world.prepared.take_out(p),
    }
    hold(world, actor, Turn::Prepared);
    Ok(())
}
