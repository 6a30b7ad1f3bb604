//! What the steps with the store turn make of a world.
ghost use Rattle.std.specs.Prelude.{◌≡◌, ℕ, OnOk, Some};
ghost use Rattle.wp_core.specs.Steps as step;
ghost use Rattle.wp_machine.specs.Machine.{store_step};
ghost use Rattle.wp_machine.specs.Effect.{IsEffect};

use crate::actor::Actor;
use crate::effects::turn::hold;
use crate::step::StoreStep;
use crate::versions::versions_of_next;
use crate::world::World;
use std::alloc::AllocError;
use wp_core::Turn;

pub(crate) fn store(world: &mut World, actor: &mut Actor, kind: StoreStep) -> Result<(), AllocError>
    ensures { (s : step.Step) → store_step world.old.writes world.old.store kind ≡ Some s
        → OnOk result ((by : ℕ) → IsEffect by world.old actor.old s world.new actor.new) }
{
    match kind {
        StoreStep::AddVersions => {
            let next = world.writes.next_number()?;
            let versions = versions_of_next(next, &world.writes.pending, world.alloc)?;
            world.store.add_next(versions, next)?;
        }
        StoreStep::TakeVersions => {
            let next = world.writes.next_number()?;
            world.store.take_number(next);
        }
        StoreStep::MoveVersions(memory, moved) => {
            world.store.memory = memory;
            world.store.tables = moved;
        }
        StoreStep::ReplaceVersions(replaced, floor) => {
            world.store.tables = replaced;
            world.store.floor = floor;
        }
    }
    hold(world, actor, Turn::Store);
    Ok(())
}
