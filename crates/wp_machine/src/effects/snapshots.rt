//! What the steps with the snapshots turn make of a world.
ghost use Rattle.std.specs.Prelude.{◌≡◌, ℕ, take, drop, OnOk, Some};
ghost use Rattle.wp_core.specs.Changes.{with_actor};
ghost use Rattle.wp_core.specs.Steps as step;
ghost use Rattle.wp_machine.specs.Machine.{snapshots_step};
ghost use Rattle.wp_machine.specs.Effect.{IsEffect, released_world};

use crate::actor::{Actor, Registration};
use crate::effects::turn::hold;
use crate::step::SnapshotsStep;
use crate::world::World;
use std::alloc::AllocError;
use wp_core::Turn;

fn release(world: &mut World, actor: &mut Actor, place: usize) -> Result<(), AllocError>
    ensures { OnOk result ((by : ℕ) → with_actor world.new by actor.new
        ≡ released_world world.old actor.old by (take place actor.old.participant.registered) (drop place actor.old.participant.registered)) }
{
    let alloc = world.alloc;
    let number = actor.release(place);
    world.snapshots.release_any(number, alloc)?;
    hold(world, actor, Turn::Snapshots);
    Ok(())
}

pub(crate) fn snapshots(
    world: &mut World,
    actor: &mut Actor,
    kind: SnapshotsStep,
) -> Result<(), AllocError>
    ensures { (s : step.Step) → snapshots_step actor.old.participant kind ≡ Some s
        → OnOk result ((by : ℕ) → IsEffect by world.old actor.old s world.new actor.new) }
{
    let alloc = world.alloc;
    match kind {
        SnapshotsStep::RegisterAgain(number) => {
            actor.register(Registration {
                number,
                smallest: 1,
            })?;
            world.snapshots.register(number, alloc)?;
        }
        SnapshotsStep::Release(place) => return release(world, actor, place),
        SnapshotsStep::AddOldCommit(s, p) => world.snapshots.keep(s, p, alloc)?,
    }
    hold(world, actor, Turn::Snapshots);
    Ok(())
}
