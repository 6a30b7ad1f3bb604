//! What the stores of words make of a world.
ghost use Rattle.std.specs.Prelude.{◌≡◌, ℕ, OnOk, Some, option_map};
ghost use Rattle.wp_core.specs.World.{Actor};
ghost use Rattle.wp_core.specs.Entries.{pending_pair};
ghost use Rattle.wp_core.specs.Changes.{with_actor};
ghost use Rattle.wp_core.specs.Steps as step;
ghost use Rattle.wp_machine.specs.Machine.{word_step};
ghost use Rattle.wp_machine.specs.Effect.{IsEffect, published_world};

use crate::actor::Actor;
use crate::effects::turn::hold;
use crate::step::WordStep;
use crate::world::World;
use std::alloc::AllocError;
use wp_core::Turn;

fn store_published(world: &mut World, actor: &mut Actor) -> Result<(), AllocError>
    ensures { OnOk result ((by : ℕ) → with_actor world.new by actor.new ≡ published_world world.old actor.old by world.old.writes.pending) }
{
    let alloc = world.alloc;
    world.writes.publish()?;
    actor.publish(&world.writes.history, alloc)?;
    hold(world, actor, Turn::Write);
    Ok(())
}

fn store_word(world: &mut World) -> Result<(), AllocError>
    ensures { (s : step.Step) (a : Actor) → option_map step.store_word (pending_pair world.old.writes.history world.old.writes.pending) ≡ Some s
        → OnOk result ((by : ℕ) → IsEffect by world.old a s world.new a) }
{
    if let Some((p, c)) = world.writes.pending_pair()? {
        world.cache.store(p, c)?;
    }
    Ok(())
}

pub(crate) fn word(world: &mut World, actor: &mut Actor, kind: WordStep) -> Result<(), AllocError>
    ensures { (s : step.Step) → word_step world.old.writes kind ≡ Some s
        → OnOk result ((by : ℕ) → IsEffect by world.old actor.old s world.new actor.new) }
{
    match kind {
        WordStep::StorePublished => return store_published(world, actor),
        WordStep::StoreMaxEvicted(m) => {
            world.max_evicted = m;
            world.prepared.move_up_to(m)?;
            hold(world, actor, Turn::Prepared);
        }
        WordStep::StoreWord => return store_word(world),
        WordStep::StoreDelayedFlag(value) => world.delayed_flag = value,
        WordStep::StoreOldFlag(value) => world.old_flag = value,
    }
    Ok(())
}
