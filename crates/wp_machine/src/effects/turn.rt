//! What it makes of a world to take a turn or to give it.
ghost use Rattle.std.specs.Prelude.{◌≡◌, OnOk, Some};
ghost use Rattle.wp_core.specs.World.{content_of};
ghost use Rattle.wp_core.specs.Changes.{held_with};
ghost use Rattle.wp_core.specs.Steps as step;
ghost use Rattle.wp_core.specs.Turns.{turn_of};
ghost use Rattle.wp_machine.specs.Machine.{turn_step};
ghost use Rattle.wp_machine.specs.Effect.{IsEffect};

use crate::actor::Actor;
use crate::content::Content;
use crate::lists::add_first;
use crate::step::TurnStep;
use crate::world::World;
use std::alloc::AllocError;
use wp_core::Turn;

/// The actor has the state as the world has it now, if it holds that turn.
pub(super) fn hold(world: &World, actor: &mut Actor, turn: Turn)
    ensures { actor.new ≡ record actor.old { held = held_with actor.old.held (content_of world.now (turn_of turn)) } }
{
    actor.hold(Content::of(world, turn));
}

pub(crate) fn turn(
    world: &mut World,
    by: usize,
    actor: &mut Actor,
    kind: TurnStep,
) -> Result<(), AllocError>
    ensures { (s : step.Step) → turn_step kind ≡ Some s
        → OnOk result (IsEffect by world.old actor.old s world.new actor.new) }
{
    match kind {
        TurnStep::Take(turn) => {
            add_first(&mut actor.held, Content::of(world, turn))?;
            world.holders.set(turn, Some(by));
        }
        TurnStep::Give(turn) => {
            actor.let_go(turn);
            world.holders.set(turn, None);
        }
    }
    Ok(())
}
