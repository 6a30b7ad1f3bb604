//! What the steps with the write turn make of a world.
ghost use Rattle.std.specs.Prelude.{◌≡◌, ℕ, OnOk, Some};
ghost use Rattle.wp_core.specs.Steps as step;
ghost use Rattle.wp_machine.specs.Machine.{write_step};
ghost use Rattle.wp_machine.specs.Effect.{IsEffect};

use crate::actor::Actor;
use crate::effects::turn::hold;
use crate::step::WriteStep;
use crate::views::{Event, Found};
use crate::world::World;
use std::alloc::AllocError;
use std::snapshot::Snapshot;
use wp_core::Turn;
use wp_model::Seq;

pub(crate) fn write(world: &mut World, actor: &mut Actor, kind: WriteStep) -> Result<(), AllocError>
    ensures { (s : step.Step) → write_step kind ≡ Some s
        → OnOk result ((by : ℕ) → IsEffect by world.old actor.old s world.new actor.new) }
{
    match kind {
        WriteStep::MakePending(entries) => {
            world.writes.pending = entries;
            world.writes.logged = false;
        }
        WriteStep::LogPending => world.writes.log_pending(world.alloc)?,
        WriteStep::CloseLog => {
            let failed = Snapshot::of(&world.writes.pending);
            actor.remember(Event::of(Found::LogFailed(failed)))?;
            world.writes.close_log();
        }
        WriteStep::FindLogClosed => {
            let published = world.writes.history.len() as Seq;
            return actor.remember(Event::of(Found::Stopped(published)));
        }
        WriteStep::FindBase => {
            let published = world.writes.history.len() as Seq;
            let base = world.writes.segment.base;
            return actor.remember(Event::of(Found::Base(published, base)));
        }
        WriteStep::DropPending => world.writes.pending.clear(),
        WriteStep::WriteSegment(place) => world.writes.write_segment(place),
        WriteStep::UseSegment => world.writes.use_segment(),
        WriteStep::StopLog => {
            world.writes.closed = true;
            world.writes.stopped = true;
            actor.remember(Event::of(Found::LogStopped))?;
        }
    }
    hold(world, actor, Turn::Write);
    Ok(())
}
