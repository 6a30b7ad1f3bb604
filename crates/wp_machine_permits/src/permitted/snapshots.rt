//! Whether a step with the snapshots turn may be made.
ghost use Rattle.std.specs.Prelude.{◌≡◌, true, Some, take, drop, IfOk};
ghost use Rattle.wp_core.specs.World.{Actor};
ghost use Rattle.wp_core.specs.Needs.{Needs};
ghost use Rattle.wp_core.specs.Steps as step;
ghost use Rattle.wp_machine.specs.Machine.{snapshots_step, released_step};
ghost use Rattle.wp_machine_permits.specs.Offered.{IsOffered};

use crate::needs::decision_in;
use std::alloc::AllocError;
use wp_machine::{Actor, SnapshotsStep, Turn, World};
use wp_model::Seq;

fn may_register_again(world: &World, by: usize, actor: &Actor, s: Seq) -> bool
    ensures { result ≡ true → Needs world.now by actor.now (step.register_again s) }
{
    world.holders.holds(Turn::Snapshots, by)
        && world.snapshots.at(s).is_some()
        && s <= actor.participant.seen.len() as u64
}

fn may_release(world: &World, by: usize, actor: &Actor, place: usize) -> bool
    ensures { result ≡ true → IsOffered world.now by actor.now (released_step (take place actor.now.participant.registered) (drop place actor.now.participant.registered)) }
{
    world.holders.holds(Turn::Snapshots, by) && place < actor.participant.registered.len()
}

/// Under a live number, a version that it overlaps, with the flag up.
fn may_add_old_commit(world: &World, by: usize, s: Seq, p: Seq) -> Result<bool, AllocError>
    ensures { IfOk result (λ yes. yes ≡ true → (a : Actor) → IsOffered world.now by a (Some (step.add_old_commit s p))) }
{
    if !world.holders.holds(Turn::Snapshots, by) || world.old_flag == 0 {
        return Ok(false);
    }
    if world.snapshots.at(s).is_none() {
        return Ok(false);
    }
    let Some(c) = decision_in(world.writes.entries(), p, world.alloc)? else {
        return Ok(false);
    };
    Ok(p <= s && s < c)
}

pub(super) fn snapshots(
    world: &World,
    by: usize,
    actor: &Actor,
    kind: &SnapshotsStep,
) -> Result<bool, AllocError>
    ensures { IfOk result (λ yes. yes ≡ true → IsOffered world.now by actor.now (snapshots_step actor.now.participant kind.now)) }
{
    match kind {
        SnapshotsStep::RegisterAgain(s) => Ok(may_register_again(world, by, actor, *s)),
        SnapshotsStep::Release(place) => Ok(may_release(world, by, actor, *place)),
        SnapshotsStep::AddOldCommit(s, p) => may_add_old_commit(world, by, *s, *p),
    }
}
