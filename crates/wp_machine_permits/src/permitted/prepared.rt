//! Whether a step with the prepared turn may be made.
ghost use Rattle.std.specs.Prelude.{◌≡◌, true, Some, IfOk};
ghost use Rattle.wp_judge.specs.Words.{commit_pair};
ghost use Rattle.wp_core.specs.World.{Actor};
ghost use Rattle.wp_core.specs.Conditions.{IsPreparePending};
ghost use Rattle.wp_core.specs.Sound.Prepared.{IsPassed};
ghost use Rattle.wp_core.specs.Steps as step;
ghost use Rattle.wp_machine.specs.Machine.{prepared_step};
ghost use Rattle.wp_machine_permits.specs.Offered.{IsOffered};

use crate::needs::{cached, decision_in, is_in_old_commits};
use std::alloc::AllocError;
use wp_machine::{PreparedStep, Turn, World};
use wp_model::{Entry, Seq};

fn is_prepare_pending(world: &World, by: usize) -> bool
    ensures { result ≡ true → IsPreparePending world.now by }
{
    if !world.holders.holds(Turn::Write, by) || !world.holders.holds(Turn::Prepared, by) {
        return false;
    }
    match world.writes.pending.first() {
        Some(Entry::Prepare(_, _)) => true,
        Some(Entry::Write(_) | Entry::Commit(_) | Entry::Undo(_, _) | Entry::Close(_)) | None => {
            false
        }
    }
}

fn may_add_delayed_commit(world: &World, by: usize, p: Seq, c: Seq) -> Result<bool, AllocError>
    ensures { IfOk result (λ yes. yes ≡ true → (a : Actor) → IsOffered world.now by a (Some (step.add_delayed_commit (commit_pair p c)))) }
{
    if !world.holders.holds(Turn::Prepared, by) || world.delayed_flag == 0 {
        return Ok(false);
    }
    let decision = decision_in(world.writes.entries(), p, world.alloc)?;
    Ok(decision == Some(c))
}

/// The pending entry's pair may become a delayed commit, with the flag up.
fn may_delay_pending(world: &World, by: usize, p: Seq, c: Seq) -> Result<bool, AllocError>
    ensures { IfOk result (λ yes. yes ≡ true → (a : Actor) → IsOffered world.now by a (Some (step.delay_pending (commit_pair p c)))) }
{
    if !world.holders.holds(Turn::Write, by)
        || !world.holders.holds(Turn::Prepared, by)
        || world.delayed_flag == 0
    {
        return Ok(false);
    }
    let pair = world.writes.pending_pair()?;
    Ok(pair == Some((p, c)))
}

/// The pair is passed: the bound has come to its decision, and it is kept for the snapshots that it overlaps.
fn is_passed(world: &World, p: Seq, c: Seq) -> Result<bool, AllocError>
    ensures { IfOk result (λ passed. passed ≡ true → IsPassed world.now.max_evicted world.now.snapshots p c) }
{
    if c > world.max_evicted {
        return Ok(false);
    }
    let kept = is_in_old_commits(&world.snapshots, p, c, world.alloc)?;
    Ok(kept)
}

/// Only a number whose decision is published is taken out, once its pair is in its word, or is passed.
fn may_take_out(world: &World, by: usize, p: Seq) -> Result<bool, AllocError>
    ensures { IfOk result (λ yes. yes ≡ true → (a : Actor) → IsOffered world.now by a (Some (step.take_out p))) }
{
    if !world.holders.holds(Turn::Prepared, by) {
        return Ok(false);
    }
    match decision_in(world.writes.entries(), p, world.alloc)? {
        Some(c) => Ok(cached(&world.cache, p) == Some(c) || is_passed(world, p, c)?),
        None => Ok(false),
    }
}

pub(super) fn prepared(world: &World, by: usize, kind: &PreparedStep) -> Result<bool, AllocError>
    ensures { IfOk result (λ yes. yes ≡ true → (a : Actor) → IsOffered world.now by a (prepared_step kind.now)) }
{
    match kind {
        PreparedStep::Add | PreparedStep::TakePending => Ok(is_prepare_pending(world, by)),
        PreparedStep::AddDelayedCommit(p, c) => may_add_delayed_commit(world, by, *p, *c),
        PreparedStep::DelayPending(p, c) => may_delay_pending(world, by, *p, *c),
        PreparedStep::TakeOut(p) => may_take_out(world, by, *p),
    }
}
