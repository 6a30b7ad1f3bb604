//! Whether a step with the write turn may be made.
ghost use Rattle.std.specs.Prelude.{◌≡◌, ◌≢◌, ◌<◌, ◌↔◌, ◌++◌, true, Some, IfOk};
ghost use Rattle.wp_core.specs.World.{Actor, published};
ghost use Rattle.wp_core.specs.Cache.{cached};
ghost use Rattle.wp_core.specs.Conditions.{MayLog, MayClose, MayDrop, MayWriteSegment, MayUseSegment, MayStop};
ghost use Rattle.wp_model.specs.Record.{AreCommits, IsOneRecord};
ghost use Rattle.wp_core.specs.Entries.{pending_pair};
ghost use Rattle.wp_core.specs.Steps as step;
ghost use Rattle.wp_model.specs.Legal.{IsLegal};
ghost use Rattle.wp_judge.specs.Words.{CommitPair};
ghost use Rattle.wp_machine.specs.Machine.{write_step};
ghost use Rattle.wp_machine_permits.specs.Offered.{IsOffered};

use crate::needs::{cached, is_next_segment, is_undelayed, none_at};
use crate::permitted::history::{add_all, history_of};
use std::alloc::AllocError;
use wp_machine::{Turn, World, WriteStep};
use wp_model::{Entry, MOST_COMMITS, Seq};

fn may_log(world: &World, by: usize) -> bool
    ensures { result ≡ true → MayLog world.now by }
{
    world.holders.holds(Turn::Write, by)
        && !world.writes.pending.is_empty()
        && !world.writes.logged
        && !world.writes.closed
}

/// The last edit names the next segment.
fn names_next(world: &World) -> bool
    ensures { (result ≡ true) ↔ (world.now.writes.next ≡ Some world.now.installed.last.segment) }
{
    is_next_segment(world, world.installed.last.segment)
}

/// More is published than the log's base.
fn has_something_to_renew(world: &World) -> bool
    ensures { result ≡ true → world.now.writes.segment.base < published world.now }
{
    world.writes.segment.base < world.writes.history.len() as Seq
}

fn may_close(world: &World, by: usize) -> bool
    ensures { result ≡ true → MayClose world.now by }
{
    if !world.holders.holds(Turn::Write, by) || world.writes.closed {
        return false;
    }
    if world.writes.pending.is_empty() {
        return !names_next(world) && has_something_to_renew(world);
    }
    !world.writes.logged
}

fn may_write_segment(world: &World, by: usize, place: u64) -> bool
    ensures { result ≡ true → MayWriteSegment world.now by place }
{
    world.holders.holds(Turn::Write, by)
        && world.writes.pending.is_empty()
        && !world.writes.closed
        && world.writes.next.is_none()
        && place != world.writes.segment.place
}

fn may_use_segment(world: &World, by: usize) -> bool
    ensures { result ≡ true → MayUseSegment world.now by }
{
    world.holders.holds(Turn::Write, by) && !world.writes.closed && names_next(world)
}

fn may_stop(world: &World, by: usize) -> bool
    ensures { result ≡ true → MayStop world.now by }
{
    world.holders.holds(Turn::Write, by)
        && world.holders.holds(Turn::Tables, by)
        && world.writes.pending.is_empty()
        && !world.writes.closed
        && !names_next(world)
        && world.installed.halted
}

fn are_commits(entries: &[Entry]) -> bool
    ensures { result ≡ true → AreCommits entries.now }
{
    for entry in entries {
        let Entry::Commit(_) = entry else {
            return false;
        };
    }
    true
}

/// One entry, an undo with its close, or a group of commits.
fn is_one_record(entries: &[Entry]) -> bool
    ensures { result ≡ true → IsOneRecord entries.now }
{
    match entries {
        [Entry::Undo(p, _), Entry::Close(q)] => p == q,
        [Entry::Commit(_), others @ ..] => others.len() < MOST_COMMITS && are_commits(others),
        [Entry::Write(_) | Entry::Prepare(_, _)] => true,
        _ => false,
    }
}

/// With the entries the history is legal.
fn is_legal_with(world: &World, entries: &[Entry]) -> Result<bool, AllocError>
    ensures { IfOk result (λ legal. legal ≡ true → IsLegal (world.now.writes.history ++ entries.now)) }
{
    let Some(mut history) = history_of(world)? else {
        return Ok(false);
    };
    let follow = add_all(&mut history, entries, world.alloc)?;
    let _ = history.later();
    Ok(follow)
}

fn may_make_pending(world: &World, by: usize, entries: &[Entry]) -> Result<bool, AllocError>
    ensures { IfOk result (λ yes. yes ≡ true → (a : Actor) → IsOffered world.now by a (Some (step.make_pending entries.now))) }
{
    if !world.holders.holds(Turn::Write, by) || !world.writes.pending.is_empty() {
        return Ok(false);
    }
    if !world.writes.none_next() || !is_one_record(entries) {
        return Ok(false);
    }
    let legal = is_legal_with(world, entries)?;
    Ok(legal)
}

/// The pending entry's pair is in no word.
fn is_in_no_word(world: &World) -> Result<bool, AllocError>
    ensures { IfOk result (λ yes. yes ≡ true → (pair : CommitPair) → pending_pair world.now.writes.history world.now.writes.pending ≡ Some pair → cached world.now.cache pair.number ≢ Some pair.decision) }
{
    Ok(match world.writes.pending_pair()? {
        Some((p, c)) => cached(&world.cache, p) != Some(c),
        None => true,
    })
}

fn may_drop(world: &World, by: usize) -> Result<bool, AllocError>
    ensures { IfOk result (λ yes. yes ≡ true → MayDrop world.now by) }
{
    if !world.holders.holds(Turn::Write, by) || world.writes.logged {
        return Ok(false);
    }
    let n = world.writes.next_number()?;
    if !none_at(&world.store.memory, n) || world.prepared.is_in_heap(n) {
        return Ok(false);
    }
    let unstored = is_in_no_word(world)?;
    let undelayed = is_undelayed(world)?;
    Ok(unstored && undelayed)
}

pub(super) fn write(world: &World, by: usize, kind: &WriteStep) -> Result<bool, AllocError>
    ensures { IfOk result (λ yes. yes ≡ true → (a : Actor) → IsOffered world.now by a (write_step kind.now)) }
{
    match kind {
        WriteStep::LogPending => Ok(may_log(world, by)),
        WriteStep::CloseLog => Ok(may_close(world, by)),
        WriteStep::FindLogClosed => {
            Ok(world.holders.holds(Turn::Write, by) && world.writes.closed)
        }
        WriteStep::FindBase => Ok(world.holders.holds(Turn::Write, by) && world.writes.none_next()),
        WriteStep::MakePending(entries) => may_make_pending(world, by, entries),
        WriteStep::DropPending => may_drop(world, by),
        WriteStep::WriteSegment(place) => Ok(may_write_segment(world, by, *place)),
        WriteStep::UseSegment => Ok(may_use_segment(world, by)),
        WriteStep::StopLog => Ok(may_stop(world, by)),
    }
}
