//! Whether a step with the locks turn may be made.
ghost use Rattle.std.specs.Prelude.{◌≡◌, true, Some, None, IfOk, is_some, option_map};
ghost use Rattle.std.specs.FinMap as finite;
ghost use Rattle.wp_core.specs.World.{Actor};
ghost use Rattle.wp_core.specs.Steps as step;
ghost use Rattle.wp_model.specs.History.{named};
ghost use Rattle.wp_machine.specs.Machine.{locks_step};
ghost use Rattle.wp_machine_permits.specs.Offered.{IsOffered};

use crate::needs::{has_direct, has_locked, may_find};
use crate::permitted::history::history_of;
use crate::permitted::publishing::has_transaction;
use std::alloc::AllocError;
use wp_machine::{Actor, LocksStep, Turn, World};
use wp_model::{Key, Name, Seq};

/// The name is that of the undecided prepare with this number.
fn is_named(world: &World, name: &Name, p: Seq) -> Result<bool, AllocError>
    ensures { IfOk result (λ yes. yes ≡ true → named world.now.writes.history name.now ≡ Some p) }
{
    let Some(history) = history_of(world)? else {
        return Ok(false);
    };
    Ok(history.named(name) == Some(p))
}

/// An undecided prepare has the name.
fn is_prepared(world: &World, name: &Name) -> Result<bool, AllocError>
    ensures { IfOk result (λ yes. yes ≡ true → is_some (named world.now.writes.history name.now) ≡ true) }
{
    let Some(history) = history_of(world)? else {
        return Ok(false);
    };
    Ok(history.named(name).is_some())
}

/// No undecided prepare has the name.
fn is_unprepared(world: &World, name: &Name) -> Result<bool, AllocError>
    ensures { IfOk result (λ yes. yes ≡ true → named world.now.writes.history name.now ≡ None) }
{
    let Some(history) = history_of(world)? else {
        return Ok(false);
    };
    Ok(history.named(name).is_none())
}

fn may_take_name(world: &World, by: usize, name: &Name, p: Seq) -> Result<bool, AllocError>
    ensures { IfOk result (λ yes. yes ≡ true → (a : Actor) → IsOffered world.now by a (Some (step.take_name name.now p))) }
{
    if !world.holders.holds(Turn::Locks, by) || !world.locks.is_left(name) {
        return Ok(false);
    }
    let named = is_named(world, name, p)?;
    Ok(named)
}

fn may_leave_name(world: &World, by: usize, actor: &Actor, name: &Name) -> Result<bool, AllocError>
    ensures { IfOk result (λ yes. yes ≡ true → IsOffered world.now by actor.now (Some (step.leave_name name.now))) }
{
    if !world.holders.holds(Turn::Locks, by) || !has_transaction(actor, name) {
        return Ok(false);
    }
    let prepared = is_prepared(world, name)?;
    Ok(prepared)
}

fn may_free_transaction(
    world: &World,
    by: usize,
    actor: &Actor,
    name: &Name,
) -> Result<bool, AllocError>
    ensures { IfOk result (λ yes. yes ≡ true → IsOffered world.now by actor.now (Some (step.free_transaction name.now))) }
{
    if !world.holders.holds(Turn::Locks, by) || !has_transaction(actor, name) {
        return Ok(false);
    }
    let unprepared = is_unprepared(world, name)?;
    Ok(unprepared)
}

fn may_free_key(
    world: &World,
    by: usize,
    actor: &Actor,
    name: &Name,
    key: &Key,
) -> Result<bool, AllocError>
    ensures { IfOk result (λ yes. yes ≡ true → IsOffered world.now by actor.now (option_map (λ t. step.free_key name.now t key.now) (finite.get actor.now.participant.transactions name.now))) }
{
    let Some(transaction) = actor.participant.transaction(name) else {
        return Ok(false);
    };
    if !world.holders.holds(Turn::Locks, by) || !has_locked(transaction, key) {
        return Ok(false);
    }
    let unprepared = is_unprepared(world, name)?;
    Ok(unprepared)
}

fn may_lock_key(
    world: &World,
    by: usize,
    actor: &Actor,
    name: &Name,
    key: &Key,
) -> Result<bool, AllocError>
    ensures { IfOk result (λ yes. yes ≡ true → IsOffered world.now by actor.now (option_map (λ t. step.lock_key name.now t key.now) (finite.get actor.now.participant.transactions name.now))) }
{
    if actor.participant.transaction(name).is_none() {
        return Ok(false);
    }
    if !world.holders.holds(Turn::Locks, by) || world.locks.holder(key).is_some() {
        return Ok(false);
    }
    let unprepared = is_unprepared(world, name)?;
    Ok(unprepared)
}

pub(super) fn locks(
    world: &World,
    by: usize,
    actor: &Actor,
    kind: &LocksStep,
) -> Result<bool, AllocError>
    ensures { IfOk result (λ yes. yes ≡ true → IsOffered world.now by actor.now (locks_step world.now.locks actor.now.participant kind.now)) }
{
    match kind {
        LocksStep::TakeName(name, p) => may_take_name(world, by, name, *p),
        LocksStep::LeaveName(name) => may_leave_name(world, by, actor, name),
        LocksStep::FreeTransaction(name) => may_free_transaction(world, by, actor, name),
        LocksStep::LockKey(name, key) => may_lock_key(world, by, actor, name, key),
        LocksStep::FreeKey(name, key) => may_free_key(world, by, actor, name, key),
        LocksStep::FindHolder(key, holder, account) => {
            Ok(may_find(world, by, actor, key, holder, *account))
        }
        _ => Ok(claims(world, by, actor, kind)),
    }
}

/// The others: they ask no history.
fn claims(world: &World, by: usize, actor: &Actor, kind: &LocksStep) -> bool
    ensures { result ≡ true → IsOffered world.now by actor.now (locks_step world.now.locks actor.now.participant kind.now) }
{
    if !world.holders.holds(Turn::Locks, by) {
        return false;
    }
    match kind {
        LocksStep::ClaimName(name) => world.locks.name(name).is_none() && actor.live,
        LocksStep::LockDirect(key) => {
            actor.participant.direct.is_none() && world.locks.holder(key).is_none()
        }
        LocksStep::FreeDirect(key) => has_direct(&actor.participant, key),
        LocksStep::Tell(_) => true,
        LocksStep::Hear(label) => world.locks.told(label).is_some(),
        LocksStep::TakeName(_, _)
        | LocksStep::LeaveName(_)
        | LocksStep::FreeTransaction(_)
        | LocksStep::LockKey(_, _)
        | LocksStep::FreeKey(_, _)
        | LocksStep::FindHolder(_, _, _) => false,
    }
}
