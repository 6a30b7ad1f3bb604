//! What is so of the keys of a transaction: that one is unchanged since a number, and that just these are held.
ghost use Rattle.std.specs.Prelude.{◌≡◌, ◌≤◌, true, length, Some, IfOk};
ghost use Rattle.std.specs.FinMap as finite;
ghost use Rattle.wp_model.specs.Changed.{IsUnchanged};
ghost use Rattle.wp_model.specs.declared.holder.Holder.TheVariants.{Txn};
ghost use Rattle.wp_model.specs.History.{named};
ghost use Rattle.wp_model.specs.LockState.{is_among_keys};
ghost use Rattle.wp_core.specs.Sound.Views.{AreKeysOf};
ghost use Rattle.wp_machine_permits.specs.Each.{Each};
ghost use Rattle.wp_machine_permits.specs.Holding.{HasLocksStay, HasUnchanged};

use crate::needs::read::history_of;
use crate::needs::transactions::{has_locked, is_held_for};
use std::alloc::{AllocError, Global};
use wp_machine::{LockState, Participant};
use wp_model::{Entry, Holder, Key, Name, Seq};

/// Whether no entry above n, which is one of theirs or 0, changes the key.
fn is_unchanged(entries: &[Entry], key: &Key, n: Seq, alloc: Global) -> Result<bool, AllocError>
    ensures { IfOk result (λ yes. yes ≡ true → (n ≤ length entries.now) × IsUnchanged entries.now key.now n) }
{
    if n > entries.len() as Seq {
        return Ok(false);
    }
    let Some(mut history) = history_of(entries, alloc)? else {
        return Ok(false);
    };
    Ok(history.changed_after(alloc, key, n).is_none())
}

/// Whether the participant's transaction locked the key, which no entry above n changes.
pub(crate) fn has_unchanged(
    entries: &[Entry],
    participant: &Participant,
    name: &Name,
    key: &Key,
    n: Seq,
    alloc: Global,
) -> Result<bool, AllocError>
    ensures { IfOk result (λ yes. yes ≡ true → HasUnchanged entries.now participant.now name.now key.now n) }
{
    let Some(transaction) = participant.transaction(name) else {
        return Ok(false);
    };
    if !has_locked(transaction, key) {
        return Ok(false);
    }
    let unchanged = is_unchanged(entries, key, n, alloc)?;
    Ok(unchanged)
}

/// Whether each of these keys is held for the transaction.
fn are_held(locks: &LockState, name: &Name, keys: &[Key]) -> bool
    ensures { result ≡ true → Each (λ key. finite.get locks.now.keys key ≡ Some (Txn name.now)) keys.now }
{
    for key in keys {
        if !is_held_for(locks, key, name) {
            return false;
        }
    }
    true
}

/// Whether the key is one of these.
fn is_among(keys: &[Key], key: &Key) -> bool
    ensures { result ≡ true → is_among_keys keys.now key.now ≡ true }
{
    for other in keys {
        if other == key {
            return true;
        }
    }
    false
}

/// Whether each of the first is one of the second.
fn are_among(found: &[Key], keys: &[Key]) -> bool
    ensures { result ≡ true → Each (λ key. is_among_keys keys.now key ≡ true) found.now }
{
    for key in found {
        if !is_among(keys, key) {
            return false;
        }
    }
    true
}

/// Whether just these keys are held for the transaction.
fn are_keys_of(
    locks: &LockState,
    name: &Name,
    keys: &[Key],
    alloc: Global,
) -> Result<bool, AllocError>
    ensures { IfOk result (λ yes. yes ≡ true → AreKeysOf locks.now.keys name.now keys.now) }
{
    let found = locks.keys_of(&Holder::Txn(name.copy(alloc)?), alloc)?;
    if !are_among(&found, keys) {
        return Ok(false);
    }
    Ok(are_held(locks, name, keys))
}

/// Whether just these keys are held for the name while the prepare with that number, which is there or to come no more, is undecided.
pub(crate) fn locks_stay(
    locks: &LockState,
    entries: &[Entry],
    name: &Name,
    p: Seq,
    keys: &[Key],
    alloc: Global,
) -> Result<bool, AllocError>
    ensures { IfOk result (λ yes. yes ≡ true → HasLocksStay entries.now locks.now name.now p keys.now) }
{
    if p > entries.len() as Seq {
        return Ok(false);
    }
    let Some(history) = history_of(entries, alloc)? else {
        return Ok(false);
    };
    if history.named(name) != Some(p) {
        return Ok(true);
    }
    are_keys_of(locks, name, keys, alloc)
}
