//! What is so of a transaction of the actor, and of its direct write.
ghost use Rattle.std.specs.Prelude.{◌≡◌, ◌↔◌, ℕ, List, true, Some, None, IfOk, IfSome};
ghost use Rattle.std.specs.FinSet as set;
ghost use Rattle.std.specs.FinMap as finite;
ghost use Rattle.wp_model.specs.declared.change.Change.{Change};
ghost use Rattle.wp_model.specs.declared.holder.Holder.TheVariants.{Txn, Client};
ghost use Rattle.wp_model.specs.Batch.{key_of};
ghost use Rattle.wp_model.specs.History.{batch_at, is_changed, named, holder_of};
ghost use Rattle.wp_model.specs.Legal.{prior};
ghost use Rattle.wp_core.specs.Sound.Views.{Owns};
ghost use Rattle.wp_machine_permits.specs.Each.{Each};
ghost use Rattle.wp_machine_permits.specs.Holding.{IsUndecidedAt, HasPrior, IsUnprepared, IsDirectFree, AreHeldFor, NoneHeld};

use crate::needs::read::history_of;
use std::alloc::{AllocError, Global};
use wp_history::History;
use wp_machine::{LockState, Participant, Transaction};
use wp_model::{Batch, Change, Entry, Holder, Key, Name, Seq};

/// Whether the transaction is the participant's.
pub(crate) fn owns(participant: &Participant, name: &Name) -> bool
    ensures { (result ≡ true) ↔ Owns participant.now name.now }
{
    participant.transaction(name).is_some()
}

fn is_named(history: &History, name: &Name, p: Seq) -> bool
    ensures { (result ≡ true) ↔ (named history.now.entries name.now ≡ Some p) }
{
    history.named(name) == Some(p)
}

fn is_unnamed(history: &History, name: &Name) -> bool
    ensures { (result ≡ true) ↔ (named history.now.entries name.now ≡ None) }
{
    history.named(name).is_none()
}

/// Whether the participant is the client of the live name.
fn is_client_of(locks: &LockState, participant: &Participant, name: &Name) -> bool
    ensures { result ≡ true → finite.get locks.now.names name.now ≡ Some (Some participant.now.client) }
{
    match (locks.name(name), &participant.client) {
        (Some(Some(client)), Some(own)) => client == own,
        _ => false,
    }
}

/// Whether the transaction locked the key.
pub(crate) fn has_locked(transaction: &Transaction, key: &Key) -> bool
    ensures { result ≡ set.contains transaction.now.locked key.now }
{
    transaction.locked.contains(key)
}

/// Whether the transaction holds the key.
pub(crate) fn is_held_for(locks: &LockState, key: &Key, name: &Name) -> bool
    ensures { (result ≡ true) ↔ (finite.get locks.now.keys key.now ≡ Some (Txn name.now)) }
{
    match locks.holder(key) {
        Some(Holder::Txn(other)) => other == name,
        _ => false,
    }
}

fn each_is_held_for(locks: &LockState, changes: &[Change], name: &Name) -> bool
    ensures { (result ≡ true) ↔ Each (λ (change : Change). finite.get locks.now.keys (key_of change) ≡ Some (Txn name.now)) changes.now }
{
    for change in changes {
        if !is_held_for(locks, change.key(), name) {
            return false;
        }
    }
    true
}

fn are_held_for(locks: &LockState, changes: &[Change], name: &Name) -> bool
    ensures { (result ≡ true) ↔ AreHeldFor locks.now changes.now name.now }
{
    each_is_held_for(locks, changes, name)
}

/// Whether the keys of the prepare with that number are held for the transaction.
fn holds_batch(locks: &LockState, history: &History, p: Seq, name: &Name) -> bool
    ensures { (result ≡ true) ↔ AreHeldFor locks.now (batch_at history.now.entries p) name.now }
{
    match history.prepare_at(p) {
        Some((_, batch)) => are_held_for(locks, batch.changes(), name),
        None => true,
    }
}

fn is_undecided_in(
    locks: &LockState,
    history: &History,
    participant: &Participant,
    name: &Name,
    p: Seq,
) -> bool
    ensures { result ≡ true → IsUndecidedAt history.now.entries locks.now participant.now name.now p }
{
    if !owns(participant, name) {
        return false;
    }
    if !is_named(history, name, p) {
        return false;
    }
    if !is_client_of(locks, participant, name) {
        return false;
    }
    holds_batch(locks, history, p, name)
}

/// Whether the participant's transaction is undecided under that number.
pub(crate) fn is_undecided_at(
    locks: &LockState,
    entries: &[Entry],
    participant: &Participant,
    name: &Name,
    p: Seq,
    alloc: Global,
) -> Result<bool, AllocError>
    ensures { IfOk result (λ yes. yes ≡ true → IsUndecidedAt entries.now locks.now participant.now name.now p) }
{
    let Some(history) = history_of(entries, alloc)? else {
        return Ok(false);
    };
    Ok(is_undecided_in(locks, &history, participant, name, p))
}

fn is_same_change(change: &Change, other: &Change) -> bool
    ensures { (result ≡ true) ↔ (change.now ≡ other.now) }
{
    match (change, other) {
        (Change::Put(key, value), Change::Put(other, new)) => key == other && value == new,
        (Change::Del(key), Change::Del(other)) => key == other,
        _ => false,
    }
}

fn are_same_changes(changes: &[Change], others: &[Change]) -> bool
    ensures { (result ≡ true) ↔ (changes.now ≡ others.now) }
{
    if changes.len() != others.len() {
        return false;
    }
    for (i, change) in changes.iter().enumerate() {
        if !is_same_change(change, &others[i]) {
            return false;
        }
    }
    true
}

fn is_prior_in(history: &History, p: Seq, batch: &Batch, alloc: Global) -> Result<bool, AllocError>
    ensures { IfOk result (λ yes. yes ≡ true → prior history.now.entries (batch_at history.now.entries p) ≡ batch.now) }
{
    if !history.is_undecided(p) {
        return Ok(false);
    }
    let restored = history.prior(alloc, p)?;
    Ok(are_same_changes(restored.changes(), batch.changes()))
}

/// Whether a rollback of the participant's transaction, which is undecided under that number, writes this batch.
pub(crate) fn has_prior(
    entries: &[Entry],
    participant: &Participant,
    name: &Name,
    p: Seq,
    batch: &Batch,
    alloc: Global,
) -> Result<bool, AllocError>
    ensures { IfOk result (λ yes. yes ≡ true → HasPrior entries.now participant.now name.now p batch.now) }
{
    let Some(history) = history_of(entries, alloc)? else {
        return Ok(false);
    };
    if !owns(participant, name) || !is_named(&history, name, p) {
        return Ok(false);
    }
    is_prior_in(&history, p, batch, alloc)
}

fn each_is_free(history: &History, keys: &[Key]) -> bool
    ensures { (result ≡ true) ↔ Each (λ key. holder_of history.now.entries key ≡ None) keys.now }
{
    for key in keys {
        if history.holder_of(key).is_some() {
            return false;
        }
    }
    true
}

/// Whether no key that the transaction locked is held by an undecided prepare.
fn keys_are_free(history: &History, transaction: &Transaction) -> bool
    ensures { (result ≡ true) ↔ ((key : List ℕ) → set.contains transaction.now.locked key ≡ true → holder_of history.now.entries key ≡ None) }
{
    each_is_free(history, &transaction.locked)
}

/// Whether no key that the participant's transaction locked is held by an undecided prepare.
fn none_held(history: &History, participant: &Participant, name: &Name) -> bool
    ensures { (result ≡ true) ↔ NoneHeld history.now.entries participant.now name.now }
{
    match participant.transaction(name) {
        Some(transaction) => keys_are_free(history, transaction),
        None => true,
    }
}

fn is_unprepared_in(history: &History, participant: &Participant, name: &Name) -> bool
    ensures { (result ≡ true) ↔ IsUnprepared history.now.entries participant.now name.now }
{
    if !owns(participant, name) {
        return false;
    }
    if !is_unnamed(history, name) {
        return false;
    }
    none_held(history, participant, name)
}

/// Whether the participant's transaction is named by no undecided prepare, and its keys are in none.
pub(crate) fn is_unprepared(
    entries: &[Entry],
    participant: &Participant,
    name: &Name,
    alloc: Global,
) -> Result<bool, AllocError>
    ensures { IfOk result (λ yes. yes ≡ true → IsUnprepared entries.now participant.now name.now) }
{
    let Some(history) = history_of(entries, alloc)? else {
        return Ok(false);
    };
    Ok(is_unprepared_in(&history, participant, name))
}

/// Whether the key is held for a direct write of the participant.
fn is_own_direct(locks: &LockState, participant: &Participant, key: &Key) -> bool
    ensures { result ≡ true → finite.get locks.now.keys key.now ≡ Some (Client participant.now.client) }
{
    match (locks.holder(key), &participant.client) {
        (Some(Holder::Client(client)), Some(own)) => client == own,
        _ => false,
    }
}

/// Whether the key is that of the participant's direct write.
pub(crate) fn has_direct(participant: &Participant, key: &Key) -> bool
    ensures { (result ≡ true) ↔ (participant.now.direct ≡ Some key.now) }
{
    match &participant.direct {
        Some(direct) => direct == key,
        None => false,
    }
}

/// Whether the key of the participant's direct write is in no undecided batch.
pub(crate) fn is_direct_free(
    locks: &LockState,
    entries: &[Entry],
    participant: &Participant,
    key: &Key,
    alloc: Global,
) -> Result<bool, AllocError>
    ensures { IfOk result (λ yes. yes ≡ true → IsDirectFree entries.now locks.now participant.now key.now) }
{
    let Some(history) = history_of(entries, alloc)? else {
        return Ok(false);
    };
    if !has_direct(participant, key) || !is_own_direct(locks, participant, key) {
        return Ok(false);
    }
    Ok(history.holder_of(key).is_none())
}
