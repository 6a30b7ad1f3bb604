//! Whether the first of the pending entries may be published.
ghost use Rattle.std.specs.Prelude.{◌≡◌, true, Some, ℕ, List, Option, length, IfOk};
ghost use Rattle.std.specs.Option.{option_copied};
ghost use Rattle.std.specs.FinSet as set;
ghost use Rattle.wp_model.specs.Batch.{key_of};
ghost use Rattle.wp_model.specs.History.{is_changed};
ghost use Rattle.wp_model.specs.Legal.{IsLegalNext};
ghost use Rattle.wp_model.specs.declared.change.Change.{Change};
ghost use Rattle.wp_model.specs.declared.entry.Entry.{Entry};
ghost use Rattle.wp_model.specs.declared.entry.Entry.TheVariants.{Prepare};
ghost use Rattle.wp_model.specs.declared.holder.Holder.TheVariants.{Txn};
ghost use Rattle.wp_judge.specs.Words.{CommitPair, commit_pair};
ghost use Rattle.wp_core.specs.Sound.Prepared.{IsWide, IsEntered};
ghost use Rattle.wp_core.specs.Conditions.{IsPrepare};
ghost use Rattle.wp_core.specs.Entries.{changes_under, written, transaction_of, pair_by};
ghost use Rattle.wp_core.specs.Lists.{IsIn};
ghost use Rattle.wp_core.specs.Views.{locked};
ghost use Rattle.wp_machine.specs.Machine.{published_step};
ghost use Rattle.wp_machine_permits.specs.Offered.{IsOffered};
ghost use Rattle.wp_machine_permits.specs.Each.{Each};
ghost use Rattle.wp_machine_permits.specs.Permits.{LockedItsKeys, IsEntitled, IsHeldKey, IsLocked, IsMade, IsOwned, IsOwner};

use crate::needs::{self, cached, has_direct, has_locked, has_versions_of};
use crate::permitted::evicting::fits_no_word;
use crate::permitted::history::{history_of, may_follow};
use std::alloc::AllocError;
use wp_history::History;
use wp_machine::{Actor, Event, Found, Transaction, Turn, World};
use wp_model::{Batch, Change, Entry, Holder, Key, Name, Seq};

/// The changes whose keys the entry needs.
fn changes_under<'a>(history: &'a History, entry: &'a Entry) -> &'a Batch
    requires { IsLegalNext history.now.entries entry.now }
    ensures { result.now ≡ changes_under history.now.entries entry.now }
{
    match entry {
        Entry::Write(batch) | Entry::Prepare(_, batch) | Entry::Undo(_, batch) => batch,
        Entry::Commit(p) | Entry::Close(p) => history.batch_at(*p),
    }
}

/// The transaction that the entry is of, if it is of one.
fn transaction_of<'a>(history: &'a History, entry: &'a Entry) -> Option<&'a Name>
    requires { IsLegalNext history.now.entries entry.now }
    ensures { option_copied result ≡ transaction_of history.now.entries entry.now }
{
    match entry {
        Entry::Write(_) => None,
        Entry::Prepare(name, _) => Some(name),
        Entry::Commit(p) | Entry::Undo(p, _) | Entry::Close(p) => Some(history.name_at(*p)),
    }
}

// ---- keys

/// The key is the one of the actor's direct write, and the client is the actor's.
fn is_direct(actor: &Actor, key: &Key, client: &Name) -> bool
    ensures { result ≡ true → (actor.now.participant.direct ≡ Some key.now) × (actor.now.participant.client ≡ client.now) }
{
    has_direct(&actor.participant, key) && actor.participant.client.as_ref() == Some(client)
}

/// The transaction is the actor's.
pub(super) fn has_transaction(actor: &Actor, name: &Name) -> bool
    ensures { result ≡ true → IsOwned actor.now name.now }
{
    actor.participant.transaction(name).is_some()
}

/// The key is held for the actor, and for no prepared transaction.
fn is_held_for(world: &World, history: &History, actor: &Actor, key: &Key) -> bool
    ensures { result ≡ true → IsHeldKey history.now.entries world.now actor.now key.now }
{
    match world.locks.holder(key) {
        Some(Holder::Txn(name)) => has_transaction(actor, name) && history.named(name).is_none(),
        Some(Holder::Client(client)) => is_direct(actor, key, client),
        None => false,
    }
}

fn are_held_for(world: &World, history: &History, actor: &Actor, changes: &[Change]) -> bool
    ensures { result ≡ true → Each (λ change. IsHeldKey history.now.entries world.now actor.now (key_of change)) changes.now }
{
    for change in changes {
        if !is_held_for(world, history, actor, change.key()) {
            return false;
        }
    }
    true
}

/// Each key that the batch changes is held for the actor.
fn has_keys(world: &World, history: &History, actor: &Actor, batch: &Batch) -> bool
    ensures { result ≡ true → (key : List ℕ) → is_changed batch.now key ≡ true → IsHeldKey history.now.entries world.now actor.now key }
{
    are_held_for(world, history, actor, batch.changes())
}

/// Each key of a Write is held for the actor.
fn has_written(world: &World, history: &History, actor: &Actor, entry: &Entry) -> bool
    ensures { result ≡ true → (key : List ℕ) → is_changed (written entry.now) key ≡ true → IsHeldKey history.now.entries world.now actor.now key }
{
    match entry {
        Entry::Write(batch) => has_keys(world, history, actor, batch),
        Entry::Prepare(_, _) | Entry::Commit(_) | Entry::Undo(_, _) | Entry::Close(_) => true,
    }
}

// ---- the transaction

fn are_locked(world: &World, transaction: &Transaction, name: &Name, changes: &[Change]) -> bool
    ensures { result ≡ true → Each (λ change. IsLocked world.now transaction.now name.now (key_of change)) changes.now }
{
    for change in changes {
        if !has_locked(transaction, change.key()) {
            return false;
        }
        if !needs::is_held_for(&world.locks, change.key(), name) {
            return false;
        }
    }
    true
}

/// The entry's transaction is the actor's, and the keys that the batch changes are held for it.
fn is_own(world: &World, actor: &Actor, name: &Name, batch: &Batch) -> bool
    ensures { result ≡ true → IsOwner world.now actor.now name.now batch.now }
{
    match actor.participant.transaction(name) {
        Some(transaction) => are_locked(world, transaction, name, batch.changes()),
        None => false,
    }
}

fn is_of_own(world: &World, actor: &Actor, of: Option<&Name>, batch: &Batch) -> bool
    ensures { result ≡ true → (name : List ℕ) → option_copied of.entry ≡ Some name → IsOwner world.now actor.now name batch.now }
{
    match of {
        Some(name) => is_own(world, actor, name, batch),
        None => true,
    }
}

/// The event is that the key was locked for the transaction.
fn is_lock(event: &Event, name: &Name, key: &Key) -> bool
    ensures { result ≡ true → event.now ≡ locked key.now (Txn name.now) }
{
    match &event.what {
        Found::Locked(other, Holder::Txn(txn)) => other == key && txn == name,
        _ => false,
    }
}

fn was_locked(past: &[Event], name: &Name, key: &Key) -> bool
    ensures { result ≡ true → IsIn (locked key.now (Txn name.now)) past.now }
{
    for event in past {
        if is_lock(event, name, key) {
            return true;
        }
    }
    false
}

fn were_locked(past: &[Event], name: &Name, keys: &[Key]) -> bool
    ensures { result ≡ true → Each (λ key. IsIn (locked key (Txn name.now)) past.now) keys.now }
{
    for key in keys {
        if !was_locked(past, name, key) {
            return false;
        }
    }
    true
}

/// Each key that the transaction locked is in the past as locked for this name.
fn locked_all(past: &[Event], name: &Name, transaction: &Transaction) -> bool
    ensures { result ≡ true → (key : List ℕ) → set.contains transaction.now.locked key ≡ true → IsIn (locked key (Txn name.now)) past.now }
{
    were_locked(past, name, &transaction.locked)
}

/// The actor locked each key of its transaction itself, where it has it.
fn locked_them(actor: &Actor, name: &Name) -> bool
    ensures { result ≡ true → LockedItsKeys actor.now name.now }
{
    match actor.participant.transaction(name) {
        Some(transaction) => locked_all(&actor.participant.past, name, transaction),
        None => true,
    }
}

/// Who prepares a transaction locked each of its keys itself.
fn came_to_keys(actor: &Actor, entry: &Entry) -> bool
    ensures { result ≡ true → (name : List ℕ) (batch : List Change) → entry.now ≡ Prepare name batch → LockedItsKeys actor.now name }
{
    match entry {
        Entry::Prepare(name, _) => locked_them(actor, name),
        Entry::Write(_) | Entry::Commit(_) | Entry::Undo(_, _) | Entry::Close(_) => true,
    }
}

/// The entry may come next, the keys of a Write are held for the actor, its transaction is the actor's, and who prepares one locked
/// its keys itself.
fn is_entitled(world: &World, actor: &Actor, entry: &Entry) -> Result<bool, AllocError>
    ensures { IfOk result (λ entitled. entitled ≡ true → IsEntitled world.now actor.now entry.now) }
{
    let Some(history) = history_of(world)? else {
        return Ok(false);
    };
    if !may_follow(&history, entry) {
        return Ok(false);
    }
    if !has_written(world, &history, actor, entry) || !came_to_keys(actor, entry) {
        return Ok(false);
    }
    let batch = changes_under(&history, entry);
    Ok(is_of_own(world, actor, transaction_of(&history, entry), batch))
}

// ---- what was made of it

/// The number of a Prepare is in the heap.
fn is_in_heap(world: &World, entry: &Entry, n: Seq) -> bool
    ensures { result ≡ true → IsPrepare entry.now → set.contains world.now.prepared.heap n ≡ true }
{
    match entry {
        Entry::Prepare(_, _) => world.prepared.is_in_heap(n),
        Entry::Write(_) | Entry::Commit(_) | Entry::Undo(_, _) | Entry::Close(_) => true,
    }
}

/// The pair fits no word, and is a delayed commit whose number the bound has reached.
fn is_wide(world: &World, p: Seq, c: Seq) -> bool
    ensures { result ≡ true → IsWide (length world.now.cache) world.now.prepared.delayed_commits world.now.max_evicted (commit_pair p c) }
{
    fits_no_word(&world.cache, p, c)
        && world.prepared.commit_of(p) == Some(c)
        && p <= world.max_evicted
}

fn is_pair_entered(world: &World, p: Seq, c: Seq) -> bool
    ensures { result ≡ true → IsEntered world.now.cache world.now.prepared.delayed_commits world.now.max_evicted (commit_pair p c) }
{
    if cached(&world.cache, p) == Some(c) {
        return true;
    }
    is_wide(world, p, c)
}

/// The pair of any other entry is in its word, or it is too wide for one and delayed.
fn is_entered(world: &World, entry: &Entry, n: Seq) -> bool
    ensures { result ≡ true → (pair : CommitPair) → pair_by n entry.now ≡ Some pair → IsEntered world.now.cache world.now.prepared.delayed_commits world.now.max_evicted pair }
{
    match entry {
        Entry::Prepare(_, _) => true,
        Entry::Write(_) | Entry::Undo(_, _) => is_pair_entered(world, n, n),
        Entry::Commit(p) | Entry::Close(p) => is_pair_entered(world, *p, n),
    }
}

fn is_made(world: &World, entry: &Entry) -> Result<bool, AllocError>
    ensures { IfOk result (λ made. made ≡ true → IsMade world.now entry.now) }
{
    let n = world.writes.next_number()?;
    Ok(
        has_versions_of(&world.store.memory, entry, n)
            && is_in_heap(world, entry, n)
            && is_entered(world, entry, n),
    )
}

pub(super) fn may_publish(world: &World, by: usize, actor: &Actor) -> Result<bool, AllocError>
    ensures { IfOk result (λ yes. yes ≡ true → IsOffered world.now by actor.now (published_step world.now.writes.pending)) }
{
    if !world.holders.holds(Turn::Write, by) || !world.writes.logged {
        return Ok(false);
    }
    let Some(entry) = world.writes.pending.first() else {
        return Ok(false);
    };
    if !is_entitled(world, actor, entry)? {
        return Ok(false);
    }
    let made = is_made(world, entry)?;
    Ok(made)
}
