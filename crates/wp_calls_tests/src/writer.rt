//! The client that writes: its calls on transactions.
ghost use Rattle.std.specs.Prelude.{◌≡◌, true, [], ◌∷◌, Some, None, IfOk, IfErr, IfSome};
ghost use Rattle.wp_core.specs.Sound.Snapshots.{has_versions_at};
ghost use Rattle.wp_calls_tests.specs.Ready.{IsWriter, HasBoth};

use crate::stores::name;
use std::alloc::{AllocFailed, Global};
use std::process::Abort;
use std::sync::Wait;
use wp_memory::MemDisk;
use wp_model::{Change, Key, Seq, Value};
use wp_shared::{Seat, Shared};
use wp_txn::{Locked, OpenTxn, PreparedTxn, Refused, TxnError};

/// What the client does. A number is the one that the call has to answer.
#[derive(Clone, Copy)]
pub(super) enum Writing {
    Begin(&'static [u8]),
    Put(&'static [u8], &'static [u8]),
    Pin(Seq),
    /// It locks a key of which it has no change, and reads this value.
    Lock(&'static [u8], Option<&'static [u8]>),
    /// It locks a key that was changed since its pin, last by the entry with this number.
    Conflict(&'static [u8], Seq),
    Prepare(Seq),
    Commit(Seq),
    /// It commits its prepared transaction behind the one that was left under this name, by one record.
    CommitBoth(&'static [u8], Seq),
    /// It would do so, but these numbers of the two have one place in the cache.
    Crowded(&'static [u8], Seq, Seq),
    Rollback(Seq),
    /// It leaves the prepared transaction.
    Leave,
    /// It takes the one that was left under the name `t`.
    Take,
    /// It puts a value under a key at once.
    Direct(&'static [u8], &'static [u8], Seq),
}

/// What the client has behind a step: an open transaction, a prepared one, and the number of the entry with versions that the step
/// made or took. And whether the step said what it has to, where memory was not wanting.
pub(super) type Written = (
    Option<OpenTxn>,
    Option<PreparedTxn>,
    Option<Seq>,
    Option<bool>,
);

pub(super) fn key<R: Abort>(rt: &R, alloc: Global, bytes: &[u8]) -> Key {
    let Ok(key) = Key::read(alloc, bytes) else {
        panic!(rt; "no memory for a key");
    };
    key
}

pub(super) fn value<R: Abort>(rt: &R, alloc: Global, bytes: &[u8]) -> Value {
    let Ok(value) = Value::read(alloc, bytes) else {
        panic!(rt; "no memory for a value");
    };
    value
}

pub(super) fn is_value(found: &Option<Value>, value: Option<&[u8]>) -> bool {
    match (found, value) {
        (Some(found), Some(value)) => found.bytes() == value,
        (None, None) => true,
        _ => false,
    }
}

/// No answer for want of memory, and else a wrong one.
pub(super) fn refused(why: TxnError) -> Option<bool> {
    match why {
        TxnError::Memory => None,
        _ => Some(false),
    }
}

/// Pins what is published.
fn pin<R: Wait>(
    store: &Shared<MemDisk>,
    rt: &R,
    seat: &mut Seat<MemDisk>,
    txn: &mut OpenTxn,
    at: Seq,
) -> Option<bool>
    requires { IsWriter store.now seat.old (Some txn.old) None }
    ensures { IsWriter store.now seat.new (Some txn.new) None }
{
    match wp_txn::pin(store, rt, seat, txn) {
        Ok(n) => Some(n == at),
        Err(why) => refused(why),
    }
}

/// Locks the key for the transaction.
fn lock<R: Abort + Wait>(
    store: &Shared<MemDisk>,
    rt: &R,
    alloc: Global,
    seat: &mut Seat<MemDisk>,
    txn: &mut OpenTxn,
    bytes: &[u8],
) -> Result<Locked, TxnError>
    requires { IsWriter store.now seat.old (Some txn.old) None }
    ensures { IsWriter store.now seat.new (Some txn.new) None }
{
    wp_txn::lock(store, rt, alloc, seat, txn, key(rt, alloc, bytes))
}

/// Takes the transaction that was left prepared.
fn take<R: Abort + Wait>(
    store: &Shared<MemDisk>,
    rt: &R,
    alloc: Global,
    seat: &mut Seat<MemDisk>,
) -> Written
    requires { IsWriter store.now seat.old None None }
    ensures ready { IsWriter store.now seat.new result.0 result.1 }
    ensures version { IfSome result.2 (λ p. has_versions_at seat.new.knows.participant.seen p ≡ true) }
{
    match wp_txn::take_prepared(store, rt, alloc, seat, &name(rt, alloc, b"t")) {
        Ok(txn) => {
            let n = txn.number();
            (None, Some(txn), Some(n), Some(true))
        }
        Err(why) => (None, None, None, refused(why)),
    }
}

/// Leaves the first of two prepared transactions, and keeps the second.
fn leave_first<R: Wait>(
    store: &Shared<MemDisk>,
    rt: &R,
    seat: &mut Seat<MemDisk>,
    mut both: Vec<PreparedTxn>,
) -> PreparedTxn
    requires seat { IsWriter store.now seat.old None None }
    requires both { HasBoth seat.old both.items }
    ensures { IsWriter store.now seat.new None (Some result) }
{
    let kept = both.remove(1);
    let left = both.remove(0);
    both.destroy_empty();
    wp_txn::leave(store, rt, seat, left);
    kept
}

/// The two in a list, or as they were where memory is wanting.
fn listed(
    alloc: Global,
    first: PreparedTxn,
    second: PreparedTxn,
) -> Result<Vec<PreparedTxn>, (PreparedTxn, PreparedTxn)>
    ensures both { IfOk result (λ both. both.items ≡ first ∷ second ∷ []) }
    ensures refused { IfErr result (λ two. two ≡ (first, second)) }
{
    match Vec::from_array(alloc, [first, second]) {
        Ok(both) => Ok(both),
        Err(failed) => {
            let AllocFailed { value } = failed;
            let [first, second] = value;
            Err((first, second))
        }
    }
}

/// Commits the prepared transaction behind the one that was left under this name. Behind a refusal that one is left again.
fn commit_both<R: Abort + Wait>(
    store: &Shared<MemDisk>,
    rt: &R,
    alloc: Global,
    seat: &mut Seat<MemDisk>,
    txn: PreparedTxn,
    other: &[u8],
) -> (Option<PreparedTxn>, Result<Seq, TxnError>)
    requires { IsWriter store.now seat.old None (Some txn) }
    ensures { IsWriter store.now seat.new None result.0 }
{
    let left = match wp_txn::take_prepared(store, rt, alloc, seat, &name(rt, alloc, other)) {
        Ok(left) => left,
        Err(why) => return (Some(txn), Err(why)),
    };
    let both = match listed(alloc, left, txn) {
        Ok(both) => both,
        Err((left, txn)) => {
            wp_txn::leave(store, rt, seat, left);
            return (Some(txn), Err(TxnError::Memory));
        }
    };
    match wp_txn::commit_all(store, rt, alloc, seat, both) {
        Ok(n) => (None, Ok(n)),
        Err(Refused { txn: both, why }) => {
            let kept = leave_first(store, rt, seat, both);
            (Some(kept), Err(why))
        }
    }
}

/// Takes the step.
pub(super) fn write<R: Abort + Wait>(
    store: &Shared<MemDisk>,
    rt: &R,
    alloc: Global,
    seat: &mut Seat<MemDisk>,
    begun: Option<OpenTxn>,
    prepared: Option<PreparedTxn>,
    step: Writing,
) -> Written
    requires { IsWriter store.now seat.old begun prepared }
    ensures ready { IsWriter store.now seat.new result.0 result.1 }
    ensures version { IfSome result.2 (λ p. has_versions_at seat.new.knows.participant.seen p ≡ true) }
{
    match (step, begun, prepared) {
        (Writing::Begin(bytes), None, None) => {
            match wp_txn::begin(store, rt, alloc, seat, name(rt, alloc, bytes)) {
                Ok(txn) => (Some(txn), None, None, Some(true)),
                Err(why) => (None, None, None, refused(why)),
            }
        }
        (Writing::Put(k, v), Some(mut txn), None) => {
            let change = Change::Put(key(rt, alloc, k), value(rt, alloc, v));
            let outcome = match wp_txn::stage(store, rt, alloc, seat, &mut txn, change) {
                Ok(()) => Some(true),
                Err(why) => refused(why),
            };
            (Some(txn), None, None, outcome)
        }
        (Writing::Pin(at), Some(mut txn), None) => {
            let outcome = pin(store, rt, seat, &mut txn, at);
            (Some(txn), None, None, outcome)
        }
        (Writing::Lock(k, v), Some(mut txn), None) => {
            let outcome = match lock(store, rt, alloc, seat, &mut txn, k) {
                Ok(Locked::Read(found, _at)) => Some(is_value(&found, v)),
                Ok(Locked::Own) => Some(false),
                Err(why) => refused(why),
            };
            (Some(txn), None, None, outcome)
        }
        (Writing::Conflict(k, at), Some(mut txn), None) => {
            let outcome = match lock(store, rt, alloc, seat, &mut txn, k) {
                Err(TxnError::Conflict(n)) => Some(n == at),
                Err(why) => refused(why),
                Ok(Locked::Own) => Some(false),
                Ok(Locked::Read(_found, _at)) => Some(false),
            };
            (Some(txn), None, None, outcome)
        }
        (Writing::Prepare(at), Some(txn), None) => {
            match wp_txn::prepare(store, rt, alloc, seat, txn) {
                Ok((txn, n)) => (None, Some(txn), Some(n), Some(n == at)),
                Err(Refused { txn, why }) => (Some(txn), None, None, refused(why)),
            }
        }
        (Writing::Commit(at), None, Some(txn)) => {
            match wp_txn::commit(store, rt, alloc, seat, txn) {
                Ok(n) => (None, None, None, Some(n == at)),
                Err(Refused { txn, why }) => (None, Some(txn), None, refused(why)),
            }
        }
        (Writing::CommitBoth(other, at), None, Some(txn)) => {
            let (kept, made) = commit_both(store, rt, alloc, seat, txn, other);
            let outcome = match made {
                Ok(n) => Some(n == at),
                Err(why) => refused(why),
            };
            (None, kept, None, outcome)
        }
        (Writing::Crowded(other, p, q), None, Some(txn)) => {
            let (kept, made) = commit_both(store, rt, alloc, seat, txn, other);
            let outcome = match made {
                Ok(_n) => Some(false),
                Err(TxnError::Crowded { first, second }) => Some(first == p && second == q),
                Err(why) => refused(why),
            };
            (None, kept, None, outcome)
        }
        (Writing::Rollback(at), None, Some(txn)) => {
            match wp_txn::rollback(store, rt, alloc, seat, txn) {
                Ok(n) => (None, None, None, Some(n == at)),
                Err(Refused { txn, why }) => (None, Some(txn), None, refused(why)),
            }
        }
        (Writing::Leave, None, Some(txn)) => {
            wp_txn::leave(store, rt, seat, txn);
            (None, None, None, Some(true))
        }
        (Writing::Take, None, None) => take(store, rt, alloc, seat),
        (Writing::Direct(k, v, at), None, prepared) => {
            let change = Change::Put(key(rt, alloc, k), value(rt, alloc, v));
            match wp_txn::write(store, rt, alloc, seat, change) {
                Ok(n) => (None, prepared, Some(n), Some(n == at)),
                Err(why) => (None, prepared, None, refused(why)),
            }
        }
        (_step, _begun, _prepared) => panic!(rt; "the writer can't take this step"),
    }
}
