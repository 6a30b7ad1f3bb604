//! The changes of an open transaction.
ghost use Rattle.std.specs.Prelude.{◌≡◌, ◌<◌, false, not, length, filter};
ghost use Rattle.std.specs.Str.{bytes_eq};
ghost use Rattle.wp_model.specs.declared.batch.TheConstants.{MOST_KEYS};
ghost use Rattle.wp_model.specs.Batch.{key_of};
ghost use Rattle.wp_model.specs.History.{is_changed};
ghost use Rattle.wp_shared.specs.Seats.{IsFree};
ghost use Rattle.wp_open_txns.specs.Calls.{Changes};
ghost use Rattle.wp_open_txns.specs.Keys.{ChangesBatch, ComesTo};
ghost use Rattle.wp_open_txns.specs.Txn.{HasOpen};

use crate::error::TxnError;
use crate::steps::set_batch;
use crate::txn::OpenTxn;
use crate::validating::take_key;
use std::alloc::Global;
use std::sync::Wait;
use wp_model::{Batch, Change, Key, SetError};
use wp_outside::Disk;
use wp_shared::{Seat, Shared};

/// The batch with the change, for which it has room.
fn with_change(alloc: Global, batch: &Batch, change: Change) -> Result<Batch, TxnError>
    requires { is_changed batch.now (key_of change) ≡ false → length batch.now < MOST_KEYS }
    ensures { ChangesBatch batch.now change result }
{
    let mut changed = batch.copy(alloc)?;
    match changed.set(change) {
        Ok(()) => Ok(changed),
        Err(SetError::Memory) => Err(TxnError::Memory),
        Err(SetError::TooMany) => unreachable!(),
    }
}

/// Locks the key for the transaction, unless it has it already.
fn come_to<D: Disk + Drop, R: Wait>(
    store: &Shared<D>,
    rt: &R,
    alloc: Global,
    seat: &mut Seat<D>,
    txn: &OpenTxn,
    key: &Key,
) -> Result<(), TxnError>
    requires free { IsFree store.now.table seat.old }
    requires open { HasOpen seat.old txn.now }
    ensures { ComesTo store.now seat.old txn.now key.now result seat.new }
{
    if txn.has_key(key) {
        return Ok(());
    }
    take_key(store, rt, alloc, seat, txn, key)
}

/// Takes the key out of those that are locked without a change.
fn let_go(locked: &mut Vec<Key>, key: &Key)
    ensures { locked.new.items ≡ filter (λ other. not (bytes_eq other key.now)) locked.old.items }
{
    locked.retain(|other| other != key);
}

/// Takes the change into the transaction's batch, in place of an earlier one to its key. A key of which the transaction has nothing is
/// locked for it, and has to be unchanged since the pin; one that it locked without a change moves to the batch.
pub fn stage<D: Disk + Drop, R: Wait>(
    store: &Shared<D>,
    rt: &R,
    alloc: Global,
    seat: &mut Seat<D>,
    txn: &mut OpenTxn,
    change: Change,
) -> Result<(), TxnError>
    requires free { IsFree store.now.table seat.old }
    requires open { HasOpen seat.old txn.old }
    ensures { Changes store.now seat.old txn.old change result seat.new txn.new }
{
    let key = change.key().copy(alloc)?;
    if txn.has_no_room(&key) {
        return Err(TxnError::TooMany);
    }
    let batch = with_change(alloc, &txn.batch, change)?;
    come_to(store, rt, alloc, seat, txn, &key)?;
    set_batch(store, seat, &txn.name, &batch);
    let_go(&mut txn.locked, &key);
    txn.batch = batch;
    Ok(())
}
