//! What locks and frees have in common, of transactions and of direct writes.
ghost use Rattle.std.specs.Prelude.{◌≡◌, [], true, false, is_some, OnErr};
ghost use Rattle.std.specs.FinSet as set;
ghost use Rattle.std.specs.FinMap as finite;
ghost use Rattle.wp_model.specs.declared.holder.Holder.TheVariants.{Txn};
ghost use Rattle.wp_core.specs.Lists.{IsIn};
ghost use Rattle.wp_core.specs.States.{locks};
ghost use Rattle.wp_core.specs.Views.{unprepared};
ghost use Rattle.wp_shared.specs.Seats.{IsFree, participant_of};
ghost use Rattle.wp_shared.specs.Turns.{HoldsTurn};
ghost use Rattle.wp_open_txns.specs.Actors.{transaction_in};
ghost use Rattle.wp_open_txns.specs.Calls.{Frees};
ghost use Rattle.wp_open_txns.specs.Txn.{HasLocked};
ghost use Rattle.wp_open_txns.specs.Under.{LocksFor, LocksKey};

use crate::error::TxnError;
use crate::steps::{find_holder, free_transaction, lock_key};
use std::sync::Wait;
use wp_locks::{LockError, Locks};
use wp_model::{Batch, Holder, Key, Name};
use wp_outside::Disk;
use wp_shared::{Seat, Shared};

/// Gives the key to the holder in the locks, or finds who holds it.
pub fn lock_for<D: Disk + Drop>(
    store: &Shared<D>,
    seat: &mut Seat<D>,
    tables: &mut Locks,
    key: &Key,
    holder: Holder,
) -> Result<(), TxnError>
    requires { HoldsTurn store.now seat.old (locks tables.old) [] [] }
    ensures answered { LocksFor tables.old seat.old key.now holder result tables.new seat.new }
    ensures holds { OnErr result (HoldsTurn store.now seat.new (locks tables.new) [] []) }
{
    match tables.lock(key, holder) {
        Ok(()) => Ok(()),
        Err(LockError::Busy(other)) => {
            find_holder(store, seat, tables, key, &other);
            Err(TxnError::Busy(other))
        }
        Err(LockError::Memory) => Err(TxnError::Memory),
        Err(LockError::Taken(_) | LockError::Unknown(_) | LockError::InUse(_)) => unreachable!(),
    }
}

/// Locks the key for the transaction of this name, or finds its holder.
pub(crate) fn hold_for<D: Disk + Drop>(
    store: &Shared<D>,
    seat: &mut Seat<D>,
    tables: &mut Locks,
    name: &Name,
    key: &Key,
    holder: Holder,
) -> Result<(), TxnError>
    requires seat { HoldsTurn store.now seat.old (locks tables.old) [] [] }
    requires holder { holder ≡ Txn name.now }
    requires has { is_some (finite.get seat.old.knows.participant.transactions name.now) ≡ true }
    requires unlocked { set.contains (transaction_in (participant_of seat.old) name.now).locked key.now ≡ false }
    requires noted { IsIn (unprepared name.now) seat.old.knows.notes }
    ensures answered { LocksKey tables.old seat.old name.now key.now result tables.new seat.new }
    ensures holds { HoldsTurn store.now seat.new (locks tables.new) [] [] }
{
    lock_for(store, seat, tables, key, holder)?;
    lock_key(store, seat, name, key);
    Ok(())
}

/// Frees the name of a transaction that is no undecided prepare, and its keys: those that its batch changes, and those that it locked
/// without a change. It takes no memory.
pub fn free<D: Disk + Drop, R: Wait>(
    store: &Shared<D>,
    rt: &R,
    seat: &mut Seat<D>,
    name: Name,
    batch: Batch,
    locked: Vec<Key>,
)
    requires free { IsFree store.now.table seat.old }
    requires has { HasLocked seat.old name batch locked.items }
    requires noted { IsIn (unprepared name) seat.old.knows.notes }
    ensures { Frees store.now seat.old seat.new name }
{
    let mut tables = store.take_turn::<Locks, R>(rt, seat);
    free_transaction(store, seat, &tables, &name);
    tables.free_name(&name);
    tables.unlock_all(batch.changes());
    tables.unlock_keys(&locked);
    store.give_turn(seat, tables);
}
