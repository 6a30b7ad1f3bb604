//! Prepared transactions that change hands.
ghost use Rattle.std.specs.Prelude.{◌≡◌, ℕ, List, Some, None, IfOk, IfSome};
ghost use Rattle.std.specs.FinMap as finite;
ghost use Rattle.wp_locks.specs.Locks.{AreBeyond};
ghost use Rattle.wp_core.specs.Lists.{IsIn};
ghost use Rattle.wp_core.specs.States.{Content, locks};
ghost use Rattle.wp_core.specs.Views.{locks_stay};
ghost use Rattle.wp_shared.specs.Seats.{IsFree, participant_of};
ghost use Rattle.wp_shared.specs.Turns.{HoldsTurn};
ghost use Rattle.wp_open_txns.specs.Calls.{GivesUp, LocksAre, TakesPrepared, without_transaction};
ghost use Rattle.wp_open_txns.specs.Txn.{HasPrepared, keys_in};
ghost use Rattle.wp_open_txns.specs.Under.{IsPrepareOf, TakesUnder};

use crate::error::TxnError;
use crate::steps::{find_name, leave_name, note_locks, take_name};
use crate::txn::PreparedTxn;
use std::alloc::{AllocError, Global};
use std::sync::Wait;
use wp_history::History;
use wp_locks::{LockError, Locks, TakeRefused};
use wp_model::{Batch, Key, Name, Seq};
use wp_outside::Disk;
use wp_shared::{Log, Seat, Shared};

/// Leaves a prepared transaction to whoever takes it: its name stays live, and its keys stay held, which the seat notes. It takes no
/// memory.
pub fn leave<D: Disk + Drop, R: Wait>(
    store: &Shared<D>,
    rt: &R,
    seat: &mut Seat<D>,
    txn: PreparedTxn,
)
    requires free { IsFree store.now.table seat.old }
    requires prepared { HasPrepared seat.old txn }
    ensures gives_up { GivesUp store.now seat.old seat.new txn.name }
    ensures same { participant_of seat.new ≡ without_transaction txn.name (participant_of seat.old) }
    ensures left { LocksAre store.now seat.new (λ t. finite.get t.names txn.name ≡ Some None) }
    ensures noted { IsIn (locks_stay txn.name txn.number (keys_in txn.batch txn.locked)) seat.new.knows.notes }
{
    note_locks(store, seat, &txn);
    let mut tables = store.take_turn::<Locks, R>(rt, seat);
    leave_name(store, seat, &tables, &txn);
    let PreparedTxn {
        name,
        number: _number,
        batch: _batch,
        locked: _locked,
    } = txn;
    tables.leave_name(&name);
    store.give_turn(seat, tables);
}

/// The number and the batch of the undecided prepare of that name, if there is one.
fn prepare_of(
    history: &History,
    alloc: Global,
    name: &Name,
) -> Result<Option<(Seq, Batch)>, AllocError>
    ensures { IfOk result (IsPrepareOf history.now.entries name.now) }
{
    let Some(number) = history.named(name) else {
        return Ok(None);
    };
    Ok(Some((number, history.batch_at(number).copy(alloc)?)))
}

/// The keys that are held for the transaction beyond those of its prepare. Without a prepare there are none to be taken.
fn keys_beyond(
    tables: &Locks,
    alloc: Global,
    name: &Name,
    prepare: Option<&(Seq, Batch)>,
) -> Result<Vec<Key>, AllocError>
    ensures { IfOk result (λ keys. IfSome prepare.entry (λ p. AreBeyond tables.now name.now p.now.1 keys.items)) }
{
    match prepare {
        Some((_, batch)) => tables.keys_of(name, batch),
        None => Ok(Vec::new(alloc)),
    }
}

/// Takes the name for the seat's client, or finds that it is not live, or a client's.
fn take_under<D: Disk + Drop>(
    store: &Shared<D>,
    seat: &mut Seat<D>,
    tables: &mut Locks,
    name: &Name,
    asked: Name,
    client: Name,
) -> Result<(), TxnError>
    requires seat { (others : List Content) × (beneath : List ℕ) × HoldsTurn store.now seat.old (locks tables.old) others beneath }
    requires names { (asked ≡ name.now) × (client ≡ seat.old.knows.participant.client) }
    ensures answered { TakesUnder tables.old seat.old name.now result tables.new seat.new }
    ensures holds { (others : List Content) (beneath : List ℕ) → HoldsTurn store.now seat.old (locks tables.old) others beneath
        → HoldsTurn store.now seat.new (locks tables.new) others beneath }
{
    let Err(refused) = tables.take_name(asked, client) else {
        take_name(store, seat, name);
        return Ok(());
    };
    let TakeRefused { why, .. } = refused;
    match why {
        LockError::Unknown(asked) => {
            let at = store.published(seat);
            Err(TxnError::Unknown { name: asked, at })
        }
        LockError::InUse(asked) => {
            find_name(store, seat, tables, name);
            Err(TxnError::InUse(asked))
        }
        LockError::Memory | LockError::Taken(_) | LockError::Busy(_) => unreachable!(),
    }
}

/// Takes the undecided prepare of this name, which no client has. Its number and its batch are as the log has them, so the write
/// turn is taken too.
pub fn take_prepared<D: Disk + Drop, R: Wait>(
    store: &Shared<D>,
    rt: &R,
    alloc: Global,
    seat: &mut Seat<D>,
    name: &Name,
) -> Result<PreparedTxn, TxnError>
    requires { IsFree store.now.table seat.old }
    ensures { TakesPrepared store.now seat.old name.now result seat.new }
{
    let taken = name.copy(alloc)?;
    let asked = name.copy(alloc)?;
    let client = seat.client().copy(alloc)?;
    let log = store.take_turn::<Log<D>, R>(rt, seat);
    let Ok(prepare) = prepare_of(log.history(), alloc, name) else {
        store.give_turn(seat, log);
        return Err(TxnError::Memory);
    };
    let mut tables = store.take_turn::<Locks, R>(rt, seat);
    let Ok(locked) = keys_beyond(&tables, alloc, name, prepare.as_ref()) else {
        store.give_turn(seat, tables);
        store.give_turn(seat, log);
        return Err(TxnError::Memory);
    };
    let outcome = take_under(store, seat, &mut tables, name, asked, client);
    store.give_turn(seat, tables);
    store.give_turn(seat, log);
    outcome?;
    let Some((number, batch)) = prepare else {
        unreachable!();
    };
    Ok(PreparedTxn {
        name: taken,
        number,
        batch,
        locked,
    })
}
