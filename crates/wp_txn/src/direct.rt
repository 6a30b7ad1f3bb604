//! A direct write: one change, as an entry of its own.
ghost use Rattle.std.specs.Prelude.{◌≡◌, [], Some, None, IfErr};
ghost use Rattle.wp_core.specs.States.{locks};
ghost use Rattle.wp_model.specs.Batch.{key_of};
ghost use Rattle.wp_model.specs.declared.holder.Holder.TheVariants.{Client};
ghost use Rattle.wp_shared.specs.Seats.{IsFree, participant_of};
ghost use Rattle.wp_shared.specs.Turns.{HoldsTurn};
ghost use Rattle.wp_txn.specs.Recording.{HoldsDirect, EndsDirect};
ghost use Rattle.wp_open_txns.specs.Under.{LocksDirect};
ghost use Rattle.wp_txn.specs.Writes.{RefusesBeforeLog, WritesDirect, writing_direct};

use crate::recording::{Noting, record};
use crate::steps::{free_direct, lock_direct};
use std::alloc::Global;
use std::sync::Wait;
use wp_locks::Locks;
use wp_model::{Change, Holder, Key, Seq};
use wp_open_txns::{TxnError, lock_for};
use wp_outside::Disk;
use wp_records::Record;
use wp_shared::{Seat, Shared};

/// Locks the key for the direct write of the seat's client, or finds its holder.
fn lock<D: Disk + Drop>(
    store: &Shared<D>,
    seat: &mut Seat<D>,
    tables: &mut Locks,
    key: &Key,
    holder: Holder,
) -> Result<(), TxnError>
    requires seat { HoldsTurn store.now seat.old (locks tables.old) [] [] }
    requires none { seat.old.knows.participant.direct ≡ None }
    requires holder { holder ≡ Client seat.old.knows.participant.client }
    ensures answered { LocksDirect tables.old seat.old key.now result tables.new seat.new }
    ensures holds { HoldsTurn store.now seat.new (locks tables.new) [] [] }
{
    lock_for(store, seat, tables, key, holder)?;
    lock_direct(store, seat, key);
    Ok(())
}

/// Holds the key for the seat's direct write.
fn hold<D: Disk + Drop, R: Wait>(
    store: &Shared<D>,
    rt: &R,
    alloc: Global,
    seat: &mut Seat<D>,
    key: &Key,
) -> Result<(), TxnError>
    requires free { IsFree store.now.table seat.old }
    requires none { seat.old.knows.participant.direct ≡ None }
    ensures { HoldsDirect store.now seat.old key.now result seat.new }
{
    let holder = Holder::Client(seat.client().copy(alloc)?);
    let mut tables = store.take_turn::<Locks, R>(rt, seat);
    let outcome = lock(store, seat, &mut tables, key, holder);
    store.give_turn(seat, tables);
    outcome
}

/// Gives back the key of the seat's direct write, and that alone. It takes no memory.
fn give_back<D: Disk + Drop, R: Wait>(store: &Shared<D>, rt: &R, seat: &mut Seat<D>, key: &Key)
    requires free { IsFree store.now.table seat.old }
    requires has { seat.old.knows.participant.direct ≡ Some key.now }
    ensures { EndsDirect store.now seat.old seat.new key.now }
{
    let mut tables = store.take_turn::<Locks, R>(rt, seat);
    free_direct(store, seat, &tables, key);
    tables.unlock(key);
    store.give_turn(seat, tables);
}

/// Writes the change at once, as an entry of its own. The key is held for the seat's client during the call, against every other
/// call. The answer is the entry's number.
pub fn write<D: Disk + Drop, R: Wait>(
    store: &Shared<D>,
    rt: &R,
    alloc: Global,
    seat: &mut Seat<D>,
    change: Change,
) -> Result<Seq, TxnError>
    requires free { IsFree store.now.table seat.old }
    requires none { seat.old.knows.participant.direct ≡ None }
    ensures answers { WritesDirect store.now seat.old change result seat.new }
    ensures before_log { IfErr result (λ why. RefusesBeforeLog store.now (writing_direct (key_of change) (participant_of seat.old)) seat.old why seat.new) }
{
    let key = change.key().copy(alloc)?;
    let write = Record::write_one(alloc, change)?;
    hold(store, rt, alloc, seat, &key)?;
    let outcome = record(store, rt, seat, write, Noting::Nothing);
    give_back(store, rt, seat, &key);
    outcome
}
