//! Keys that an open transaction locks, and finds unchanged since its pin.
ghost use Rattle.std.specs.Prelude.{◌≡◌, ◌≤◌, true, false, length, Some, None, Option, IfOk, OnErr};
ghost use Rattle.std.specs.FinMap as finite;
ghost use Rattle.std.specs.FinSet as set;
ghost use Rattle.wp_model.specs.Changed.{conflict};
ghost use Rattle.wp_core.specs.Lists.{IsIn};
ghost use Rattle.wp_core.specs.Reading.{Registration};
ghost use Rattle.wp_core.specs.Sound.Views.{OwnsKey};
ghost use Rattle.wp_core.specs.States.{writes};
ghost use Rattle.wp_core.specs.Views.{unprepared, unchanged};
ghost use Rattle.wp_core.specs.World.{Transaction};
ghost use Rattle.wp_read.specs.Fresh.{ReadsFresh};
ghost use Rattle.wp_shared.specs.Calls.{Continues};
ghost use Rattle.wp_shared.specs.Notes.{no_fact, GoesOn};
ghost use Rattle.wp_shared.specs.Seats.{IsFree, held_by, participant_of, seen_by};
ghost use Rattle.wp_shared.specs.Turns.{history_in};
ghost use Rattle.wp_open_txns.specs.Calls.{LocksForRead};
ghost use Rattle.wp_open_txns.specs.Keys.{FreesKey, HoldsKey, TakesKey, Validates};
ghost use Rattle.wp_open_txns.specs.Txn.{HasOpen, has_key};

use crate::error::TxnError;
use crate::locking::hold_for;
use crate::steps::{free_key, note_unchanged};
use crate::txn::OpenTxn;
use std::alloc::{AllocError, Global};
use std::sync::Wait;
use wp_locks::Locks;
use wp_model::{Holder, Key, Name, Seq, Value};
use wp_outside::Disk;
use wp_read::{Snapshot, get_now};
use wp_shared::{Log, Seat, Shared};

/// What `lock` finds of a key.
pub enum Locked {
    /// The transaction has a change of it.
    Own,
    /// Its value, or none, with the number that it was read at.
    Read(Option<Value>, Seq),
}

/// Locks a key of which the transaction of this name has nothing, or finds its holder.
fn hold_key<D: Disk + Drop, R: Wait>(
    store: &Shared<D>,
    rt: &R,
    alloc: Global,
    seat: &mut Seat<D>,
    name: &Name,
    key: &Key,
) -> Result<(), TxnError>
    requires free { IsFree store.now.table seat.old }
    requires has { (x : Transaction) × (finite.get seat.old.knows.participant.transactions name.now ≡ Some x) × (set.contains x.locked key.now ≡ false) }
    requires noted { IsIn (unprepared name.now) seat.old.knows.notes }
    ensures { HoldsKey store.now seat.old name.now key.now result seat.new }
{
    let holder = Holder::Txn(name.copy(alloc)?);
    let mut tables = store.take_turn::<Locks, R>(rt, seat);
    let outcome = hold_for(store, seat, &mut tables, name, key, holder);
    store.give_turn(seat, tables);
    outcome
}

/// The number of the last entry of the log's history above the pin that changed the key, which the transaction of this name has locked.
/// That there is none is noted.
fn changed_in<D: Disk + Drop>(
    store: &Shared<D>,
    seat: &mut Seat<D>,
    log: &mut Log<D>,
    name: &Name,
    key: &Key,
    pin: &Snapshot,
) -> Option<Seq>
    requires seat { (seat.old.table ≡ store.now.table) × (seat.old.knows.live ≡ true) }
    requires held { IsIn (writes log.old.state) (held_by seat.old) }
    requires has { OwnsKey (participant_of seat.old) name.now key.now }
    requires pin { (log.old.first.segment.base ≤ pin.now.number) × (pin.now.number ≤ length (history_in log.old)) }
    ensures same { log.new ≡ log.old }
    ensures last { result ≡ conflict (history_in log.old) key.now pin.now.number }
    ensures goes { GoesOn no_fact (held_by seat.old) seat.old.turns seat.old seat.new }
    ensures noted { result ≡ None → IsIn (unchanged name.now key.now pin.now.number) seat.new.knows.notes }
{
    let number = log.changed_after(key, pin.number());
    if number.is_some() {
        return number;
    }
    note_unchanged(store, seat, log, name, key, pin.number());
    None
}

/// Looks so at the history as it is now. Whether the log is closed does not matter.
fn changed_since<D: Disk + Drop, R: Wait>(
    store: &Shared<D>,
    rt: &R,
    seat: &mut Seat<D>,
    name: &Name,
    key: &Key,
    pin: &Snapshot,
) -> Option<Seq>
    requires free { IsFree store.now.table seat.old }
    requires has { OwnsKey (participant_of seat.old) name.now key.now }
    requires pin { IsIn pin.now seat.old.knows.participant.registered × (pin.now.number ≤ length (seen_by seat.old)) }
    ensures goes_on { Continues store.now seat.old seat.new (participant_of seat.old) }
    ensures last { result ≡ conflict (seen_by seat.new) key.now pin.now.number }
    ensures noted { result ≡ None → IsIn (unchanged name.now key.now pin.now.number) seat.new.knows.notes }
{
    store.shows_one_store();
    let mut log = store.take_log(rt, seat);
    let number = changed_in(store, seat, &mut log, name, key, pin);
    store.give_turn(seat, log);
    number
}

/// Looks whether the key, which was just locked for the transaction, was changed since its pin, if it has one.
fn validate<D: Disk + Drop, R: Wait>(
    store: &Shared<D>,
    rt: &R,
    seat: &mut Seat<D>,
    txn: &OpenTxn,
    key: &Key,
) -> Option<Seq>
    requires free { IsFree store.now.table seat.old }
    requires has { OwnsKey (participant_of seat.old) txn.now.name key.now }
    requires pin { (r : Registration) → txn.now.pin ≡ Some r → IsIn r seat.old.knows.participant.registered × (r.number ≤ length (seen_by seat.old)) }
    ensures { Validates store.now seat.old txn.now key.now result seat.new }
{
    let pin = txn.pin.as_ref()?;
    changed_since(store, rt, seat, &txn.name, key, pin)
}

/// Frees a key of the transaction of this name. It takes no memory.
fn give_back<D: Disk + Drop, R: Wait>(
    store: &Shared<D>,
    rt: &R,
    seat: &mut Seat<D>,
    name: &Name,
    key: &Key,
)
    requires free { IsFree store.now.table seat.old }
    requires has { OwnsKey (participant_of seat.old) name.now key.now }
    requires noted { IsIn (unprepared name.now) seat.old.knows.notes }
    ensures frees { FreesKey store.now seat.old seat.new name.now key.now }
    ensures saw { seen_by seat.new ≡ seen_by seat.old }
{
    let mut tables = store.take_turn::<Locks, R>(rt, seat);
    free_key(store, seat, &tables, name, key);
    tables.unlock(key);
    store.give_turn(seat, tables);
}

/// Locks a key of which the transaction has nothing, and looks behind the lock whether it was changed since the pin: then it is freed
/// again. All the memory that is wanting is so before the key is locked.
pub(crate) fn take_key<D: Disk + Drop, R: Wait>(
    store: &Shared<D>,
    rt: &R,
    alloc: Global,
    seat: &mut Seat<D>,
    txn: &OpenTxn,
    key: &Key,
) -> Result<(), TxnError>
    requires free { IsFree store.now.table seat.old }
    requires open { HasOpen seat.old txn.now }
    requires none { has_key txn.now.batch txn.now.locked key.now ≡ false }
    ensures { TakesKey store.now seat.old txn.now key.now result seat.new }
{
    hold_key(store, rt, alloc, seat, &txn.name, key)?;
    match validate(store, rt, seat, txn, key) {
        None => Ok(()),
        Some(number) => {
            give_back(store, rt, seat, &txn.name, key);
            Err(TxnError::Conflict(number))
        }
    }
}

/// Reads a key that the transaction of this name locked just now. Where that wants memory the key is free again.
fn read_taken<D: Disk + Drop, R: Wait>(
    store: &Shared<D>,
    rt: &R,
    seat: &mut Seat<D>,
    name: &Name,
    key: &Key,
) -> Result<(Option<Value>, Seq), AllocError>
    requires free { IsFree store.now.table seat.old }
    requires has { OwnsKey (participant_of seat.old) name.now key.now }
    requires noted { IsIn (unprepared name.now) seat.old.knows.notes }
    ensures read { IfOk result (λ read. ReadsFresh store.now seat.old seat.new key.now read.0 read.1) }
    ensures refused { OnErr result (FreesKey store.now seat.old seat.new name.now key.now) }
{
    match get_now(store, rt, seat, key) {
        Ok(read) => Ok(read),
        Err(why) => {
            give_back(store, rt, seat, name, key);
            Err(why)
        }
    }
}

/// Locks the key for the transaction, and reads it behind the lock, so that it keeps this value while the transaction has it. A key of
/// which the transaction has nothing has to be unchanged since the pin; one with a change is not read. Where the read wants memory the
/// key is free again, unless the transaction had it before.
pub fn lock<D: Disk + Drop, R: Wait>(
    store: &Shared<D>,
    rt: &R,
    alloc: Global,
    seat: &mut Seat<D>,
    txn: &mut OpenTxn,
    key: Key,
) -> Result<Locked, TxnError>
    requires free { IsFree store.now.table seat.old }
    requires open { HasOpen seat.old txn.old }
    ensures { LocksForRead store.now seat.old txn.old key result seat.new txn.new }
{
    if txn.has_change(&key) {
        return Ok(Locked::Own);
    }
    if txn.has_locked(&key) {
        let (value, at) = get_now(store, rt, seat, &key)?;
        return Ok(Locked::Read(value, at));
    }
    if txn.has_no_room(&key) {
        return Err(TxnError::TooMany);
    }
    txn.locked.reserve(1)?;
    take_key(store, rt, alloc, seat, txn, &key)?;
    let (value, at) = read_taken(store, rt, seat, &txn.name, &key)?;
    txn.locked.push_reserved(key);
    Ok(Locked::Read(value, at))
}
