//! The open transaction is pinned, and keys are locked for it and read.
ghost use Rattle.std.specs.Prelude.{◌≡◌, None, IfOk, OnErr};
ghost use Rattle.wp_model.specs.Batch.{change_to};
ghost use Rattle.wp_text.specs.declared.script.Command.TheVariants.{Pin, Lock};
ghost use Rattle.wp_client.specs.declared.holdings.HeldTxn.TheVariants as held;
ghost use Rattle.wp_client.specs.Answers.{AnswersFrom, BreaksOffFrom};
ghost use Rattle.wp_client.specs.Fresh.{NamesSeen};
ghost use Rattle.wp_client.specs.Holdings.{HoldsTxn, HoldsFrom};

use crate::holdings::HeldTxn;
use crate::reads::{read_reply, said_in};
use crate::refusals::refusal;
use std::alloc::{AllocError, Global};
use std::sync::Wait;
use wp_model::Key;
use wp_open_txns::{Locked, OpenTxn};
use wp_outside::Disk;
use wp_shared::{Seat, Shared};
use wp_text::Reply;

fn pin_open<D: Disk + Drop, R: Wait>(
    store: &Shared<D>,
    rt: &R,
    seat: &mut Seat<D>,
    txn: &mut OpenTxn,
) -> Result<Reply, AllocError>
    requires { HoldsTxn store.now seat.old (held.Open txn.old) }
    ensures holds { HoldsFrom store.now seat.old seat.new (held.Open txn.old) (held.Open txn.new) }
    ensures answered { IfOk result (AnswersFrom store.now seat.old seat.new (held.Open txn.old) (held.Open txn.new) Pin) }
    ensures published { IfOk result (NamesSeen store.now seat.old seat.new Pin) }
    ensures err { OnErr result (BreaksOffFrom seat.old seat.new (held.Open txn.old) (held.Open txn.new) Pin) }
{
    match wp_open_txns::pin(store, rt, seat, txn) {
        Ok(number) => Ok(Reply::Pinned(number)),
        Err(why) => refusal(why),
    }
}

/// Pins the open transaction, in place of an earlier pin of it.
pub fn pin<D: Disk + Drop, R: Wait>(
    store: &Shared<D>,
    rt: &R,
    seat: &mut Seat<D>,
    txn: &mut HeldTxn,
) -> Result<Reply, AllocError>
    requires { HoldsTxn store.now seat.old txn.old }
    ensures holds { HoldsFrom store.now seat.old seat.new txn.old txn.new }
    ensures answered { IfOk result (AnswersFrom store.now seat.old seat.new txn.old txn.new Pin) }
    ensures published { IfOk result (NamesSeen store.now seat.old seat.new Pin) }
    ensures err { OnErr result (BreaksOffFrom seat.old seat.new txn.old txn.new Pin) }
{
    match txn {
        HeldTxn::Open(open) => pin_open(store, rt, seat, open),
        HeldTxn::Idle => Ok(Reply::State),
        HeldTxn::Prepared(_) => Ok(Reply::State),
    }
}

/// Locks a key of which the transaction has no change, and reads it.
fn lock_unchanged<D: Disk + Drop, R: Wait>(
    store: &Shared<D>,
    rt: &R,
    alloc: Global,
    seat: &mut Seat<D>,
    txn: &mut OpenTxn,
    key: &Key,
) -> Result<Reply, AllocError>
    requires has { HoldsTxn store.now seat.old (held.Open txn.old) }
    requires unchanged { change_to txn.old.batch key.now ≡ None }
    ensures holds { HoldsFrom store.now seat.old seat.new (held.Open txn.old) (held.Open txn.new) }
    ensures answered { IfOk result (AnswersFrom store.now seat.old seat.new (held.Open txn.old) (held.Open txn.new) (Lock key.now)) }
    ensures published { IfOk result (NamesSeen store.now seat.old seat.new (Lock key.now)) }
    ensures err { OnErr result (BreaksOffFrom seat.old seat.new (held.Open txn.old) (held.Open txn.new) (Lock key.now)) }
{
    let asked = key.copy(alloc)?;
    match wp_open_txns::lock(store, rt, alloc, seat, txn, asked) {
        Ok(Locked::Read(value, at)) => Ok(read_reply(value, at)),
        // It has no change.
        Ok(Locked::Own) => unreachable!(),
        Err(why) => refusal(why),
    }
}

fn lock_open<D: Disk + Drop, R: Wait>(
    store: &Shared<D>,
    rt: &R,
    alloc: Global,
    seat: &mut Seat<D>,
    txn: &mut OpenTxn,
    key: &Key,
) -> Result<Reply, AllocError>
    requires { HoldsTxn store.now seat.old (held.Open txn.old) }
    ensures holds { HoldsFrom store.now seat.old seat.new (held.Open txn.old) (held.Open txn.new) }
    ensures answered { IfOk result (AnswersFrom store.now seat.old seat.new (held.Open txn.old) (held.Open txn.new) (Lock key.now)) }
    ensures published { IfOk result (NamesSeen store.now seat.old seat.new (Lock key.now)) }
    ensures err { OnErr result (BreaksOffFrom seat.old seat.new (held.Open txn.old) (held.Open txn.new) (Lock key.now)) }
{
    if let Some(said) = said_in(alloc, txn.batch(), key)? {
        return Ok(said);
    }
    lock_unchanged(store, rt, alloc, seat, txn, key)
}

/// Locks the key for the open transaction, and reads it behind the lock. Where the transaction changes the key, that is answered, and
/// nothing is locked.
pub fn lock<D: Disk + Drop, R: Wait>(
    store: &Shared<D>,
    rt: &R,
    alloc: Global,
    seat: &mut Seat<D>,
    txn: &mut HeldTxn,
    key: &Key,
) -> Result<Reply, AllocError>
    requires { HoldsTxn store.now seat.old txn.old }
    ensures holds { HoldsFrom store.now seat.old seat.new txn.old txn.new }
    ensures answered { IfOk result (AnswersFrom store.now seat.old seat.new txn.old txn.new (Lock key.now)) }
    ensures published { IfOk result (NamesSeen store.now seat.old seat.new (Lock key.now)) }
    ensures err { OnErr result (BreaksOffFrom seat.old seat.new txn.old txn.new (Lock key.now)) }
{
    match txn {
        HeldTxn::Open(open) => lock_open(store, rt, alloc, seat, open, key),
        HeldTxn::Idle => Ok(Reply::State),
        HeldTxn::Prepared(_) => Ok(Reply::State),
    }
}
