//! A transaction is begun under a name, and a prepared one is taken by its name. The client has to have none.
ghost use Rattle.std.specs.Prelude.{IfOk, OnErr};
ghost use Rattle.wp_text.specs.declared.script.Command.TheVariants.{Begin, Take};
ghost use Rattle.wp_client.specs.declared.holdings.HeldTxn.TheVariants as held;
ghost use Rattle.wp_client.specs.Answers.{AnswersFrom, BreaksOffFrom};
ghost use Rattle.wp_client.specs.Holdings.{HoldsTxn, HoldsFrom};

use crate::holdings::HeldTxn;
use crate::refusals::refusal;
use std::alloc::{AllocError, Global};
use std::sync::Wait;
use wp_model::Name;
use wp_outside::Disk;
use wp_shared::{Seat, Shared};
use wp_text::Reply;

/// Begins a transaction under the name, where none is begun.
fn begin_now<D: Disk + Drop, R: Wait>(
    store: &Shared<D>,
    rt: &R,
    alloc: Global,
    seat: &mut Seat<D>,
    name: &Name,
) -> (HeldTxn, Result<Reply, AllocError>)
    requires { HoldsTxn store.now seat.old held.Idle }
    ensures holds { HoldsFrom store.now seat.old seat.new held.Idle result.0 }
    ensures answered { IfOk result.1 (AnswersFrom store.now seat.old seat.new held.Idle result.0 (Begin name.now)) }
    ensures err { OnErr result.1 (BreaksOffFrom seat.old seat.new held.Idle result.0 (Begin name.now)) }
{
    let Ok(asked) = name.copy(alloc) else {
        return (HeldTxn::Idle, Err(AllocError));
    };
    match wp_open_txns::begin(store, rt, alloc, seat, asked) {
        Ok(open) => (HeldTxn::Open(open), Ok(Reply::Begun)),
        Err(why) => (HeldTxn::Idle, refusal(why)),
    }
}

/// Takes the prepared transaction of the name, where none is begun.
fn take_now<D: Disk + Drop, R: Wait>(
    store: &Shared<D>,
    rt: &R,
    alloc: Global,
    seat: &mut Seat<D>,
    name: &Name,
) -> (HeldTxn, Result<Reply, AllocError>)
    requires { HoldsTxn store.now seat.old held.Idle }
    ensures holds { HoldsFrom store.now seat.old seat.new held.Idle result.0 }
    ensures answered { IfOk result.1 (AnswersFrom store.now seat.old seat.new held.Idle result.0 (Take name.now)) }
    ensures err { OnErr result.1 (BreaksOffFrom seat.old seat.new held.Idle result.0 (Take name.now)) }
{
    match wp_open_txns::take_prepared(store, rt, alloc, seat, name) {
        Ok(prepared) => (HeldTxn::Prepared(prepared), Ok(Reply::Took)),
        Err(why) => (HeldTxn::Idle, refusal(why)),
    }
}

/// Begins a transaction under the name.
pub fn begin<D: Disk + Drop, R: Wait>(
    store: &Shared<D>,
    rt: &R,
    alloc: Global,
    seat: &mut Seat<D>,
    txn: HeldTxn,
    name: &Name,
) -> (HeldTxn, Result<Reply, AllocError>)
    requires { HoldsTxn store.now seat.old txn }
    ensures holds { HoldsFrom store.now seat.old seat.new txn result.0 }
    ensures answered { IfOk result.1 (AnswersFrom store.now seat.old seat.new txn result.0 (Begin name.now)) }
    ensures err { OnErr result.1 (BreaksOffFrom seat.old seat.new txn result.0 (Begin name.now)) }
{
    match txn {
        HeldTxn::Idle => begin_now(store, rt, alloc, seat, name),
        HeldTxn::Open(open) => (HeldTxn::Open(open), Ok(Reply::State)),
        HeldTxn::Prepared(prepared) => (HeldTxn::Prepared(prepared), Ok(Reply::State)),
    }
}

/// Takes the prepared transaction of the name.
pub fn take<D: Disk + Drop, R: Wait>(
    store: &Shared<D>,
    rt: &R,
    alloc: Global,
    seat: &mut Seat<D>,
    txn: HeldTxn,
    name: &Name,
) -> (HeldTxn, Result<Reply, AllocError>)
    requires { HoldsTxn store.now seat.old txn }
    ensures holds { HoldsFrom store.now seat.old seat.new txn result.0 }
    ensures answered { IfOk result.1 (AnswersFrom store.now seat.old seat.new txn result.0 (Take name.now)) }
    ensures err { OnErr result.1 (BreaksOffFrom seat.old seat.new txn result.0 (Take name.now)) }
{
    match txn {
        HeldTxn::Idle => take_now(store, rt, alloc, seat, name),
        HeldTxn::Open(open) => (HeldTxn::Open(open), Ok(Reply::State)),
        HeldTxn::Prepared(prepared) => (HeldTxn::Prepared(prepared), Ok(Reply::State)),
    }
}
