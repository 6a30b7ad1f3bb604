//! A transaction is prepared, committed, rolled back or left.
ghost use Rattle.std.specs.Prelude.{IfOk, OnErr};
ghost use Rattle.wp_text.specs.declared.script.Command.TheVariants.{Prepare, Commit, Rollback, Leave};
ghost use Rattle.wp_client.specs.declared.holdings.HeldTxn.TheVariants as held;
ghost use Rattle.wp_client.specs.Answers.{AnswersFrom, BreaksOffFrom};
ghost use Rattle.wp_client.specs.Holdings.{HoldsTxn, HoldsFrom};
ghost use Rattle.wp_answers.specs.Uncalled.{LeavesDevices};

use std::alloc::{AllocError, Global};
use std::sync::Wait;
use wp_client::{HeldTxn, refusal};
use wp_outside::Disk;
use wp_shared::{Seat, Shared};
use wp_text::Reply;
use wp_txn::{OpenTxn, PreparedTxn, Refused};

/// Prepares the open transaction.
fn prepare_open<D: Disk + Drop, R: Wait>(
    store: &Shared<D>,
    rt: &R,
    alloc: Global,
    seat: &mut Seat<D>,
    txn: OpenTxn,
) -> (HeldTxn, Result<Reply, AllocError>)
    requires { HoldsTxn store.now seat.old (held.Open txn) }
    ensures holds { HoldsFrom store.now seat.old seat.new (held.Open txn) result.0 }
    ensures answered { IfOk result.1 (AnswersFrom store.now seat.old seat.new (held.Open txn) result.0 Prepare) }
    ensures err { OnErr result.1 (BreaksOffFrom seat.old seat.new (held.Open txn) result.0 Prepare) }
    ensures uncalled { OnErr result.1 (LeavesDevices store.now seat.old seat.new Prepare (held.Open txn)) }
{
    match wp_txn::prepare(store, rt, alloc, seat, txn) {
        Ok((prepared, n)) => (HeldTxn::Prepared(prepared), Ok(Reply::Prepared(n))),
        Err(Refused { txn, why }) => (HeldTxn::Open(txn), refusal(why)),
    }
}

/// Commits the open transaction at once.
fn commit_open<D: Disk + Drop, R: Wait>(
    store: &Shared<D>,
    rt: &R,
    alloc: Global,
    seat: &mut Seat<D>,
    txn: OpenTxn,
) -> (HeldTxn, Result<Reply, AllocError>)
    requires { HoldsTxn store.now seat.old (held.Open txn) }
    ensures holds { HoldsFrom store.now seat.old seat.new (held.Open txn) result.0 }
    ensures answered { IfOk result.1 (AnswersFrom store.now seat.old seat.new (held.Open txn) result.0 Commit) }
    ensures err { OnErr result.1 (BreaksOffFrom seat.old seat.new (held.Open txn) result.0 Commit) }
    ensures uncalled { OnErr result.1 (LeavesDevices store.now seat.old seat.new Commit (held.Open txn)) }
{
    match wp_txn::commit_now(store, rt, alloc, seat, txn) {
        Ok(n) => (HeldTxn::Idle, Ok(Reply::Committed(n))),
        Err(Refused { txn, why }) => (HeldTxn::Open(txn), refusal(why)),
    }
}

/// Commits the prepared transaction.
fn commit_prepared<D: Disk + Drop, R: Wait>(
    store: &Shared<D>,
    rt: &R,
    alloc: Global,
    seat: &mut Seat<D>,
    txn: PreparedTxn,
) -> (HeldTxn, Result<Reply, AllocError>)
    requires { HoldsTxn store.now seat.old (held.Prepared txn) }
    ensures holds { HoldsFrom store.now seat.old seat.new (held.Prepared txn) result.0 }
    ensures answered { IfOk result.1 (AnswersFrom store.now seat.old seat.new (held.Prepared txn) result.0 Commit) }
    ensures err { OnErr result.1 (BreaksOffFrom seat.old seat.new (held.Prepared txn) result.0 Commit) }
    ensures uncalled { OnErr result.1 (LeavesDevices store.now seat.old seat.new Commit (held.Prepared txn)) }
{
    match wp_txn::commit(store, rt, alloc, seat, txn) {
        Ok(n) => (HeldTxn::Idle, Ok(Reply::Committed(n))),
        Err(Refused { txn, why }) => (HeldTxn::Prepared(txn), refusal(why)),
    }
}

/// Rolls the prepared transaction back.
fn rollback_prepared<D: Disk + Drop, R: Wait>(
    store: &Shared<D>,
    rt: &R,
    alloc: Global,
    seat: &mut Seat<D>,
    txn: PreparedTxn,
) -> (HeldTxn, Result<Reply, AllocError>)
    requires { HoldsTxn store.now seat.old (held.Prepared txn) }
    ensures holds { HoldsFrom store.now seat.old seat.new (held.Prepared txn) result.0 }
    ensures answered { IfOk result.1 (AnswersFrom store.now seat.old seat.new (held.Prepared txn) result.0 Rollback) }
    ensures err { OnErr result.1 (BreaksOffFrom seat.old seat.new (held.Prepared txn) result.0 Rollback) }
    ensures uncalled { OnErr result.1 (LeavesDevices store.now seat.old seat.new Rollback (held.Prepared txn)) }
{
    match wp_txn::rollback(store, rt, alloc, seat, txn) {
        Ok(n) => (HeldTxn::Idle, Ok(Reply::RolledBack(n))),
        Err(Refused { txn, why }) => (HeldTxn::Prepared(txn), refusal(why)),
    }
}

/// Prepares the transaction.
pub(crate) fn prepare<D: Disk + Drop, R: Wait>(
    store: &Shared<D>,
    rt: &R,
    alloc: Global,
    seat: &mut Seat<D>,
    txn: HeldTxn,
) -> (HeldTxn, Result<Reply, AllocError>)
    requires { HoldsTxn store.now seat.old txn }
    ensures holds { HoldsFrom store.now seat.old seat.new txn result.0 }
    ensures answered { IfOk result.1 (AnswersFrom store.now seat.old seat.new txn result.0 Prepare) }
    ensures err { OnErr result.1 (BreaksOffFrom seat.old seat.new txn result.0 Prepare) }
    ensures uncalled { OnErr result.1 (LeavesDevices store.now seat.old seat.new Prepare txn) }
{
    match txn {
        HeldTxn::Idle => (HeldTxn::Idle, Ok(Reply::State)),
        HeldTxn::Open(open) => prepare_open(store, rt, alloc, seat, open),
        HeldTxn::Prepared(prepared) => (HeldTxn::Prepared(prepared), Ok(Reply::State)),
    }
}

/// Commits the transaction.
pub(crate) fn commit<D: Disk + Drop, R: Wait>(
    store: &Shared<D>,
    rt: &R,
    alloc: Global,
    seat: &mut Seat<D>,
    txn: HeldTxn,
) -> (HeldTxn, Result<Reply, AllocError>)
    requires { HoldsTxn store.now seat.old txn }
    ensures holds { HoldsFrom store.now seat.old seat.new txn result.0 }
    ensures answered { IfOk result.1 (AnswersFrom store.now seat.old seat.new txn result.0 Commit) }
    ensures err { OnErr result.1 (BreaksOffFrom seat.old seat.new txn result.0 Commit) }
    ensures uncalled { OnErr result.1 (LeavesDevices store.now seat.old seat.new Commit txn) }
{
    match txn {
        HeldTxn::Idle => (HeldTxn::Idle, Ok(Reply::State)),
        HeldTxn::Open(open) => commit_open(store, rt, alloc, seat, open),
        HeldTxn::Prepared(prepared) => commit_prepared(store, rt, alloc, seat, prepared),
    }
}

/// Rolls the transaction back; one that is open is dropped.
pub(crate) fn rollback<D: Disk + Drop, R: Wait>(
    store: &Shared<D>,
    rt: &R,
    alloc: Global,
    seat: &mut Seat<D>,
    txn: HeldTxn,
) -> (HeldTxn, Result<Reply, AllocError>)
    requires { HoldsTxn store.now seat.old txn }
    ensures holds { HoldsFrom store.now seat.old seat.new txn result.0 }
    ensures answered { IfOk result.1 (AnswersFrom store.now seat.old seat.new txn result.0 Rollback) }
    ensures err { OnErr result.1 (BreaksOffFrom seat.old seat.new txn result.0 Rollback) }
    ensures uncalled { OnErr result.1 (LeavesDevices store.now seat.old seat.new Rollback txn) }
{
    match txn {
        HeldTxn::Idle => (HeldTxn::Idle, Ok(Reply::State)),
        HeldTxn::Open(open) => {
            wp_txn::abandon(store, rt, seat, open);
            (HeldTxn::Idle, Ok(Reply::Dropped))
        }
        HeldTxn::Prepared(prepared) => rollback_prepared(store, rt, alloc, seat, prepared),
    }
}

/// Leaves the prepared transaction to whoever takes it.
pub(crate) fn leave<D: Disk + Drop, R: Wait>(
    store: &Shared<D>,
    rt: &R,
    seat: &mut Seat<D>,
    txn: HeldTxn,
) -> (HeldTxn, Reply)
    requires { HoldsTxn store.now seat.old txn }
    ensures holds { HoldsFrom store.now seat.old seat.new txn result.0 }
    ensures answered { AnswersFrom store.now seat.old seat.new txn result.0 Leave result.1 }
{
    match txn {
        HeldTxn::Idle => (HeldTxn::Idle, Reply::State),
        HeldTxn::Open(open) => (HeldTxn::Open(open), Reply::State),
        HeldTxn::Prepared(prepared) => {
            wp_txn::leave(store, rt, seat, prepared);
            (HeldTxn::Idle, Reply::Left)
        }
    }
}
