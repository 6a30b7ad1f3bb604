//! Several prepared transactions are taken, and one record commits them all. Where one of them is refused, or their commit is, those that
//! were taken are left again.
ghost use Rattle.std.specs.Prelude.{◌≡◌, ◌≢◌, ◌≤◌, [], length, AllPairs, IfOk, IfErr, OnErr};
ghost use Rattle.wp_model.specs.declared.entry.TheConstants.{MOST_COMMITS};
ghost use Rattle.wp_text.specs.declared.script.Command.TheVariants.{Settle};
ghost use Rattle.wp_client.specs.declared.holdings.HeldTxn.TheVariants as held;
ghost use Rattle.wp_client.specs.Answers.{AnswersFrom, BreaksOffFrom};
ghost use Rattle.wp_client.specs.Holdings.{HoldsTxn, HoldsFrom};
ghost use Rattle.wp_answers.specs.Settling.{HoldsTxns, TakesAll, GivesUpTo, RefusesTakes, SettlesThem, RefusesThem};
ghost use Rattle.wp_answers.specs.Uncalled.{LeavesDevices};

use std::alloc::{AllocError, Global};
use std::sync::Wait;
use wp_client::{HeldTxn, refusal};
use wp_model::{Name, Seq};
use wp_outside::Disk;
use wp_shared::{Seat, Shared};
use wp_text::{Names, Reply};
use wp_txn::{PreparedTxn, Refused, TxnError};

/// Leaves the transactions to whoever takes them. It takes no memory.
fn leave_all<D: Disk + Drop, R: Wait>(
    store: &Shared<D>,
    rt: &R,
    seat: &mut Seat<D>,
    mut txns: Vec<PreparedTxn>,
)
    requires { HoldsTxns store.now seat.old txns.items }
    ensures { GivesUpTo store.now seat.old seat.new [] }
{
    while !txns.is_empty() {
        let txn = txns.remove(0);
        wp_txn::leave(store, rt, seat, txn);
    }
    txns.destroy_empty();
}

/// Takes the prepared transactions of the names, in order. The first one that is refused is the answer, and none is taken then.
fn take_all<D: Disk + Drop, R: Wait>(
    store: &Shared<D>,
    rt: &R,
    alloc: Global,
    seat: &mut Seat<D>,
    names: &[Name],
) -> Result<Vec<PreparedTxn>, TxnError>
    requires idle { HoldsTxn store.now seat.old held.Idle }
    requires distinct { AllPairs ◌≢◌ names.now }
    ensures taken { IfOk result (λ txns. TakesAll store.now seat.old names.now txns.items seat.new) }
    ensures refused { IfErr result (λ why. RefusesTakes store.now seat.old names.now why seat.new) }
{
    let mut txns = Vec::with_capacity(alloc, names.len())?;
    for name in names {
        match wp_txn::take_prepared(store, rt, alloc, seat, name) {
            Ok(txn) => txns.push_reserved(txn),
            Err(why) => {
                store.shows_world(seat);
                leave_all(store, rt, seat, txns);
                return Err(why);
            }
        }
    }
    store.shows_world(seat);
    Ok(txns)
}

/// Commits them all by one record, or leaves them. The answer is the number of the last.
fn commit_taken<D: Disk + Drop, R: Wait>(
    store: &Shared<D>,
    rt: &R,
    alloc: Global,
    seat: &mut Seat<D>,
    txns: Vec<PreparedTxn>,
) -> Result<Seq, TxnError>
    requires has { HoldsTxns store.now seat.old txns.items }
    requires some { (1 ≤ length txns.items) × (length txns.items ≤ MOST_COMMITS) }
    ensures committed { IfOk result (λ n. SettlesThem store.now seat.old txns.items n seat.new) }
    ensures refused { IfErr result (λ why. RefusesThem store.now seat.old txns.items why seat.new) }
{
    match wp_txn::commit_all(store, rt, alloc, seat, txns) {
        Ok(last) => Ok(last),
        Err(Refused { txn, why }) => {
            leave_all(store, rt, seat, txn);
            Err(why)
        }
    }
}

/// Settles the transactions, where none is begun.
fn settle_now<D: Disk + Drop, R: Wait>(
    store: &Shared<D>,
    rt: &R,
    alloc: Global,
    seat: &mut Seat<D>,
    names: &Names,
) -> Result<Reply, AllocError>
    requires { HoldsTxn store.now seat.old held.Idle }
    ensures holds { HoldsFrom store.now seat.old seat.new held.Idle held.Idle }
    ensures answered { IfOk result (AnswersFrom store.now seat.old seat.new held.Idle held.Idle (Settle names.now)) }
    ensures err { OnErr result (BreaksOffFrom seat.old seat.new held.Idle held.Idle (Settle names.now)) }
    ensures uncalled { OnErr result (LeavesDevices store.now seat.old seat.new (Settle names.now) held.Idle) }
{
    let txns = match take_all(store, rt, alloc, seat, names.as_slice()) {
        Ok(txns) => txns,
        Err(why) => return refusal(why),
    };
    let count = txns.len() as u64;
    match commit_taken(store, rt, alloc, seat, txns) {
        Ok(last) => Ok(Reply::Settled { last, count }),
        Err(why) => refusal(why),
    }
}

/// Takes the prepared transactions of the names and commits them all: a crash leaves all of them committed or none, but a reader may see
/// the first of them alone.
pub(crate) fn settle<D: Disk + Drop, R: Wait>(
    store: &Shared<D>,
    rt: &R,
    alloc: Global,
    seat: &mut Seat<D>,
    txn: &HeldTxn,
    names: &Names,
) -> Result<Reply, AllocError>
    requires { HoldsTxn store.now seat.old txn.now }
    ensures holds { HoldsFrom store.now seat.old seat.new txn.now txn.now }
    ensures answered { IfOk result (AnswersFrom store.now seat.old seat.new txn.now txn.now (Settle names.now)) }
    ensures err { OnErr result (BreaksOffFrom seat.old seat.new txn.now txn.now (Settle names.now)) }
    ensures uncalled { OnErr result (LeavesDevices store.now seat.old seat.new (Settle names.now) txn.now) }
{
    match txn {
        HeldTxn::Idle => settle_now(store, rt, alloc, seat, names),
        HeldTxn::Open(_) => Ok(Reply::State),
        HeldTxn::Prepared(_) => Ok(Reply::State),
    }
}
