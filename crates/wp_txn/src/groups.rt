//! Several prepared transactions are committed by one record.
ghost use Rattle.std.specs.Prelude.{◌≡◌, ◌≢◌, ◌+◌, ◌≤◌, ◌^◌, ℕ, length, AllPairs, IfOk, IfErr};
ghost use Rattle.wp_model.specs.CachePlace.{NoneShare};
ghost use Rattle.wp_model.specs.declared.entry.TheConstants.{MOST_COMMITS};
ghost use Rattle.wp_shared.specs.Seats.{IsFree, participant_of};
ghost use Rattle.wp_txn.specs.Groups.{names_of, numbers_of, their_commits, ArePrepared, AreDecidedBehind, EndsEach, CommitsAll, AreNoGroup, RefusesGroup};
ghost use Rattle.wp_txn.specs.Writes.{RefusesBeforeLog};

use crate::deciding::end;
use crate::recording::{Noting, record};
use std::alloc::{AllocError, Global};
use std::sync::Wait;
use wp_group::{Group, GroupError};
use wp_model::Seq;
use wp_open_txns::{PreparedTxn, Refused, TxnError};
use wp_outside::Disk;
use wp_records::Record;
use wp_shared::{Seat, Shared};

/// Ends them in order, of which the last is decided by this number.
fn end_all<D: Disk + Drop, R: Wait>(
    store: &Shared<D>,
    rt: &R,
    seat: &mut Seat<D>,
    mut txns: Vec<PreparedTxn>,
    last: Seq,
)
    requires free { IsFree store.now.table seat.old }
    requires decided { (n : ℕ) × (last ≡ n + length txns.items) × AreDecidedBehind seat.old n txns.items }
    requires names { AllPairs ◌≢◌ (names_of txns.items) }
    ensures { (n : ℕ) → last ≡ n + length txns.items → EndsEach store.now seat.old txns.items n seat.new }
{
    let mut decision = last - txns.len() as Seq;
    while !txns.is_empty() {
        let txn = txns.remove(0);
        decision += 1;
        end(store, rt, seat, txn, decision);
    }
    txns.destroy_empty();
}

fn numbers_of(alloc: Global, txns: &[PreparedTxn]) -> Result<Vec<Seq>, AllocError>
    ensures { IfOk result (λ numbers. numbers.items ≡ numbers_of txns.now) }
{
    let mut numbers = Vec::with_capacity(alloc, txns.len())?;
    for txn in txns {
        numbers.push(txn.number())?;
    }
    Ok(numbers)
}

/// The record that commits them, where no two of their numbers have one place in a cache of 2^bits words.
fn commits_of(alloc: Global, bits: u32, txns: &[PreparedTxn]) -> Result<Record, TxnError>
    requires bits { bits ≤ 16 }
    requires some { (1 ≤ length txns.now) × (length txns.now ≤ MOST_COMMITS) }
    ensures ok { IfOk result (λ made. (made ≡ their_commits txns.now) × NoneShare (2 ^ bits) (numbers_of txns.now)) }
    ensures refused { IfErr result (AreNoGroup (2 ^ bits) txns.now) }
{
    let numbers = numbers_of(alloc, txns)?;
    match Group::of(alloc, &numbers, bits) {
        Ok(group) => Ok(Record::commits(alloc, group.numbers())?),
        Err(GroupError::Memory) => Err(TxnError::Memory),
        Err(GroupError::Crowded { first, second }) => Err(TxnError::Crowded { first, second }),
    }
}

/// Commits 1 to 16 prepared transactions of different names by one record, one short entry each, in order: a crash leaves all of
/// them committed or none, but a reader may see the first of them alone. The answer is the number of the last. `Crowded` where two of
/// their numbers have one place in the commit cache, before anything is called.
pub fn commit_all<D: Disk + Drop, R: Wait>(
    store: &Shared<D>,
    rt: &R,
    alloc: Global,
    seat: &mut Seat<D>,
    txns: Vec<PreparedTxn>,
) -> Result<Seq, Refused<Vec<PreparedTxn>>>
    requires free { IsFree store.now.table seat.old }
    requires some { (1 ≤ length txns.items) × (length txns.items ≤ MOST_COMMITS) }
    requires prepared { ArePrepared seat.old txns.items }
    ensures ok { IfOk result (λ n. CommitsAll store.now seat.old txns.items n seat.new) }
    ensures refused { IfErr result (λ r. RefusesGroup store.now seat.old txns.items r.txn.items r.why seat.new) }
    ensures before_log { IfErr result (λ r. RefusesBeforeLog store.now (participant_of seat.old) seat.old r.why seat.new) }
{
    let commits = match commits_of(alloc, store.bits(), &txns) {
        Ok(commits) => commits,
        Err(why) => return Err(Refused { txn: txns, why }),
    };
    match record(store, rt, seat, commits, Noting::Unprepared(&txns)) {
        Ok(number) => {
            end_all(store, rt, seat, txns, number);
            Ok(number)
        }
        Err(why) => Err(Refused { txn: txns, why }),
    }
}
