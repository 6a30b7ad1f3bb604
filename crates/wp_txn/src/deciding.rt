//! A prepared transaction is committed, and one that is decided ends.
ghost use Rattle.std.specs.Prelude.{◌≡◌, ◌≤◌, ◌<◌, true, Some, IfOk, IfErr};
ghost use Rattle.wp_judge.specs.Words as words;
ghost use Rattle.wp_judge.specs.Words.{seq_end};
ghost use Rattle.wp_model.specs.Decision.{decision_of};
ghost use Rattle.wp_core.specs.Lists.{IsIn};
ghost use Rattle.wp_core.specs.Views.{has_left, unprepared};
ghost use Rattle.wp_shared.specs.Seats.{IsFree, participant_of, seen_by};
ghost use Rattle.wp_open_txns.specs.Calls.{Frees};
ghost use Rattle.wp_open_txns.specs.Txn.{HasLocked, HasPrepared};
ghost use Rattle.wp_txn.specs.Writes.{RefusesBeforeLog, Commits, AsksCommit, RefusesPrepared};

use crate::recording::{Noting, record};
use std::alloc::Global;
use std::slice;
use std::sync::Wait;
use wp_judge::fits;
use wp_model::Seq;
use wp_open_txns::{PreparedTxn, Refused, TxnError, free};
use wp_outside::Disk;
use wp_records::{Record, forget_prepared};
use wp_shared::{Seat, Shared};

/// Frees a transaction whose prepare is decided, and takes the number of that out of the prepared sets, where its pair fits a word.
/// One that is too wide stays a delayed commit until the bound has come to the decision. It takes no memory.
pub(crate) fn end<D: Disk + Drop, R: Wait>(
    store: &Shared<D>,
    rt: &R,
    seat: &mut Seat<D>,
    txn: PreparedTxn,
    decision: Seq,
)
    requires free { IsFree store.now.table seat.old }
    requires has { HasLocked seat.old txn.name txn.batch txn.locked }
    requires noted { IsIn (unprepared txn.name) seat.old.knows.notes }
    requires decided { (decision_of (seen_by seat.old) txn.number ≡ Some decision) × (txn.number ≤ decision) × (decision < seq_end) }
    ensures frees { Frees store.now seat.old seat.new txn.name }
    ensures gone { words.fits store.now.cells (record { number = txn.number; decision = decision }) ≡ true → IsIn (has_left txn.number) seat.new.knows.notes }
{
    let PreparedTxn {
        name,
        number,
        batch,
        locked,
    } = txn;
    free(store, rt, seat, name, batch, locked);
    if !fits(store.bits(), number, decision) {
        return;
    }
    forget_prepared(store, rt, seat, number);
}

/// Commits a prepared transaction, by one short entry. The answer is its number.
pub fn commit<D: Disk + Drop, R: Wait>(
    store: &Shared<D>,
    rt: &R,
    alloc: Global,
    seat: &mut Seat<D>,
    txn: PreparedTxn,
) -> Result<Seq, Refused<PreparedTxn>>
    requires free { IsFree store.now.table seat.old }
    requires prepared { HasPrepared seat.old txn }
    ensures ok { IfOk result (λ n. Commits store.now seat.old txn n seat.new) }
    ensures refused { IfErr result (λ r. RefusesPrepared store.now seat.old txn 1 AsksCommit r.txn r.why seat.new) }
    ensures before_log { IfErr result (λ r. RefusesBeforeLog store.now (participant_of seat.old) seat.old r.why seat.new) }
{
    let Ok(commit) = Record::commit(alloc, txn.number()) else {
        return Err(Refused {
            txn,
            why: TxnError::Memory,
        });
    };
    match record(
        store,
        rt,
        seat,
        commit,
        Noting::Unprepared(slice::from_ref(&txn)),
    ) {
        Ok(number) => {
            end(store, rt, seat, txn, number);
            Ok(number)
        }
        Err(why) => Err(Refused { txn, why }),
    }
}
