//! A prepared transaction is rolled back.
ghost use Rattle.std.specs.Prelude.{IfOk, IfErr};
ghost use Rattle.wp_shared.specs.Calls.{Continues};
ghost use Rattle.wp_shared.specs.Seats.{IsFree, participant_of};
ghost use Rattle.wp_txn.specs.Recording.{IsPriorSince};
ghost use Rattle.wp_open_txns.specs.Txn.{HasPrepared};
ghost use Rattle.wp_txn.specs.Writes.{RefusesBehindRead, RollsBack, RefusesPrepared, AsksRollback};

use crate::deciding::end;
use crate::recording::{Noting, record, shows_batch};
use std::alloc::{AllocError, Global};
use std::slice;
use std::sync::Wait;
use wp_model::{Batch, Seq};
use wp_open_txns::{PreparedTxn, Refused, TxnError};
use wp_outside::Disk;
use wp_read::laws::held_keys_keep_their_values;
use wp_read::{brief_snapshot, prior, release};
use wp_records::Record;
use wp_shared::{Seat, Shared};

/// What the keys of the batch have now, as a batch that restores it: as of a snapshot that is taken for that alone.
fn prior_now<D: Disk + Drop, R: Wait>(
    store: &Shared<D>,
    rt: &R,
    alloc: Global,
    seat: &mut Seat<D>,
    batch: &Batch,
) -> Result<Batch, AllocError>
    requires { IsFree store.now.table seat.old }
    ensures seat { Continues store.now seat.old seat.new (participant_of seat.old) }
    ensures prior { IfOk result (λ found. IsPriorSince seat.old seat.new batch.now found) }
{
    let taken = brief_snapshot(store, rt, seat)?;
    let found = prior(store, rt, alloc, seat, batch, &taken);
    release(store, rt, seat, taken);
    found
}

/// Rolls a prepared transaction back: an Undo entry writes what its keys had before, and a Close entry ends it, in one record. The
/// answer is the number of the Close.
pub fn rollback<D: Disk + Drop, R: Wait>(
    store: &Shared<D>,
    rt: &R,
    alloc: Global,
    seat: &mut Seat<D>,
    txn: PreparedTxn,
) -> Result<Seq, Refused<PreparedTxn>>
    requires free { IsFree store.now.table seat.old }
    requires prepared { HasPrepared seat.old txn }
    ensures ok { IfOk result (λ n. RollsBack store.now seat.old txn n seat.new) }
    ensures refused { IfErr result (λ r. RefusesPrepared store.now seat.old txn 2 AsksRollback r.txn r.why seat.new) }
    ensures before_log { IfErr result (λ r. RefusesBehindRead store.now seat.old r.why seat.new) }
{
    let Ok(prior) = prior_now(store, rt, alloc, seat, txn.batch()) else {
        return Err(Refused {
            txn,
            why: TxnError::Memory,
        });
    };
    shows_batch(&prior);
    let Ok(undo) = Record::roll_back(alloc, txn.number(), &prior) else {
        return Err(Refused {
            txn,
            why: TxnError::Memory,
        });
    };
    held_keys_keep_their_values();
    match record(
        store,
        rt,
        seat,
        undo,
        Noting::Unprepared(slice::from_ref(&txn)),
    ) {
        Ok(number) => {
            end(store, rt, seat, txn, number);
            Ok(number)
        }
        Err(why) => Err(Refused { txn, why }),
    }
}
