//! An open transaction is prepared, or committed at once.
ghost use Rattle.std.specs.Prelude.{IfOk, IfErr};
ghost use Rattle.wp_shared.specs.Seats.{IsFree, participant_of};
ghost use Rattle.wp_open_txns.specs.Txn.{HasOpen};
ghost use Rattle.wp_model.specs.declared.entry.Entry.TheVariants.{Write, Prepare};
ghost use Rattle.wp_txn.specs.Writes.{RefusesBeforeLog, Prepares, CommitsNow, RefusesOpen};

use crate::recording::{Noting, record, shows_batch};
use std::alloc::Global;
use std::sync::Wait;
use wp_model::Seq;
use wp_open_txns::{OpenTxn, PreparedTxn, Refused, TxnError, free, unpin};
use wp_outside::Disk;
use wp_records::Record;
use wp_shared::{Seat, Shared};

/// Prepares the transaction: its changes go to the log and into memory, and are not committed. Its keys stay held, and its pin is
/// released. The answer is the number of its prepare.
pub fn prepare<D: Disk + Drop, R: Wait>(
    store: &Shared<D>,
    rt: &R,
    alloc: Global,
    seat: &mut Seat<D>,
    txn: OpenTxn,
) -> Result<(PreparedTxn, Seq), Refused<OpenTxn>>
    requires free { IsFree store.now.table seat.old }
    requires open { HasOpen seat.old txn }
    ensures ok { IfOk result (λ r. Prepares store.now seat.old txn r.0 r.1 seat.new) }
    ensures refused { IfErr result (λ r. RefusesOpen store.now seat.old txn (Prepare txn.name txn.batch) r.txn r.why seat.new) }
    ensures before_log { IfErr result (λ r. RefusesBeforeLog store.now (participant_of seat.old) seat.old r.why seat.new) }
{
    shows_batch(&txn.batch);
    let Ok(prepare) = Record::prepare(alloc, &txn.name, &txn.batch) else {
        return Err(Refused {
            txn,
            why: TxnError::Memory,
        });
    };
    match record(store, rt, seat, prepare, Noting::Undecided(&txn.name)) {
        Ok(number) => {
            let OpenTxn {
                name,
                batch,
                locked,
                pin,
            } = txn;
            unpin(store, rt, seat, pin);
            let prepared = PreparedTxn {
                name,
                number,
                batch,
                locked,
            };
            Ok((prepared, number))
        }
        Err(why) => Err(Refused { txn, why }),
    }
}

/// Commits a transaction that was not prepared: its changes are one entry. Its pin is released. The answer is the entry's number.
pub fn commit_now<D: Disk + Drop, R: Wait>(
    store: &Shared<D>,
    rt: &R,
    alloc: Global,
    seat: &mut Seat<D>,
    txn: OpenTxn,
) -> Result<Seq, Refused<OpenTxn>>
    requires free { IsFree store.now.table seat.old }
    requires open { HasOpen seat.old txn }
    ensures ok { IfOk result (λ n. CommitsNow store.now seat.old txn n seat.new) }
    ensures refused { IfErr result (λ r. RefusesOpen store.now seat.old txn (Write txn.batch) r.txn r.why seat.new) }
    ensures before_log { IfErr result (λ r. RefusesBeforeLog store.now (participant_of seat.old) seat.old r.why seat.new) }
{
    shows_batch(&txn.batch);
    let Ok(write) = Record::write(alloc, &txn.batch) else {
        return Err(Refused {
            txn,
            why: TxnError::Memory,
        });
    };
    match record(store, rt, seat, write, Noting::Nothing) {
        Ok(number) => {
            let OpenTxn {
                name,
                batch,
                locked,
                pin,
            } = txn;
            unpin(store, rt, seat, pin);
            free(store, rt, seat, name, batch, locked);
            Ok(number)
        }
        Err(why) => Err(Refused { txn, why }),
    }
}
