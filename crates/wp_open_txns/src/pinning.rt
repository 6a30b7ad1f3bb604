//! The pin of an open transaction: none of its keys is changed by others since.
ghost use Rattle.std.specs.Prelude.{◌≡◌, Some};
ghost use Rattle.wp_core.specs.Lists.{IsIn};
ghost use Rattle.wp_core.specs.Reading.{Registration};
ghost use Rattle.wp_read.specs.Registers.{unregistering};
ghost use Rattle.wp_shared.specs.Calls.{Continues};
ghost use Rattle.wp_shared.specs.Seats.{IsFree, participant_of};
ghost use Rattle.wp_open_txns.specs.Calls.{Pins};
ghost use Rattle.wp_open_txns.specs.Txn.{HasOpen};

use crate::error::TxnError;
use crate::txn::OpenTxn;
use std::mem;
use std::sync::Wait;
use wp_model::Seq;
use wp_outside::Disk;
use wp_read::{Snapshot, release, snapshot};
use wp_shared::{Seat, Shared};

/// Pins all that is published, in place of an earlier pin, which goes once the new one is registered. Keys that the transaction has
/// already count too: they are unchanged since they were locked. The answer is the number of the pin.
pub fn pin<D: Disk + Drop, R: Wait>(
    store: &Shared<D>,
    rt: &R,
    seat: &mut Seat<D>,
    txn: &mut OpenTxn,
) -> Result<Seq, TxnError>
    requires free { IsFree store.now.table seat.old }
    requires open { HasOpen seat.old txn.old }
    ensures { Pins store.now seat.old txn.old result seat.new txn.new }
{
    let taken = snapshot(store, rt, seat)?;
    let number = taken.number();
    let before = mem::replace(&mut txn.pin, Some(taken));
    unpin(store, rt, seat, before);
    Ok(number)
}

/// Releases a pin, if there is one. It takes no memory.
pub fn unpin<D: Disk + Drop, R: Wait>(
    store: &Shared<D>,
    rt: &R,
    seat: &mut Seat<D>,
    pin: Option<Snapshot>,
)
    requires free { IsFree store.now.table seat.old }
    requires registered { (r : Registration) → pin ≡ Some r → IsIn r seat.old.knows.participant.registered }
    ensures goes_on { Continues store.now seat.old seat.new (unregistering pin (participant_of seat.old)) }
    ensures same { participant_of seat.new ≡ unregistering pin (participant_of seat.old) }
{
    if let Some(pinned) = pin {
        release(store, rt, seat, pinned);
    }
}
