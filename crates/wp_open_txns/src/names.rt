//! Open transactions begin with a name, and end with it.
ghost use Rattle.std.specs.Prelude.{◌≡◌, []};
ghost use Rattle.wp_core.specs.States.{locks};
ghost use Rattle.wp_shared.specs.Seats.{IsFree};
ghost use Rattle.wp_shared.specs.Turns.{HoldsTurn};
ghost use Rattle.wp_open_txns.specs.Calls.{Abandons, Begins, IsFreeName, LocksAre};
ghost use Rattle.wp_open_txns.specs.Txn.{HasOpen};
ghost use Rattle.wp_open_txns.specs.Under.{Claims};

use crate::error::TxnError;
use crate::locking::free;
use crate::pinning::unpin;
use crate::steps::{claim_name, find_name};
use crate::txn::OpenTxn;
use std::alloc::Global;
use std::sync::Wait;
use wp_locks::{LockError, Locks};
use wp_model::{Batch, Name};
use wp_outside::Disk;
use wp_shared::{Seat, Shared};

/// Claims the name for the seat's client, or finds it live.
fn claim<D: Disk + Drop>(
    store: &Shared<D>,
    seat: &mut Seat<D>,
    tables: &mut Locks,
    name: &Name,
    claimed: Name,
    client: Name,
) -> Result<(), TxnError>
    requires seat { HoldsTurn store.now seat.old (locks tables.old) [] [] }
    requires names { (claimed ≡ name.now) × (client ≡ seat.old.knows.participant.client) }
    ensures answered { Claims tables.old seat.old name.now result tables.new seat.new }
    ensures holds { HoldsTurn store.now seat.new (locks tables.new) [] [] }
{
    match tables.claim_name(claimed, client) {
        Ok(()) => {
            claim_name(store, seat, name);
            Ok(())
        }
        Err(LockError::Taken(taken)) => {
            find_name(store, seat, tables, name);
            Err(TxnError::Taken(taken))
        }
        Err(LockError::Memory) => Err(TxnError::Memory),
        Err(LockError::Unknown(_) | LockError::InUse(_) | LockError::Busy(_)) => unreachable!(),
    }
}

/// Begins a transaction of this name, with no changes, where the name is not live.
pub fn begin<D: Disk + Drop, R: Wait>(
    store: &Shared<D>,
    rt: &R,
    alloc: Global,
    seat: &mut Seat<D>,
    name: Name,
) -> Result<OpenTxn, TxnError>
    requires { IsFree store.now.table seat.old }
    ensures { Begins store.now seat.old name result seat.new }
{
    let claimed = name.copy(alloc)?;
    let client = seat.client().copy(alloc)?;
    let mut tables = store.take_turn::<Locks, R>(rt, seat);
    let outcome = claim(store, seat, &mut tables, &name, claimed, client);
    store.give_turn(seat, tables);
    outcome?;
    Ok(OpenTxn {
        name,
        batch: Batch::new(alloc),
        locked: Vec::new(alloc),
        pin: None,
    })
}

/// Drops an open transaction: its pin is released, and its name and its keys are free again. It takes no memory.
pub fn abandon<D: Disk + Drop, R: Wait>(store: &Shared<D>, rt: &R, seat: &mut Seat<D>, txn: OpenTxn)
    requires free { IsFree store.now.table seat.old }
    requires open { HasOpen seat.old txn }
    ensures gives_up { Abandons store.now seat.old seat.new txn }
    ensures freed { LocksAre store.now seat.new (IsFreeName txn.name) }
{
    let OpenTxn {
        name,
        batch,
        locked,
        pin,
    } = txn;
    unpin(store, rt, seat, pin);
    free(store, rt, seat, name, batch, locked);
}
