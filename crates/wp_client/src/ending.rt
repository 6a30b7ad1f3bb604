//! A client's session ends, and lets go of what the client has.
ghost use Rattle.std.specs.Prelude.{◌≡◌, []};
ghost use Rattle.wp_client.specs.declared.holdings.HeldTxn.{HeldTxn};
ghost use Rattle.wp_client.specs.declared.holdings.HeldTxn.TheVariants as held;
ghost use Rattle.wp_client.specs.Holdings.{HoldingsState, no_holdings, HoldsTxn, Holds};
ghost use Rattle.wp_client.specs.Ends.{LetsGo};

use crate::holdings::{HeldSnapshot, HeldTxn, Holdings};
use std::sync::Wait;
use wp_outside::Disk;
use wp_shared::{Seat, Shared};

/// Drops an open transaction, and leaves a prepared one.
fn let_txn_go<D: Disk + Drop, R: Wait>(store: &Shared<D>, rt: &R, seat: &mut Seat<D>, txn: HeldTxn)
    requires { HoldsTxn store.now seat.old txn }
    ensures { (h : HoldingsState) → h.txn ≡ txn → LetsGo store.now seat.old seat.new h (record h { txn = held.Idle }) }
{
    match txn {
        HeldTxn::Idle => {}
        HeldTxn::Open(open) => wp_open_txns::abandon(store, rt, seat, open),
        HeldTxn::Prepared(prepared) => wp_open_txns::leave(store, rt, seat, prepared),
    }
}

/// Releases the client's snapshots, from the last one on.
fn release_all<D: Disk + Drop, R: Wait>(
    store: &Shared<D>,
    rt: &R,
    seat: &mut Seat<D>,
    mut snapshots: Vec<HeldSnapshot>,
)
    requires { (txn : HeldTxn) × Holds store.now seat.old (record { txn = txn; snapshots = snapshots.items }) }
    ensures { (txn : HeldTxn) → Holds store.now seat.old (record { txn = txn; snapshots = snapshots.items })
        → LetsGo store.now seat.old seat.new (record { txn = txn; snapshots = snapshots.items }) (record { txn = txn; snapshots = [] }) }
{
    while let Some(last) = snapshots.pop() {
        let HeldSnapshot {
            label: _label,
            snapshot,
        } = last;
        wp_read::release(store, rt, seat, snapshot);
    }
    snapshots.destroy_empty();
}

/// Ends the session: its snapshots are released, an open transaction is dropped, and a prepared one is left. It takes no memory.
pub fn end<D: Disk + Drop, R: Wait>(store: &Shared<D>, rt: &R, seat: &mut Seat<D>, held: Holdings)
    requires { Holds store.now seat.old held }
    ensures { LetsGo store.now seat.old seat.new held no_holdings }
{
    let Holdings { txn, snapshots } = held;
    release_all(store, rt, seat, snapshots);
    let_txn_go(store, rt, seat, txn);
}
