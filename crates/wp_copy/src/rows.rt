//! The rows of all keys at a snapshot, as they are copied.
ghost use Rattle.std.specs.Prelude.{◌≡◌};
ghost use Rattle.wp_copy.specs.Rows.{AreRowsSince, IsRowIn, MayRead, rows_left};
ghost use Rattle.wp_copy.specs.RowsSince.{since_itself, since_again};

use std::alloc::AllocError;
use std::marker::Model;
use std::sync::Wait;
use wp_checkpoint::Rows;
use wp_model::Row;
use wp_outside::Disk;
use wp_read::Snapshot;
use wp_scan::Scan;
use wp_shared::{Seat, Shared};

/// The rows of a scan at a snapshot. They own the seat and the snapshot, and `into_parts` gives these back.
pub struct AllRows<'a, D: Disk + Drop, R> {
    store: &'a Shared<D>,
    rt: &'a R,
    seat: Seat<D>,
    snapshot: Snapshot,
    scan: Scan,
}

impl<'a, D: Disk + Drop, R> Model for AllRows<'a, D, R> {
    ghost use Rattle.std.specs.Coded.{codes};
    ghost use Rattle.wp_model.specs.PreparedSets.{prepared_sets_code};
    ghost use Rattle.wp_model.specs.Snapshots.{snapshots_code};
    ghost use Rattle.wp_model.specs.LockState.{lock_state_code};
    ghost use Rattle.wp_core.specs.Codes.{transactions_code};
    ghost use Rattle.wp_copy.specs.Rows.{AllRowsState, MayRead};

    ghost Value = { AllRowsState D };

    ghost coded = { Prim.hlevel (codes, prepared_sets_code, snapshots_code, lock_state_code, transactions_code) };

    ghost view = { λ r. record { store = r.store.now; seat = r.seat; snapshot = r.snapshot; scan = r.scan } };

    ghost invariant = { λ r. MayRead (record { store = r.store.now; seat = r.seat; snapshot = r.snapshot; scan = r.scan }) };
}

impl<'a, D: Disk + Drop, R: Wait> AllRows<'a, D, R> {
    /// The rows of this scan at a snapshot of the seat's.
    pub fn of(
        store: &'a Shared<D>,
        rt: &'a R,
        seat: Seat<D>,
        snapshot: Snapshot,
        scan: Scan,
    ) -> AllRows<'a, D, R>
        requires { MayRead (record { store = store.now; seat = seat; snapshot = snapshot; scan = scan }) }
        ensures { result ≡ record { store = store.now; seat = seat; snapshot = snapshot; scan = scan } }
    {
        AllRows {
            store,
            rt,
            seat,
            snapshot,
            scan,
        }
    }

    /// The seat, and the snapshot.
    pub fn into_parts(self) -> (Seat<D>, Snapshot)
        ensures seat { result.0 ≡ self.entry.seat }
        ensures snapshot { result.1 ≡ self.entry.snapshot }
        ensures may { MayRead self.entry }
    {
        let AllRows {
            store: _store,
            rt: _rt,
            seat,
            snapshot,
            scan: _scan,
        } = self;
        (seat, snapshot)
    }
}

impl<'a, D: Disk + Drop, R: Wait> Rows for AllRows<'a, D, R> {
    ghost left = { rows_left };

    ghost gives = { IsRowIn };

    ghost later = { AreRowsSince };

    fn next(&mut self) -> Result<Option<Row>, AllocError> {
        self.scan
            .next(self.store, self.rt, &mut self.seat, &self.snapshot)
    }

    ghost itself = { since_itself };

    ghost again = { since_again };
}
