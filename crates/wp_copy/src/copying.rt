//! A copy at a snapshot.
ghost use Rattle.std.specs.Prelude.{◌≡◌, ◌≤◌, None, length, take, IfErr, IfOk};
ghost use Rattle.wp_model.specs.Legal.{IsLegal, undone_last};
ghost use Rattle.wp_model.specs.Rows.{rows_at};
ghost use Rattle.wp_contents.specs.Devices.{devices_of};
ghost use Rattle.wp_core.specs.Lists.{IsIn};
ghost use Rattle.wp_cuts.specs.Cut.{carried_of};
ghost use Rattle.wp_scan.specs.Scan.{left_of};
ghost use Rattle.wp_shared.specs.Calls.{Continues};
ghost use Rattle.wp_shared.specs.Seats.{IsFree, participant_of, seen_by};
ghost use Rattle.wp_copy.specs.CopyAt.{CopiesTo, RefusesAt};
ghost use Rattle.wp_copy.specs.Rows.{greatest, least};

use crate::rows::AllRows;
use std::alloc::{AllocError, Global};
use std::sync::Wait;
use wp_checkpoint::{Copied, CopyError, CopyRefused, checkpoint};
use wp_model::{Carried, Key, MOST_KEY_BYTES};
use wp_open_txns::undecided_at;
use wp_outside::{Disk, Disks};
use wp_read::{Snapshot, next_row};
use wp_scan::Scan;
use wp_shared::{Seat, Shared};

/// What became of a copy, with the seat and the snapshot by which it was made.
pub struct CopyAt<D: Disk + Drop, E> {
    pub seat: Seat<D>,
    pub snapshot: Snapshot,
    pub outcome: Result<(Copied, Disks<E>), CopyRefused<E>>,
}

/// The least key, and the greatest.
fn ends(alloc: Global) -> Result<(Key, Key), AllocError>
    ensures { IfOk result (λ ends. (ends.0 ≡ least) × (ends.1 ≡ greatest)) }
{
    let least = Key::read(alloc, b"!").map_err(|_| AllocError)?;
    let greatest = Key::read(alloc, &[b'~'; MOST_KEY_BYTES]).map_err(|_| AllocError)?;
    Ok((least, greatest))
}

/// A scan of all keys. The next row is asked for once before it, which tells that each key of the store is in the range.
fn scan_all<D: Disk + Drop, R: Wait>(
    store: &Shared<D>,
    rt: &R,
    alloc: Global,
    seat: &mut Seat<D>,
    snapshot: &Snapshot,
) -> Result<Scan, AllocError>
    requires free { IsFree store.now.table seat.old }
    requires registered { IsIn snapshot.now seat.old.knows.participant.registered }
    ensures continues { Continues store.now seat.old seat.new (participant_of seat.old) }
    ensures same { participant_of seat.new ≡ participant_of seat.old }
    ensures all { IfOk result (λ scan. left_of (seen_by seat.old) snapshot.now.number scan ≡ rows_at (seen_by seat.old) snapshot.now.number) }
{
    let (least, greatest) = ends(alloc)?;
    next_row(store, rt, seat, &least, false, &greatest, snapshot)?;
    Scan::begin(alloc, &least, &greatest)
}

/// What is to be copied: the prepares, and the rows of all keys.
fn source_at<D: Disk + Drop, R: Wait>(
    store: &Shared<D>,
    rt: &R,
    alloc: Global,
    seat: &mut Seat<D>,
    snapshot: &Snapshot,
) -> Result<(Vec<Carried>, Scan), AllocError>
    requires free { IsFree store.now.table seat.old }
    requires registered { IsIn snapshot.now seat.old.knows.participant.registered }
    ensures continues { Continues store.now seat.old seat.new (participant_of seat.old) }
    ensures prepares { IfOk result (λ source. source.0.items ≡ carried_of (take snapshot.now.number (seen_by seat.new))) }
    ensures rows { IfOk result (λ source. left_of (seen_by seat.new) snapshot.now.number source.1 ≡ rows_at (seen_by seat.new) snapshot.now.number) }
    ensures within { snapshot.now.number ≤ length (seen_by seat.old) }
    ensures legal { IsLegal (seen_by seat.new) }
{
    let prepares = undecided_at(store, rt, alloc, seat, snapshot)?;
    let scan = scan_all(store, rt, alloc, seat, snapshot)?;
    Ok((prepares, scan))
}

/// Copies the store at the snapshot to three empty devices, under this id: what the history leaves there under each key, with the
/// prepares that are undecided there. So the copy begins at the snapshot's number, with no history below. Others go on meanwhile, and
/// nothing of the seat but what it has seen is other than before. The targets are looked at in the order log, manifest, tables,
/// once the prepares are known; a refusal hands them back.
pub fn copy_at<D: Disk + Drop, E: Disk, R: Wait>(
    store: &Shared<D>,
    rt: &R,
    alloc: Global,
    seat: Seat<D>,
    snapshot: Snapshot,
    id: u32,
    target: Disks<E>,
) -> CopyAt<D, E>
    requires free { IsFree store.now.table seat }
    requires registered { IsIn snapshot seat.knows.participant.registered }
    requires whole { undone_last (take snapshot.number (seen_by seat)) ≡ None }
    ensures continues { Continues store.now seat result.seat (participant_of seat) }
    ensures snapshot { result.snapshot ≡ snapshot }
    ensures made { IfOk result.outcome (λ made. CopiesTo id (take snapshot.number (seen_by seat))
        (devices_of E.moments E.faults target) made.0 (devices_of E.moments E.faults made.1)) }
    ensures refused { IfErr result.outcome (λ refused. RefusesAt
        (devices_of E.moments E.faults target) (devices_of E.moments E.faults refused.target) refused.why) }
{
    let mut seat = seat;
    let Ok((prepares, scan)) = source_at(store, rt, alloc, &mut seat, &snapshot) else {
        let why = CopyError::Memory;
        let outcome = Err(CopyRefused { target, why });
        return CopyAt {
            seat,
            snapshot,
            outcome,
        };
    };
    let at = snapshot.number();
    let mut rows = AllRows::of(store, rt, seat, snapshot, scan);
    let outcome = checkpoint(alloc, &mut rows, &prepares, at, id, target);
    let (seat, snapshot) = rows.into_parts();
    CopyAt {
        seat,
        snapshot,
        outcome,
    }
}
