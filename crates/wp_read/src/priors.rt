//! What a rollback restores.
ghost use Rattle.std.specs.Prelude.{◌≡◌, take, IfOk};
ghost use Rattle.wp_model.specs.History.{newest};
ghost use Rattle.wp_model.specs.Legal.{change_that_leaves, prior};
ghost use Rattle.wp_core.specs.Lists.{IsIn};
ghost use Rattle.wp_shared.specs.Calls.{Continues};
ghost use Rattle.wp_shared.specs.Seats.{IsFree, participant_of, seen_by};

use crate::registration::Snapshot;
use crate::values::get;
use std::alloc::{AllocError, Global};
use std::sync::Wait;
use wp_model::{Batch, Change, Key, SetError};
use wp_outside::Disk;
use wp_shared::{Seat, Shared};

/// The change that leaves the key with what it had at the snapshot.
fn restoring<D: Disk + Drop, R: Wait>(
    store: &Shared<D>,
    rt: &R,
    alloc: Global,
    seat: &mut Seat<D>,
    key: &Key,
    snapshot: &Snapshot,
) -> Result<Change, AllocError>
    requires free { IsFree store.now.table seat.old }
    requires registered { IsIn snapshot.now seat.old.knows.participant.registered }
    ensures continues { Continues store.now seat.old seat.new (participant_of seat.old) }
    ensures same { participant_of seat.new ≡ participant_of seat.old }
    ensures change { IfOk result (λ change. change ≡ change_that_leaves key.now (newest (take snapshot.now.number (seen_by seat.new)) key.now)) }
{
    let value = get(store, rt, seat, key, snapshot)?;
    let key = key.copy(alloc)?;
    Ok(match value {
        Some(value) => Change::Put(key, value),
        None => Change::Del(key),
    })
}

/// What the keys of the batch had at the snapshot, as changes that leave it there: a deletion for a key that had nothing.
pub fn prior<D: Disk + Drop, R: Wait>(
    store: &Shared<D>,
    rt: &R,
    alloc: Global,
    seat: &mut Seat<D>,
    batch: &Batch,
    snapshot: &Snapshot,
) -> Result<Batch, AllocError>
    requires free { IsFree store.now.table seat.old }
    requires registered { IsIn snapshot.now seat.old.knows.participant.registered }
    ensures continues { Continues store.now seat.old seat.new (participant_of seat.old) }
    ensures prior { IfOk result (λ found. found ≡ prior (take snapshot.now.number (seen_by seat.new)) batch.now) }
{
    let mut found = Batch::new(alloc);
    for change in batch.changes() {
        match found.set(restoring(store, rt, alloc, seat, change.key(), snapshot)?) {
            Ok(()) => {}
            Err(SetError::Memory) => return Err(AllocError),
            // It has fewer keys than that batch.
            Err(SetError::TooMany) => unreachable!(),
        }
    }
    Ok(found)
}
