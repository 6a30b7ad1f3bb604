//! The numbers that a compaction pins.
ghost use Rattle.std.specs.Prelude.{◌≡◌, List, ◌∷◌, ◌++◌, IfOk};
ghost use Rattle.wp_core.specs.Reading.{Registration};
ghost use Rattle.wp_shared.specs.Calls.{Continues};
ghost use Rattle.wp_shared.specs.Seats.{IsFree};
ghost use Rattle.wp_read.specs.Registers.{numbers_of};

use std::alloc::{AllocError, Global};
use std::sync::Wait;
use wp_model::Seq;
use wp_outside::Disk;
use wp_read::{Pinned, Snapshot, release};
use wp_shared::{Seat, Shared};

/// The numbers of the snapshots.
pub(crate) fn numbers_of(alloc: Global, live: &[Snapshot]) -> Result<Vec<Seq>, AllocError>
    ensures { IfOk result (λ numbers. numbers.items ≡ numbers_of live.now) }
{
    let mut numbers = Vec::with_capacity(alloc, live.len())?;
    for i in 0..live.len() {
        numbers.push(live[i].number())?;
    }
    Ok(numbers)
}

/// Releases the snapshots that the seat registered last, from the last one on.
fn release_each<D: Disk + Drop, R: Wait>(
    store: &Shared<D>,
    rt: &R,
    seat: &mut Seat<D>,
    mut live: Vec<Snapshot>,
)
    requires free { IsFree store.now.table seat.old }
    requires last { (front : List Registration) × (seat.old.knows.participant.registered ≡ front ++ live.items) }
    ensures { (front : List Registration) → seat.old.knows.participant.registered ≡ front ++ live.items
        → Continues store.now seat.old seat.new (record seat.old.knows.participant { registered = front }) }
{
    while let Some(snapshot) = live.pop() {
        release(store, rt, seat, snapshot);
    }
    live.destroy_empty();
}

/// Releases all that the seat pinned last.
pub(crate) fn unpin<D: Disk + Drop, R: Wait>(
    store: &Shared<D>,
    rt: &R,
    seat: &mut Seat<D>,
    pinned: Pinned,
)
    requires free { IsFree store.now.table seat.old }
    requires last { (front : List Registration) × (seat.old.knows.participant.registered ≡ front ++ pinned.floor ∷ pinned.live.items) }
    ensures { (front : List Registration) → seat.old.knows.participant.registered ≡ front ++ pinned.floor ∷ pinned.live.items
        → Continues store.now seat.old seat.new (record seat.old.knows.participant { registered = front }) }
{
    let Pinned { floor, live } = pinned;
    release_each(store, rt, seat, live);
    release(store, rt, seat, floor);
}
