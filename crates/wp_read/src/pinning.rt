//! All that is live is registered once more.
ghost use Rattle.std.specs.Prelude.{◌≡◌, true, List, [], ◌∷◌, ◌++◌, length, map, take, IfOk, OnOk, OnErr};
ghost use Rattle.wp_model.specs.Snapshots.{Snapshots, NoOldCommits};
ghost use Rattle.wp_core.specs.Lists.{IsIn};
ghost use Rattle.wp_core.specs.States as table;
ghost use Rattle.wp_core.specs.Views.{live_listed};
ghost use Rattle.wp_shared.specs.Calls.{Continues};
ghost use Rattle.wp_shared.specs.Seats.{IsFree, participant_of, seen_by};
ghost use Rattle.wp_shared.specs.Turns.{HoldsTurn};
ghost use Rattle.wp_read.specs.Registers.{AreCounted, AreLive, ChangesSnapshots, IsPinned, again, numbers_of, registered_by, with_each};

use crate::registering::{register_in, release_last};
use crate::registration::{NOTHING_KNOWN, Pinned, Snapshot};
use crate::steps::register_again;
use std::alloc::{AllocError, Global};
use std::sync::Wait;
use wp_model::Seq;
use wp_outside::Disk;
use wp_prepared::Prepared;
use wp_shared::{Seat, Shared};
use wp_snaps::Snaps;

/// The live numbers, ascending.
fn live_numbers(alloc: Global, snaps: &Snaps) -> Result<Vec<Seq>, AllocError>
    ensures { IfOk result (λ numbers. AreLive snaps.now numbers.items) }
{
    let mut numbers = Vec::new(alloc);
    for number in snaps.live() {
        numbers.push(number)?;
    }
    Ok(numbers)
}

/// Takes one registration of each of the numbers back, the last one first.
fn release_each(snaps: &mut Snaps, numbers: &[Seq])
    requires { (m : Snapshots) × AreCounted m × (snaps.old ≡ with_each m numbers.now) }
    ensures { (m : Snapshots) → AreCounted m → snaps.old ≡ with_each m numbers.now → snaps.new ≡ m }
{
    let mut left = numbers.len();
    while left > 0 {
        left -= 1;
        snaps.release(numbers[left]);
    }
}

/// Registers each of the numbers, or none.
fn register_each(snaps: &mut Snaps, numbers: &[Seq]) -> Result<(), AllocError>
    requires { AreCounted snaps.old }
    ensures ok { OnOk result (snaps.new ≡ with_each snaps.old numbers.now) }
    ensures err { OnErr result (snaps.new ≡ snaps.old) }
{
    for i in 0..numbers.len() {
        if let Err(error) = snaps.register(numbers[i]) {
            release_each(snaps, &numbers[..i]);
            return Err(error);
        }
    }
    Ok(())
}

/// The snapshots with these numbers, which are registered once more.
fn snapshots_at(alloc: Global, numbers: &[Seq]) -> Result<Vec<Snapshot>, AllocError>
    ensures { IfOk result (λ live. live.items ≡ map again numbers.now) }
{
    let mut live = Vec::with_capacity(alloc, numbers.len())?;
    for number in numbers {
        live.push_reserved(Snapshot {
            number: *number,
            smallest: NOTHING_KNOWN,
        });
    }
    Ok(live)
}

/// Registers each of the numbers, or none, and gives their snapshots.
fn enter_each(
    alloc: Global,
    snaps: &mut Snaps,
    numbers: &[Seq],
) -> Result<Vec<Snapshot>, AllocError>
    requires { AreCounted snaps.old }
    ensures live { IfOk result (λ live. live.items ≡ map again numbers.now) }
    ensures ok { OnOk result (snaps.new ≡ with_each snaps.old numbers.now) }
    ensures err { OnErr result (snaps.new ≡ snaps.old) }
{
    register_each(snaps, numbers)?;
    match snapshots_at(alloc, numbers) {
        Ok(live) => Ok(live),
        Err(error) => {
            release_each(snaps, numbers);
            Err(error)
        }
    }
}

/// Registers the published number and, once more, all that was live, under the prepared turn and the snapshots turn. A refusal
/// leaves none of these registrations.
fn pin_in<D: Disk + Drop>(
    store: &Shared<D>,
    alloc: Global,
    seat: &mut Seat<D>,
    tables: &Prepared,
    snaps: &mut Snaps,
) -> Result<Pinned, AllocError>
    requires holds { HoldsTurn store.now seat.old (table.snapshots snaps.old) (table.prepared tables.now ∷ []) (1 ∷ []) }
    ensures changes { ChangesSnapshots store.now seat.old seat.new (registered_by (λ p. p.floor ∷ p.live.items) result (participant_of seat.old)) snaps.new (table.prepared tables.now ∷ []) (1 ∷ []) }
    ensures number { IfOk result (λ p. p.floor.number ≡ length (seen_by seat.new)) }
    ensures pinned { IfOk result (λ p. IsPinned store.now seat.old (seen_by seat.new) p.floor p.live.items) }
    ensures listed { IfOk result (λ p. IsIn (live_listed p.floor.number (numbers_of p.live.items)) seat.new.knows.notes) }
    ensures kept { NoOldCommits snaps.new → NoOldCommits snaps.old }
{
    let found = live_numbers(alloc, snaps)?;
    let numbers: &[Seq] = &found;
    let floor = register_in(store, seat, snaps, tables.smallest())?;
    match enter_each(alloc, snaps, numbers) {
        Ok(live) => {
            register_again(store, seat, floor.number(), numbers);
            Ok(Pinned { floor, live })
        }
        Err(error) => {
            release_last(store, seat, snaps, floor);
            Err(error)
        }
    }
}

/// Registers the published number as a floor and, once more, each number that was live before, all at one moment. It is noted that
/// these and the numbers from the floor on are all that is live. Want of memory leaves none of these registrations.
pub fn pin_all<D: Disk + Drop, R: Wait>(
    store: &Shared<D>,
    rt: &R,
    alloc: Global,
    seat: &mut Seat<D>,
) -> Result<Pinned, AllocError>
    requires { IsFree store.now.table seat.old }
    ensures registered { IfOk result (λ p. Continues store.now seat.old seat.new (record (participant_of seat.old) { registered = seat.old.knows.participant.registered ++ p.floor ∷ p.live.items })) }
    ensures number { IfOk result (λ p. p.floor.number ≡ length (seen_by seat.new)) }
    ensures pinned { IfOk result (λ p. IsPinned store.now seat.old (seen_by seat.new) p.floor p.live.items) }
    ensures listed { IfOk result (λ p. IsIn (live_listed p.floor.number (numbers_of p.live.items)) seat.new.knows.notes) }
    ensures refused { OnErr result (Continues store.now seat.old seat.new (participant_of seat.old)) }
{
    let tables = store.take_turn::<Prepared, R>(rt, seat);
    let mut snaps = store.take_turn::<Snaps, R>(rt, seat);
    let pinned = pin_in(store, alloc, seat, &tables, &mut snaps);
    store.give_turn::<Snaps>(seat, snaps);
    store.give_turn::<Prepared>(seat, tables);
    pinned
}
