//! Snapshots are registered and released.
ghost use Rattle.std.specs.Prelude.{◌≡◌, suc, true, ℕ, List, [], ◌∷◌, ◌++◌, length, unwrap_or, Some, MatchOption, IfOk, OnOk, OnErr, IsTrue};
ghost use Rattle.wp_model.specs.PreparedSets.{PreparedSets, IsSmallest, NonePrepared};
ghost use Rattle.wp_model.specs.Snapshots.{IsLive, NoOldCommits};
ghost use Rattle.wp_core.specs.Changes.{with_registered, with_released};
ghost use Rattle.wp_core.specs.Lists.{IsIn};
ghost use Rattle.wp_core.specs.Reading.{Registration};
ghost use Rattle.wp_core.specs.States as table;
ghost use Rattle.wp_core.specs.States.{Content};
ghost use Rattle.wp_core.specs.Turns.{snapshots_turn};
ghost use Rattle.wp_core.specs.Views.{old_flag_stays};
ghost use Rattle.wp_shared.specs.Calls.{Continues};
ghost use Rattle.wp_shared.specs.Notes.{is_under, GoesOn};
ghost use Rattle.wp_shared.specs.Seats.{IsFree, held_by, participant_of, seen_by};
ghost use Rattle.wp_shared.specs.Turns.{HoldsTurn};
ghost use Rattle.wp_read.specs.Registers.{ChangesSnapshots, HasLeast, IsTaken, IsTakenAt, IsTakenWithLeast, MayRegister, registered_by, registration_of, without_last};

use crate::registration::{NOTHING_KNOWN, Snapshot};
use crate::steps::{lower_old_flag, register, unregister, unregister_last};
use std::alloc::AllocError;
use std::sync::Wait;
use wp_model::Seq;
use wp_outside::Disk;
use wp_prepared::Prepared;
use wp_shared::{Seat, Shared};
use wp_snaps::Snaps;

/// Registers the number in the live snapshots. Its smallest is the next number where none is given; that there is no next
/// number is answered as want of memory, since no memory holds so many entries.
fn enter(snaps: &mut Snaps, number: Seq, smallest: Option<Seq>) -> Result<Snapshot, AllocError>
    ensures snapshot { IfOk result (λ s. s ≡ registration_of number smallest) }
    ensures registered { OnOk result (snaps.new ≡ with_registered snaps.old number) }
    ensures err { OnErr result (snaps.new ≡ snaps.old) }
{
    let next = number.checked_add(1).ok_or(AllocError)?;
    snaps.register(number)?;
    Ok(Snapshot {
        number,
        smallest: smallest.unwrap_or(next),
    })
}

/// Takes one registration of the snapshot out of the live snapshots.
fn withdraw(snaps: &mut Snaps, snapshot: Snapshot)
    requires { IsLive snaps.old snapshot.number }
    ensures { snaps.new ≡ with_released snaps.old snapshot.number }
{
    let Snapshot {
        number,
        smallest: _smallest,
    } = snapshot;
    snaps.release(number);
}

/// Registers the published number with this smallest, or with the next number where none is given, under the snapshots turn. A
/// refusal leaves no registration.
pub(crate) fn register_in<D: Disk + Drop>(
    store: &Shared<D>,
    seat: &mut Seat<D>,
    snaps: &mut Snaps,
    smallest: Option<Seq>,
) -> Result<Snapshot, AllocError>
    requires holds { (others : List Content) × (beneath : List ℕ) × HoldsTurn store.now seat.old (table.snapshots snaps.old) others beneath }
    requires smallest { MayRegister (held_by seat.old) smallest }
    ensures changes { (others : List Content) (beneath : List ℕ) → HoldsTurn store.now seat.old (table.snapshots snaps.old) others beneath
        → ChangesSnapshots store.now seat.old seat.new (registered_by (λ s. s ∷ []) result (participant_of seat.old)) snaps.new others beneath }
    ensures number { IfOk result (λ s. s.number ≡ length (seen_by seat.new)) }
    ensures smallest { IfOk result (λ s. s.smallest ≡ unwrap_or smallest (suc s.number)) }
    ensures taken { IfOk result (λ s. (taken : IsTakenAt store.now seat.old (seen_by seat.new) s snaps.old)
        × ((t : PreparedSets) → IsIn (table.prepared t) (held_by seat.old) → MatchOption smallest (NonePrepared t) (IsSmallest t) → HasLeast taken.world s)) }
    ensures entered { IfOk result (λ s. snaps.new ≡ with_registered snaps.old s.number) }
    ensures kept { NoOldCommits snaps.new → NoOldCommits snaps.old }
{
    let number = register(store, seat, smallest);
    match enter(snaps, number, smallest) {
        Ok(snapshot) => Ok(snapshot),
        Err(error) => {
            unregister_last(store, seat);
            Err(error)
        }
    }
}

/// Takes a snapshot: registers the published number, with the least number that is prepared then. Want of memory leaves no
/// registration.
pub fn snapshot<D: Disk + Drop, R: Wait>(
    store: &Shared<D>,
    rt: &R,
    seat: &mut Seat<D>,
) -> Result<Snapshot, AllocError>
    requires { IsFree store.now.table seat.old }
    ensures registered { IfOk result (λ s. Continues store.now seat.old seat.new (record (participant_of seat.old) { registered = seat.old.knows.participant.registered ++ s ∷ [] })) }
    ensures number { IfOk result (λ s. s.number ≡ length (seen_by seat.new)) }
    ensures taken { IfOk result (λ s. IsTakenWithLeast store.now seat.old (seen_by seat.new) s) }
    ensures refused { OnErr result (Continues store.now seat.old seat.new (participant_of seat.old)) }
{
    let tables = store.take_turn::<Prepared, R>(rt, seat);
    let mut snaps = store.take_turn::<Snaps, R>(rt, seat);
    let smallest = tables.smallest();
    let taken = register_in(store, seat, &mut snaps, smallest);
    store.give_turn::<Snaps>(seat, snaps);
    store.give_turn::<Prepared>(seat, tables);
    taken
}

/// Takes a snapshot that is released as soon as a few keys were read: without the prepared turn, so its smallest is 1, and each of
/// their versions is decided by loads. Want of memory leaves no registration.
pub fn brief_snapshot<D: Disk + Drop, R: Wait>(
    store: &Shared<D>,
    rt: &R,
    seat: &mut Seat<D>,
) -> Result<Snapshot, AllocError>
    requires { IsFree store.now.table seat.old }
    ensures registered { IfOk result (λ s. Continues store.now seat.old seat.new (record (participant_of seat.old) { registered = seat.old.knows.participant.registered ++ s ∷ [] })) }
    ensures number { IfOk result (λ s. s.number ≡ length (seen_by seat.new)) }
    ensures smallest { IfOk result (λ s. s.smallest ≡ 1) }
    ensures taken { IfOk result (λ s. IsTaken store.now seat.old (seen_by seat.new) s) }
    ensures refused { OnErr result (Continues store.now seat.old seat.new (participant_of seat.old)) }
{
    let mut snaps = store.take_turn::<Snaps, R>(rt, seat);
    let taken = register_in(store, seat, &mut snaps, Some(NOTHING_KNOWN));
    store.give_turn::<Snaps>(seat, snaps);
    taken
}

/// Takes a registration of the snapshot back, the last of equal ones, under the snapshots turn.
fn release_in<D: Disk + Drop>(
    store: &Shared<D>,
    seat: &mut Seat<D>,
    snaps: &mut Snaps,
    snapshot: Snapshot,
)
    requires registered { IsIn snapshot seat.old.knows.participant.registered }
    requires holds { HoldsTurn store.now seat.old (table.snapshots snaps.old) [] [] }
    ensures { (front : List Registration) × (back : List Registration) × (seat.old.knows.participant.registered ≡ front ++ snapshot ∷ back)
        × (IsIn snapshot back → ⊥)
        × ChangesSnapshots store.now seat.old seat.new (record (participant_of seat.old) { registered = front ++ back }) snaps.new [] []
        × (front ++ back ≡ without_last (Some snapshot) seat.old.knows.participant.registered)
        × (participant_of seat.new ≡ record (participant_of seat.old) { registered = front ++ back }) }
{
    unregister(store, seat, &snapshot);
    withdraw(snaps, snapshot);
}

/// Takes back the registration of the snapshot that was taken last, under the snapshots turn.
pub(crate) fn release_last<D: Disk + Drop>(
    store: &Shared<D>,
    seat: &mut Seat<D>,
    snaps: &mut Snaps,
    snapshot: Snapshot,
)
    requires last { (front : List Registration) × (seat.old.knows.participant.registered ≡ front ++ snapshot ∷ []) }
    requires holds { (others : List Content) × (beneath : List ℕ) × HoldsTurn store.now seat.old (table.snapshots snaps.old) others beneath }
    ensures changes { (front : List Registration) (others : List Content) (beneath : List ℕ) → seat.old.knows.participant.registered ≡ front ++ snapshot ∷ []
        → HoldsTurn store.now seat.old (table.snapshots snaps.old) others beneath
        → ChangesSnapshots store.now seat.old seat.new (record (participant_of seat.old) { registered = front }) snaps.new others beneath }
    ensures released { snaps.new ≡ with_released snaps.old snapshot.number }
{
    unregister_last(store, seat);
    withdraw(snaps, snapshot);
}

/// Stores the old-map flag as 0 where the old commit map became empty, which it was not while the flag was up.
fn settle_old_flag<D: Disk + Drop>(
    store: &Shared<D>,
    seat: &mut Seat<D>,
    snaps: &Snaps,
    was_empty: bool,
)
    requires seat { seat.old.table ≡ store.now.table }
    requires held { IsIn (table.snapshots snaps.now) (held_by seat.old) }
    requires down { was_empty ≡ true → IsIn (old_flag_stays 0) seat.old.knows.notes }
    ensures seat { GoesOn (is_under snapshots_turn) (held_by seat.old) seat.old.turns seat.old seat.new }
    ensures flag { NoOldCommits snaps.now → IsIn (old_flag_stays 0) seat.new.knows.notes }
{
    if was_empty {
        return;
    }
    if snaps.none_kept() {
        lower_old_flag(store, seat);
    }
}

/// Releases a snapshot of the seat's own. The last of equal registrations goes. It takes no memory.
pub fn release<D: Disk + Drop, R: Wait>(
    store: &Shared<D>,
    rt: &R,
    seat: &mut Seat<D>,
    snapshot: Snapshot,
)
    requires free { IsFree store.now.table seat.old }
    requires registered { IsIn snapshot seat.old.knows.participant.registered }
    ensures { (front : List Registration) × (back : List Registration) × (seat.old.knows.participant.registered ≡ front ++ snapshot ∷ back)
        × (IsIn snapshot back → ⊥)
        × Continues store.now seat.old seat.new (record (participant_of seat.old) { registered = front ++ back })
        × (front ++ back ≡ without_last (Some snapshot) seat.old.knows.participant.registered)
        × (participant_of seat.new ≡ record (participant_of seat.old) { registered = front ++ back }) }
{
    let mut snaps = store.take_turn::<Snaps, R>(rt, seat);
    let was_empty = snaps.none_kept();
    release_in(store, seat, &mut snaps, snapshot);
    settle_old_flag(store, seat, &snaps, was_empty);
    store.give_turn::<Snaps>(seat, snaps);
}
