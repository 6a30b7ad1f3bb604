//! A compaction of all tables.
ghost use Rattle.std.specs.Prelude.{◌≡◌, length, IfErr};
ghost use Rattle.wp_core.specs.Lists.{IsIn};
ghost use Rattle.wp_rule.specs.Knows.{KnowsTables};
ghost use Rattle.wp_shared.specs.Calls.{Continues, GoesOnAs};
ghost use Rattle.wp_shared.specs.Seats.{IsFree};
ghost use Rattle.wp_read.specs.Registers.{numbers_of};
ghost use Rattle.wp_maint.specs.Calls.{InstalledNone, KeepsEach, RefusesBeforeDevices};
ghost use Rattle.wp_compact.specs.Calls.{Compacts, HasPinned};
ghost use Rattle.wp_compact.specs.Compaction.{HadDecision, HasDecided, IsDecision, IsOpenedBase, IsPin, KnowsLive, EndsRoundFrom, EndsRound, InRound};
ghost use Rattle.wp_maint.specs.Holding.{HoldsEdits};

use crate::decided::{Decided, decide_tables};
use crate::merging::merge;
use crate::pins::unpin;
use crate::unchanged::are_unchanged;
use std::alloc::Global;
use std::sync::Wait;
use wp_maint::{Done, MaintError, find_held};
use wp_outside::Disk;
use wp_read::{Pinned, pin_all};
use wp_shared::{Seat, Shared, VersionSet};

/// Compacts, under the tables turn, or begins again where the tables are others than those that were decided.
fn compact_in<D: Disk + Drop, R: Wait>(
    store: &Shared<D>,
    rt: &R,
    alloc: Global,
    seat: &mut Seat<D>,
    edits: &mut VersionSet<D>,
    pinned: &Pinned,
    decided: Decided,
) -> Option<Result<Done, MaintError>>
    requires holds { HoldsEdits store.now seat.old edits.old }
    requires in_step { KnowsTables seat.old.knows edits.old.state.last }
    requires decided { HasDecided seat.old.knows pinned.now.floor pinned.now.live.items decided.bases decided.versions decided.committed.items }
    requires opened { IsOpenedBase store.now decided.bases.opened }
    ensures holds { HoldsEdits store.now seat.new edits.new }
    ensures in_step { KnowsTables seat.new.knows edits.new.state.last }
    ensures says { EndsRoundFrom (GoesOnAs seat.old seat.new) (IsPin pinned.now.floor.number (numbers_of pinned.now.live.items)) (IsDecision pinned.now.floor.number decided.bases decided.versions) store.now seat.old edits.old.state result seat.new }
    ensures untouched { InRound (edits.new ≡ edits.old) result }
{
    if edits.is_halted() {
        find_held(store, seat, edits);
        return Some(Err(MaintError::TablesStopped(edits.flushed())));
    }
    if edits.table_count() < 2 {
        find_held(store, seat, edits);
        return Some(Err(MaintError::Nothing));
    }
    match are_unchanged(store, rt, alloc, seat, edits, pinned, &decided) {
        Ok(true) => Some(merge(store, rt, alloc, seat, edits, pinned, decided)),
        Ok(false) => None,
        Err(_) => Some(Err(MaintError::Memory)),
    }
}

/// Compacts with what the seat pinned, or begins again. The versions are decided before the tables turn is taken.
fn compact_pinned<D: Disk + Drop, R: Wait>(
    store: &Shared<D>,
    rt: &R,
    alloc: Global,
    seat: &mut Seat<D>,
    pinned: &Pinned,
) -> Option<Result<Done, MaintError>>
    requires free { IsFree store.now.table seat.old }
    requires floor { IsIn pinned.now.floor seat.old.knows.participant.registered × (pinned.now.floor.number ≡ length seat.old.knows.participant.seen) }
    requires live { KnowsLive seat.old.knows pinned.now.floor.number pinned.now.live.items }
    ensures says { EndsRound (Continues store.now seat.old seat.new) (IsPin pinned.now.floor.number (numbers_of pinned.now.live.items)) (HadDecision store.now seat.old seat.new) store.now seat.old result seat.new }
    ensures untouched { InRound (KeepsEach store.now seat.old seat.new) result }
{
    let Ok(decided) = decide_tables(store, rt, alloc, seat, pinned) else {
        return Some(Err(MaintError::Memory));
    };
    let mut edits = store.take_turn::<VersionSet<D>, R>(rt, seat);
    edits.devices_agree();
    let result = compact_in(store, rt, alloc, seat, &mut edits, pinned, decided);
    edits.devices_agree();
    store.give_turn::<VersionSet<D>>(seat, edits);
    result
}

/// One round of a compaction: its answer, or none where other calls changed the tables meanwhile.
fn try_compact<D: Disk + Drop, R: Wait>(
    store: &Shared<D>,
    rt: &R,
    alloc: Global,
    seat: &mut Seat<D>,
) -> Option<Result<Done, MaintError>>
    requires { IsFree store.now.table seat.old }
    ensures says { EndsRound (Continues store.now seat.old seat.new) (HasPinned store.now seat.old seat.new) (HadDecision store.now seat.old seat.new) store.now seat.old result seat.new }
    ensures untouched { InRound (KeepsEach store.now seat.old seat.new) result }
{
    match pin_all(store, rt, alloc, seat) {
        Ok(pinned) => {
            let result = compact_pinned(store, rt, alloc, seat, &pinned);
            unpin(store, rt, seat, pinned);
            result
        }
        Err(_) => Some(Err(MaintError::Memory)),
    }
}

/// Writes one table in place of all, or none where no version is left: without the versions that no reader of the published
/// number needs, nor one of a live snapshot, nor one at the log's base now or as the store was opened. Nothing is answered where there are fewer than two tables.
/// All memory is taken before the first call of a device.
pub fn compact<D: Disk + Drop, R: Wait>(
    store: &Shared<D>,
    rt: &R,
    alloc: Global,
    seat: &mut Seat<D>,
) -> Result<Done, MaintError>
    requires { IsFree store.now.table seat.old }
    ensures answers { Compacts store.now seat.old result seat.new }
    ensures before_devices { IfErr result (λ why. RefusesBeforeDevices (KeepsEach store.now seat.old seat.new) seat.old why seat.new) }
    ensures behind_install { IfErr result (λ _. InstalledNone seat.old.knows.participant seat.new.knows.participant) }
{
    for _ in rt.forever() {
        if let Some(result) = try_compact(store, rt, alloc, seat) {
            return result;
        }
    }
    unreachable!()
}
