//! Whether a version is visible at a snapshot.
ghost use Rattle.std.specs.Prelude.{◌≡◌, ◌≤◌, ◌<◌, ◌^◌, true, false};
ghost use Rattle.wp_core.specs.Lists.{IsIn};
ghost use Rattle.wp_core.specs.Sound.Reader.{IsRight};
ghost use Rattle.wp_core.specs.Sound.Snapshots.{has_versions_at};
ghost use Rattle.wp_judge.specs.declared.observed.Load as load;
ghost use Rattle.wp_shared.specs.Calls.{Continues};
ghost use Rattle.wp_shared.specs.Notes.{noting_only};
ghost use Rattle.wp_shared.specs.Seats.{IsFree, participant_of, seen_by};
ghost use Rattle.wp_read.specs.Decides.{Looks, DecidesFree};
ghost use Rattle.wp_read.specs.Reads.{Loads, IsNext, KeepsNotes};

use crate::answers::{Free, Look};
use crate::registration::Snapshot;
use crate::steps::{begin_reading, load, look_in_old_commits, look_in_prepared};
use std::sync::Wait;
use wp_judge::{Asked, Load, Observed, ask};
use wp_model::Seq;
use wp_outside::Disk;
use wp_prepared::Prepared;
use wp_shared::{Seat, Shared};
use wp_snaps::Snaps;

/// Decides the version `p`, as far as its snapshot, its word and one load of the bound tell. It takes no turn and no memory.
/// A look is of a version: where the history reaches up to it, an entry with versions has that number.
pub fn look<D: Disk + Drop>(
    store: &Shared<D>,
    seat: &mut Seat<D>,
    p: Seq,
    snapshot: &Snapshot,
) -> Look
    requires free { IsFree store.now.table seat.old }
    requires registered { IsIn snapshot.now seat.old.knows.participant.registered }
    requires version { p ≤ snapshot.now.number → has_versions_at (seen_by seat.old) p ≡ true }
    ensures { Looks store.now seat.old seat.new p snapshot.now result }
{
    let bits = store.bits();
    let mut seen = begin_reading(store, seat, bits, p, snapshot);
    match ask(&seen) {
        Asked::Answer(visible) => return Look::Decided(visible),
        Asked::Load(word) => load(store, seat, &mut seen, word),
    }
    match ask(&seen) {
        Asked::Answer(visible) => return Look::Decided(visible),
        Asked::Load(max) => load(store, seat, &mut seen, max),
    }
    match ask(&seen) {
        Asked::Answer(visible) => Look::Decided(visible),
        Asked::Load(_) => Look::Ask {
            word: seen.first_word.unwrap(),
            max: seen.first_max.unwrap(),
        },
    }
}

/// Decides the version `p`, as far as loads tell that need no turn. It takes no memory.
pub fn decide_free<D: Disk + Drop>(
    store: &Shared<D>,
    seat: &mut Seat<D>,
    p: Seq,
    snapshot: &Snapshot,
) -> Free
    requires seat { seat.old.table ≡ store.now.table }
    requires registered { IsIn snapshot.now seat.old.knows.participant.registered }
    requires version { p ≤ snapshot.now.number → has_versions_at (seen_by seat.old) p ≡ true }
    ensures { DecidesFree store.now seat.old seat.new p snapshot.now result }
{
    let bits = store.bits();
    let mut seen = begin_reading(store, seat, bits, p, snapshot);
    'loads: loop {
        match ask(&seen) {
            Asked::Answer(visible) => return Free::Decided(visible),
            Asked::Load(which) => match which {
                Load::InPrepared => return Free::Prepared(seen),
                Load::IsOldCommit => return Free::Snapshots(seen),
                _ => load(store, seat, &mut seen, which),
            },
        }
    }
}

/// Takes the prepared turn for one look into its sets.
fn load_prepared<D: Disk + Drop, R: Wait>(
    store: &Shared<D>,
    rt: &R,
    seat: &mut Seat<D>,
    seen: &mut Observed,
)
    requires free { IsFree store.now.table seat.old }
    requires next { IsNext seat.old seen.old Load.InPrepared }
    ensures loads { Loads store.now Load.InPrepared (noting_only seat.new.knows.notes seat.old) seat.new seen.old seen.new }
    ensures notes { KeepsNotes seat.old.knows.notes seat.new.knows.notes }
{
    let tables = store.take_turn::<Prepared, R>(rt, seat);
    look_in_prepared(store, seat, seen, &tables);
    store.give_turn::<Prepared>(seat, tables);
}

/// Takes the snapshots turn for one look into the old commit map.
fn load_old_commits<D: Disk + Drop, R: Wait>(
    store: &Shared<D>,
    rt: &R,
    seat: &mut Seat<D>,
    seen: &mut Observed,
)
    requires free { IsFree store.now.table seat.old }
    requires next { IsNext seat.old seen.old Load.IsOldCommit }
    ensures loads { Loads store.now Load.IsOldCommit (noting_only seat.new.knows.notes seat.old) seat.new seen.old seen.new }
    ensures notes { KeepsNotes seat.old.knows.notes seat.new.knows.notes }
{
    let snaps = store.take_turn::<Snaps, R>(rt, seat);
    look_in_old_commits(store, seat, seen, &snaps);
    store.give_turn::<Snaps>(seat, snaps);
}

/// Makes the next load of the seat's reading, under a turn where it needs one.
fn load_any<D: Disk + Drop, R: Wait>(
    store: &Shared<D>,
    rt: &R,
    seat: &mut Seat<D>,
    seen: &mut Observed,
    which: Load,
)
    requires free { IsFree store.now.table seat.old }
    requires next { IsNext seat.old seen.old which }
    ensures loads { Loads store.now which (noting_only seat.new.knows.notes seat.old) seat.new seen.old seen.new }
    ensures notes { KeepsNotes seat.old.knows.notes seat.new.knows.notes }
{
    match which {
        Load::InPrepared => load_prepared(store, rt, seat, seen),
        Load::IsOldCommit => load_old_commits(store, rt, seat, seen),
        _ => load(store, seat, seen, which),
    }
}

/// Goes on with the seat's reading until it has the answer.
fn decide<D: Disk + Drop, R: Wait>(
    store: &Shared<D>,
    rt: &R,
    seat: &mut Seat<D>,
    start: Observed,
) -> bool
    requires free { IsFree store.now.table seat.old }
    requires next { (which : load.Load) × IsNext seat.old start which }
    requires cells { (2 ^ start.bits ≡ store.now.cells) × (start.bits ≤ 16) }
    ensures continues { Continues store.now seat.old seat.new (participant_of seat.old) }
    ensures same { participant_of seat.new ≡ participant_of seat.old }
    ensures right { IsRight (seen_by seat.old) start.version start.snapshot result }
{
    let mut seen = start;
    'loads: loop {
        match ask(&seen) {
            Asked::Answer(visible) => return visible,
            Asked::Load(which) => load_any(store, rt, seat, &mut seen, which),
        }
    }
}

/// Decides the version `p`. It takes no memory, and a turn only for a look that loads can't rule out.
pub fn visible<D: Disk + Drop, R: Wait>(
    store: &Shared<D>,
    rt: &R,
    seat: &mut Seat<D>,
    p: Seq,
    snapshot: &Snapshot,
) -> bool
    requires free { IsFree store.now.table seat.old }
    requires registered { IsIn snapshot.now seat.old.knows.participant.registered }
    requires version { p ≤ snapshot.now.number → has_versions_at (seen_by seat.old) p ≡ true }
    ensures continues { Continues store.now seat.old seat.new (participant_of seat.old) }
    ensures same { participant_of seat.new ≡ participant_of seat.old }
    ensures right { IsRight (seen_by seat.old) p snapshot.now.number result }
    ensures above { snapshot.now.number < p → result ≡ false }
{
    match decide_free(store, seat, p, snapshot) {
        Free::Decided(visible) => visible,
        Free::Prepared(seen) => decide(store, rt, seat, seen),
        Free::Snapshots(seen) => decide(store, rt, seat, seen),
    }
}
