//! One call for each step of the machine that a reader makes. Each says what it leaves of the seat.
//!
//! The steps at a load are picked where the call is made, and a pick can name only what is passed to that call. So a step with
//! an argument has a helper that is passed the argument and makes the load.
ghost use Rattle.std.specs.FinMap as finite;
ghost use Rattle.std.specs.FinSet as set;
ghost use Rattle.std.specs.Prelude.{◌≡◌, ◌≤◌, ◌<◌, ◌^◌, suc, true, List, [], ◌∷◌, ◌++◌, length, unwrap_or};
ghost use Rattle.wp_core.specs.Changes.{found_in};
ghost use Rattle.wp_core.specs.Lists.{IsIn};
ghost use Rattle.wp_core.specs.Reading.{Registration, reads};
ghost use Rattle.wp_core.specs.Sound.Snapshots.{has_versions_at};
ghost use Rattle.wp_core.specs.Steps as step;
ghost use Rattle.wp_core.specs.States as table;
ghost use Rattle.wp_core.specs.World.{World};
ghost use Rattle.wp_shared.specs.Notes.{is_under, GoesOn};
ghost use Rattle.wp_shared.specs.Seats.{place_at, held_by, seen_by};
ghost use Rattle.wp_model.specs.Snapshots.{Snapshots, NoOldCommits};
ghost use Rattle.wp_core.specs.States.{Content};
ghost use Rattle.wp_core.specs.Turns.{snapshots_turn};
ghost use Rattle.wp_core.specs.Views.{old_flag_stays};
ghost use Rattle.wp_rule.specs.Words.{IsWordOf};
ghost use Rattle.wp_read.specs.Reads.{Reads, Loads, IsNext, IsOfWord, IsWordFor, with_word};
ghost use Rattle.wp_read.specs.Registers.{MayPin, MayRegister, Registers, Unregisters, before_last, behind_last, pinned, pinning};

use crate::registration::Snapshot;
use std::marker::Brand;
use wp_judge::{InPrepared, Load, Observed};
use wp_model::Seq;
use wp_outside::Disk;
use wp_prepared::Prepared;
use wp_rule::{Moves, Word};
use wp_shared::{Seat, Shared};
use wp_snaps::Snaps;

fn begin<D: Disk + Drop, J: Moves>(
    store: &Shared<D>,
    seat: &mut Seat<D>,
    bits: u32,
    p: Seq,
    snapshot: &Snapshot,
)
    requires seat { (seat.old.table ≡ store.now.table) × (J.place ≡ place_at store.now seat.old.by) }
    requires steps { J.steps ≡ (λ w. step.begin_reading bits p snapshot.now ∷ []) }
    requires cells { 2 ^ bits ≡ store.now.cells }
    requires registered { IsIn snapshot.now seat.old.knows.participant.registered }
    requires version { p ≤ snapshot.now.number → has_versions_at (seen_by seat.old) p ≡ true }
    ensures { Reads store.now seat.old seat.new (reads bits p snapshot.now) }
{
    store.make::<J>(seat);
}

/// Begins to read the version `p` at the snapshot, by words of a cache of so many bits.
pub(crate) fn begin_reading<D: Disk + Drop>(
    store: &Shared<D>,
    seat: &mut Seat<D>,
    bits: u32,
    p: Seq,
    snapshot: &Snapshot,
) -> Observed
    requires seat { seat.old.table ≡ store.now.table }
    requires cells { 2 ^ bits ≡ store.now.cells }
    requires registered { IsIn snapshot.now seat.old.knows.participant.registered }
    requires version { p ≤ snapshot.now.number → has_versions_at (seen_by seat.old) p ≡ true }
    ensures reads { Reads store.now seat.old seat.new result }
    ensures nothing_loaded { result ≡ reads bits p snapshot.now }
{
    begin::<D, Brand>(store, seat, bits, p, snapshot);
    Observed {
        bits,
        version: p,
        snapshot: snapshot.number(),
        smallest: snapshot.smallest(),
        first_word: None,
        first_max: None,
        delayed_flag: None,
        in_prepared: None,
        second_word: None,
        second_max: None,
        old_flag: None,
        is_old_commit: None,
    }
}

/// The word that the load of a version is of.
fn word_of<D: Disk + Drop>(store: &Shared<D>, version: Seq, which: Load) -> Word
    requires { IsOfWord which }
    ensures word { IsWordFor store.now.cells version which result }
    ensures in_table { IsWordOf store.now.cells result }
{
    match which {
        Load::FirstWord | Load::SecondWord => Word::Cell(store.place_of(version)),
        Load::FirstMax | Load::SecondMax => Word::Max,
        Load::DelayedFlag => Word::DelayedFlag,
        Load::OldFlag => Word::OldFlag,
        Load::InPrepared | Load::IsOldCommit => unreachable!(),
    }
}

/// Puts down what was loaded.
fn put_down(seen: &mut Observed, which: Load, found: u64)
    requires { IsOfWord which }
    ensures { seen.new ≡ with_word which found seen.old }
{
    match which {
        Load::FirstWord => seen.first_word = Some(found),
        Load::FirstMax => seen.first_max = Some(found),
        Load::DelayedFlag => seen.delayed_flag = Some(found),
        Load::SecondWord => seen.second_word = Some(found),
        Load::SecondMax => seen.second_max = Some(found),
        Load::OldFlag => seen.old_flag = Some(found),
        Load::InPrepared | Load::IsOldCommit => unreachable!(),
    }
}

fn load_with<D: Disk + Drop, J: Moves>(
    store: &Shared<D>,
    seat: &mut Seat<D>,
    seen: &mut Observed,
    which: Load,
)
    requires seat { (seat.old.table ≡ store.now.table) × (J.place ≡ place_at store.now seat.old.by) }
    requires steps { J.steps ≡ (λ w. step.load which ∷ []) }
    requires next { IsNext seat.old seen.old which }
    requires word { IsOfWord which }
    ensures { Loads store.now which seat.old seat.new seen.old seen.new }
{
    let word = word_of(store, seen.version, which);
    let found = store.load::<J>(seat, word);
    put_down(seen, which, found);
}

/// Makes the next load of the seat's reading, which is of a word.
pub(crate) fn load<D: Disk + Drop>(
    store: &Shared<D>,
    seat: &mut Seat<D>,
    seen: &mut Observed,
    which: Load,
)
    requires seat { seat.old.table ≡ store.now.table }
    requires next { IsNext seat.old seen.old which }
    requires word { IsOfWord which }
    ensures { Loads store.now which seat.old seat.new seen.old seen.new }
{
    load_with::<D, Brand>(store, seat, seen, which);
}

/// What the prepared sets say of the version.
fn found(tables: &Prepared, version: Seq) -> InPrepared
    ensures { result ≡ found_in (set.contains tables.now.delayed version) (finite.get tables.now.delayed_commits version) }
{
    match tables.commit_of(version) {
        Some(c) => InPrepared::Decided(c),
        None if tables.delayed(version) => InPrepared::Delayed,
        None => InPrepared::Absent,
    }
}

/// Looks into the prepared sets, which the seat holds.
pub(crate) fn look_in_prepared<D: Disk + Drop>(
    store: &Shared<D>,
    seat: &mut Seat<D>,
    seen: &mut Observed,
    tables: &Prepared,
)
    requires seat { seat.old.table ≡ store.now.table }
    requires next { IsNext seat.old seen.old Load.InPrepared }
    requires held { IsIn (table.prepared tables.now) (held_by seat.old) }
    ensures { Loads store.now Load.InPrepared seat.old seat.new seen.old seen.new }
{
    store.make::<Brand>(seat);
    seen.in_prepared = Some(found(tables, seen.version));
}

/// Looks into the old commit map, which the seat holds.
pub(crate) fn look_in_old_commits<D: Disk + Drop>(
    store: &Shared<D>,
    seat: &mut Seat<D>,
    seen: &mut Observed,
    snaps: &Snaps,
)
    requires seat { seat.old.table ≡ store.now.table }
    requires next { IsNext seat.old seen.old Load.IsOldCommit }
    requires held { IsIn (table.snapshots snaps.now) (held_by seat.old) }
    ensures { Loads store.now Load.IsOldCommit seat.old seat.new seen.old seen.new }
{
    store.make::<Brand>(seat);
    let shows = snaps.shows(seen.snapshot, seen.version);
    seen.is_old_commit = Some(!shows);
}

fn register_with<D: Disk + Drop, J: Moves>(
    store: &Shared<D>,
    seat: &mut Seat<D>,
    smallest: Option<Seq>,
) -> Seq
    requires seat { (seat.old.table ≡ store.now.table) × (J.place ≡ place_at store.now seat.old.by) }
    requires steps { J.steps ≡ (λ w. step.register (unwrap_or smallest (suc (length w.writes.history))) ∷ []) }
    requires snapshots { (m : Snapshots) × IsIn (table.snapshots m) (held_by seat.old) }
    requires smallest { MayRegister (held_by seat.old) smallest }
    ensures { (m : Snapshots) → IsIn (table.snapshots m) (held_by seat.old) → Registers store.now seat.old seat.new result smallest m }
{
    store.make::<J>(seat)
}

/// Loads the published number, and registers it with this smallest, or with the next number where none is given. The seat holds the
/// snapshots turn, and the prepared turn too where the smallest is not 1.
pub(crate) fn register<D: Disk + Drop>(
    store: &Shared<D>,
    seat: &mut Seat<D>,
    smallest: Option<Seq>,
) -> Seq
    requires seat { seat.old.table ≡ store.now.table }
    requires snapshots { (m : Snapshots) × IsIn (table.snapshots m) (held_by seat.old) }
    requires smallest { MayRegister (held_by seat.old) smallest }
    ensures { (m : Snapshots) → IsIn (table.snapshots m) (held_by seat.old) → Registers store.now seat.old seat.new result smallest m }
{
    register_with::<D, Brand>(store, seat, smallest)
}

fn register_again_with<D: Disk + Drop, J: Moves>(
    store: &Shared<D>,
    seat: &mut Seat<D>,
    floor: Seq,
    numbers: &[Seq],
)
    requires seat { (seat.old.table ≡ store.now.table) × (J.place ≡ place_at store.now seat.old.by) }
    requires steps { J.steps ≡ (λ w. pinning floor numbers.now) }
    requires live { seat.old.knows.live ≡ true }
    requires held { (m : Snapshots) × (others : List Content) × (held_by seat.old ≡ table.snapshots m ∷ others)
        × MayPin (seen_by seat.old) m floor numbers.now }
    ensures { (m : Snapshots) (others : List Content) → held_by seat.old ≡ table.snapshots m ∷ others → seat.new ≡ pinned seat.old floor numbers.now m others }
{
    store.make::<J>(seat);
}

/// Registers each of the numbers once more, which with those from the floor on are all that is live, and notes that.
pub(crate) fn register_again<D: Disk + Drop>(
    store: &Shared<D>,
    seat: &mut Seat<D>,
    floor: Seq,
    numbers: &[Seq],
)
    requires seat { seat.old.table ≡ store.now.table }
    requires live { seat.old.knows.live ≡ true }
    requires held { (m : Snapshots) × (others : List Content) × (held_by seat.old ≡ table.snapshots m ∷ others)
        × MayPin (seen_by seat.old) m floor numbers.now }
    ensures { (m : Snapshots) (others : List Content) → held_by seat.old ≡ table.snapshots m ∷ others → seat.new ≡ pinned seat.old floor numbers.now m others }
{
    register_again_with::<D, Brand>(store, seat, floor, numbers)
}

fn unregister_at<D: Disk + Drop, J: Moves>(store: &Shared<D>, seat: &mut Seat<D>)
    requires seat { (seat.old.table ≡ store.now.table) × (J.place ≡ place_at store.now seat.old.by) }
    requires steps { (front : List Registration) × (back : List Registration) × (r : Registration) × (J.steps ≡ (λ w. step.release front r back ∷ []))
        × (seat.old.knows.participant.registered ≡ front ++ r ∷ back) }
    requires snapshots { (m : Snapshots) × IsIn (table.snapshots m) (held_by seat.old) }
    ensures { (front back : List Registration) (r : Registration) (m : Snapshots) → J.steps ≡ (λ w. step.release front r back ∷ [])
        → seat.old.knows.participant.registered ≡ front ++ r ∷ back → IsIn (table.snapshots m) (held_by seat.old)
        → Unregisters seat.old seat.new front back r m }
{
    store.make::<J>(seat);
}

/// Takes back the registration that the seat made last.
pub(crate) fn unregister_last<D: Disk + Drop>(store: &Shared<D>, seat: &mut Seat<D>)
    requires seat { seat.old.table ≡ store.now.table }
    requires last { (front : List Registration) × (r : Registration) × (seat.old.knows.participant.registered ≡ front ++ r ∷ []) }
    requires snapshots { (m : Snapshots) × IsIn (table.snapshots m) (held_by seat.old) }
    ensures { (front : List Registration) (r : Registration) (m : Snapshots) → seat.old.knows.participant.registered ≡ front ++ r ∷ []
        → IsIn (table.snapshots m) (held_by seat.old) → Unregisters seat.old seat.new front [] r m }
{
    unregister_at::<D, Brand>(store, seat);
}

fn unregister_with<D: Disk + Drop, J: Moves>(
    store: &Shared<D>,
    seat: &mut Seat<D>,
    snapshot: &Snapshot,
)
    requires seat { (seat.old.table ≡ store.now.table) × (J.place ≡ place_at store.now seat.old.by) }
    requires steps { J.steps ≡ (λ w. step.release (before_last snapshot.now seat.old.knows.participant.registered) snapshot.now (behind_last snapshot.now seat.old.knows.participant.registered) ∷ []) }
    requires registered { IsIn snapshot.now seat.old.knows.participant.registered }
    requires snapshots { (m : Snapshots) × IsIn (table.snapshots m) (held_by seat.old) }
    ensures { (m : Snapshots) → IsIn (table.snapshots m) (held_by seat.old)
        → Unregisters seat.old seat.new (before_last snapshot.now seat.old.knows.participant.registered) (behind_last snapshot.now seat.old.knows.participant.registered) snapshot.now m }
{
    unregister_at::<D, J>(store, seat);
}

/// Takes back a registration of the snapshot, the last of equal ones.
pub(crate) fn unregister<D: Disk + Drop>(store: &Shared<D>, seat: &mut Seat<D>, snapshot: &Snapshot)
    requires seat { seat.old.table ≡ store.now.table }
    requires registered { IsIn snapshot.now seat.old.knows.participant.registered }
    requires snapshots { (m : Snapshots) × IsIn (table.snapshots m) (held_by seat.old) }
    ensures { (m : Snapshots) → IsIn (table.snapshots m) (held_by seat.old)
        → Unregisters seat.old seat.new (before_last snapshot.now seat.old.knows.participant.registered) (behind_last snapshot.now seat.old.knows.participant.registered) snapshot.now m }
{
    unregister_with::<D, Brand>(store, seat, snapshot);
}

/// Stores the old-map flag as 0, where the old commit map is empty.
pub(crate) fn lower_old_flag<D: Disk + Drop>(store: &Shared<D>, seat: &mut Seat<D>)
    requires seat { seat.old.table ≡ store.now.table }
    requires none_kept { (m : Snapshots) × IsIn (table.snapshots m) (held_by seat.old) × NoOldCommits m }
    ensures seat { GoesOn (is_under snapshots_turn) (held_by seat.old) seat.old.turns seat.old seat.new }
    ensures flag { IsIn (old_flag_stays 0) seat.new.knows.notes }
{
    store.store_old_flag(seat, 0);
}
