//! The steps of the machine that the calls make, each as what it leaves of the seat.
ghost use Rattle.std.specs.Prelude.{◌≡◌, ◌≢◌, ◌⊎◌, ◌≤◌, ◌<◌, ℕ, true, false, List, [], ◌∷◌, length, Some, IfSome, OnOk, MatchBool, MatchOption};
ghost use Rattle.std.specs.Option.{option_map};
ghost use Rattle.wp_judge.specs.Words.{commit_pair, numbers_of, fits};
ghost use Rattle.wp_model.specs.Decision.{decision_of};
ghost use Rattle.wp_model.specs.PreparedSets.{NoneDelayed};
ghost use Rattle.wp_model.specs.Snapshots.{NoOldCommits};
ghost use Rattle.wp_core.specs.Cache.{cache_place, pair_at, with_pair};
ghost use Rattle.wp_core.specs.Entries.{pending_pair};
ghost use Rattle.wp_core.specs.Lists.{IsIn};
ghost use Rattle.wp_core.specs.States.{Content, writes, prepared, snapshots, without_prepared};
ghost use Rattle.wp_core.specs.Sound.Prepared.{IsInOldCommits};
ghost use Rattle.wp_core.specs.Sound.Views.{IsApart};
ghost use Rattle.wp_core.specs.Views.{passed, apart, words_stay, has_left, pair_delayed, none_waits, delayed_flag_stays, old_flag_stays};
ghost use Rattle.wp_rule.specs.Knows.{Holding, Noted, KnowsFact, IsRise};
ghost use Rattle.wp_commits.specs.Bound.{NotedWords, BoundBecomes};
ghost use Rattle.wp_commits.specs.Cleared.{IsThere, IsCleared, IsReadyAt, IsUnentered};
ghost use Rattle.wp_commits.specs.PairNotes.{fact_of};
ghost use Rattle.wp_commits.specs.Making.{noted_all};
ghost use Rattle.wp_commits.specs.Passing.{NoneReached, IsReachedCommit};
ghost use Rattle.wp_commits.specs.Ways.{IsReached};
ghost use Rattle.wp_shared.specs.Notes.{noting, is_flag, GoesOn, FlagTells, DelayedFlagTells, OldFlagTells};
ghost use Rattle.wp_shared.specs.Seats.{held_by, seen_by};
ghost use Rattle.wp_shared.specs.Turns.{history_in};
ghost use Rattle.wp_commits.specs.Notes.{is_of_words, is_of_delayed, is_of_place};

use crate::pair_note::PairNote;
use std::alloc::AllocError;
use std::marker::Brand;
use wp_judge::{pack, unpack};
use wp_model::Seq;
use wp_outside::Disk;
use wp_prepared::Prepared;
use wp_rule::Word;
use wp_shared::{Log, Seat, Shared};
use wp_snaps::Snaps;

// ---- what the words are

/// The pair of the word at this place, if it has one. It is published.
pub(crate) fn pair<D: Disk + Drop>(
    store: &Shared<D>,
    seat: &mut Seat<D>,
    log: &Log<D>,
    place: usize,
) -> Option<(Seq, Seq)>
    requires seat { seat.old.table ≡ store.now.table }
    requires held { IsIn (writes log.now.state) (held_by seat.old) }
    requires within { place < store.now.cells }
    requires words { NotedWords seat.old.knows }
    requires published { IsUnentered seat.old.knows store.now.cells log.now.state ⊎ IsReadyAt seat.old.knows (length (history_in log.now)) place }
    ensures same { seat.new ≡ seat.old }
    ensures pair { (bound : ℕ) (words : List ℕ) → Noted seat.old.knows (words_stay bound words) → result ≡ option_map numbers_of (pair_at words place) }
    ensures there { IfSome result (λ r. IsThere seat.old.knows (history_in log.now) place r.0 r.1) }
{
    let bits = store.bits();
    unpack(bits, place, store.word(seat, place))
}

// ---- notes

/// Notes this of a pair, which the seat knows.
pub(crate) fn note<D: Disk + Drop>(store: &Shared<D>, seat: &mut Seat<D>, what: PairNote)
    requires seat { (seat.old.table ≡ store.now.table) × (seat.old.knows.live ≡ true) }
    requires known { KnowsFact seat.old.knows (fact_of what) }
    ensures { seat.new ≡ noting (fact_of what) seat.old }
{
    store.make_about::<Brand, PairNote>(seat, &what);
}

/// Notes that the pair of the word at this place may go, which is that of a version that decided itself: it overlaps no
/// snapshot, and its number is no prepared one.
pub(crate) fn note_own<D: Disk + Drop>(
    store: &Shared<D>,
    seat: &mut Seat<D>,
    log: &Log<D>,
    place: usize,
    n: Seq,
)
    requires seat { (seat.old.table ≡ store.now.table) × (seat.old.knows.live ≡ true) }
    requires held { IsIn (writes log.now.state) (held_by seat.old) }
    requires passed { (k : IsThere seat.old.knows (history_in log.now) place n n) × (n ≤ k.bound) }
    ensures { seat.new ≡ noted_all place (commit_pair n n) seat.old }
{
    store.make_about::<Brand, (usize, Seq)>(seat, &(place, n));
}

// ---- a word

/// Stores the word of the pending entry's pair at its place, which is cleared.
pub(crate) fn put_word<D: Disk + Drop>(
    store: &Shared<D>,
    seat: &mut Seat<D>,
    log: &Log<D>,
    place: usize,
    p: Seq,
    c: Seq,
)
    requires seat { seat.old.table ≡ store.now.table }
    requires held { IsIn (writes log.now.state) (held_by seat.old) }
    requires place { (place ≡ cache_place store.now.cells p) × (place < store.now.cells) }
    requires pending { pending_pair (history_in log.now) log.now.state.pending ≡ Some (commit_pair p c) }
    requires narrow { fits store.now.cells (commit_pair p c) ≡ true }
    requires cleared { IsCleared seat.old.knows place }
    ensures seat { GoesOn (is_of_place place) (held_by seat.old) seat.old.turns seat.old seat.new }
    ensures words { (bound : ℕ) (words : List ℕ) → Noted seat.old.knows (words_stay bound words) → Noted seat.new.knows (words_stay bound (with_pair words (commit_pair p c))) }
    ensures there { (bound : ℕ) (words : List ℕ) → Noted seat.new.knows (words_stay bound words) → pair_at words place ≡ Some (commit_pair p c) }
    ensures elsewhere { (published i : ℕ) → i ≢ place → IsReadyAt seat.old.knows published i → IsReadyAt seat.new.knows published i }
{
    log.devices_agree();
    let bits = store.bits();
    store.store_word(seat, place, pack(bits, p, c));
}

// ---- under the prepared turn

/// Puts the delayed flag up where something is delayed, and down where nothing is.
fn fit_delayed_flag<D: Disk + Drop>(
    store: &Shared<D>,
    seat: &mut Seat<D>,
    tables: &Prepared,
    was_none: bool,
)
    requires seat { seat.old.table ≡ store.now.table }
    requires held { Holding seat.old.knows prepared (λ t. NoneDelayed tables.now → NoneDelayed t) }
    requires flag { FlagTells seat.old.knows delayed_flag_stays (was_none ≡ true) }
    ensures seat { GoesOn is_flag (held_by seat.old) seat.old.turns seat.old seat.new }
    ensures flag { DelayedFlagTells seat.new.knows tables.now }
    ensures other { (value : ℕ) → Noted seat.old.knows (old_flag_stays value) → Noted seat.new.knows (old_flag_stays value) }
{
    let none = tables.none_delayed();
    if none == was_none {
        return;
    }
    store.store_delayed_flag(seat, u64::from(!none));
}

/// Raises the evicted bound to this number. Those of the heap that it reaches become delayed ones, with the flag up.
pub(crate) fn raise<D: Disk + Drop>(
    store: &Shared<D>,
    seat: &mut Seat<D>,
    log: &Log<D>,
    tables: &mut Prepared,
    m: Seq,
)
    requires seat { seat.old.table ≡ store.now.table }
    requires held { held_by seat.old ≡ prepared tables.old ∷ writes log.now.state ∷ [] }
    requires rises { IsRise seat.old.knows store.now.cells log.now.state m }
    requires flag { DelayedFlagTells seat.old.knows tables.old }
    ensures seat { GoesOn is_of_words (prepared tables.new ∷ writes log.now.state ∷ []) seat.old.turns seat.old seat.new }
    ensures flag { DelayedFlagTells seat.new.knows tables.new }
    ensures bound { BoundBecomes (λ bound words. m) seat.old.knows seat.new.knows }
{
    let none = tables.none_delayed();
    tables.advance(m);
    fit_delayed_flag(store, seat, tables, none);
    store.store_max(seat, m);
}

/// Makes the pair, to whose decision the bound has come, a delayed commit where its number is prepared, with the flag up. It takes no
/// memory.
pub(crate) fn delay<D: Disk + Drop>(
    store: &Shared<D>,
    seat: &mut Seat<D>,
    log: &Log<D>,
    tables: &mut Prepared,
    p: Seq,
    c: Seq,
)
    requires seat { seat.old.table ≡ store.now.table }
    requires held { held_by seat.old ≡ prepared tables.old ∷ writes log.now.state ∷ [] }
    requires decided { decision_of (history_in log.now) p ≡ Some c }
    requires reached { IsReached seat.old.knows p }
    requires flag { DelayedFlagTells seat.old.knows tables.old }
    ensures seat { GoesOn is_flag (prepared tables.new ∷ writes log.now.state ∷ []) seat.old.turns seat.old seat.new }
    ensures flag { DelayedFlagTells seat.new.knows tables.new }
    ensures apart { IsApart tables.new (commit_pair p c) }
{
    store.shows_world(seat);
    let none = tables.none_delayed();
    tables.note_evicted(p, c);
    fit_delayed_flag(store, seat, tables, none);
    store.make_about::<Brand, (Seq, Seq)>(seat, &(p, c));
}

/// Makes the pending entry's pair a delayed commit, with the flag up, and notes it. The bound has come to its number. It takes no memory.
pub(crate) fn delay_pending<D: Disk + Drop>(
    store: &Shared<D>,
    seat: &mut Seat<D>,
    log: &Log<D>,
    tables: &mut Prepared,
    p: Seq,
    c: Seq,
)
    requires seat { (seat.old.table ≡ store.now.table) × (seat.old.knows.live ≡ true) }
    requires held { held_by seat.old ≡ prepared tables.old ∷ writes log.now.state ∷ [] }
    requires pending { pending_pair (history_in log.now) log.now.state.pending ≡ Some (commit_pair p c) }
    requires wide { fits store.now.cells (commit_pair p c) ≡ false }
    requires reached { IsReached seat.old.knows p }
    requires flag { DelayedFlagTells seat.old.knows tables.old }
    ensures seat { GoesOn is_of_delayed (prepared tables.new ∷ writes log.now.state ∷ []) seat.old.turns seat.old seat.new }
    ensures flag { DelayedFlagTells seat.new.knows tables.new }
    ensures there { Noted seat.new.knows pair_delayed }
    ensures low { (bound : ℕ) (words : List ℕ) → Noted seat.old.knows (words_stay bound words) → p ≤ bound }
{
    store.shows_world(seat);
    let none = tables.none_delayed();
    tables.add_commit(p, c);
    fit_delayed_flag(store, seat, tables, none);
    store.make_about::<Brand, (Seq, Seq)>(seat, &(p, c));
    note(store, seat, PairNote::PairDelayed);
}

/// Takes the number, which is decided, out of all prepared sets, the delayed commits too, and puts the flag down where nothing
/// is delayed any more.
pub(crate) fn forget_prepared<D: Disk + Drop>(
    store: &Shared<D>,
    seat: &mut Seat<D>,
    tables: &mut Prepared,
    p: Seq,
)
    requires seat { (seat.old.table ≡ store.now.table) × (seat.old.knows.live ≡ true) }
    requires held { held_by seat.old ≡ prepared tables.old ∷ [] }
    requires decided { (c : ℕ) × (decision_of (seen_by seat.old) p ≡ Some c) × (fits store.now.cells (commit_pair p c) ≡ true) }
    requires flag { DelayedFlagTells seat.old.knows tables.old }
    ensures seat { GoesOn is_flag (prepared tables.new ∷ []) seat.old.turns seat.old seat.new }
    ensures flag { DelayedFlagTells seat.new.knows tables.new }
    ensures left { tables.new ≡ without_prepared tables.old p }
    ensures gone { IsIn (has_left p) seat.new.knows.notes }
{
    let none = tables.none_delayed();
    tables.remove(p);
    store.make_about::<Brand, Seq>(seat, &p);
    fit_delayed_flag(store, seat, tables, none);
}

// ---- delayed commits that the bound has passed

/// Whether nothing is delayed, by the delayed flag alone. Where nothing is, no prepared number waits to be taken out, which is noted.
pub(crate) fn none_delayed<D: Disk + Drop>(
    store: &Shared<D>,
    seat: &mut Seat<D>,
    log: &Log<D>,
) -> bool
    requires seat { (seat.old.table ≡ store.now.table) × (seat.old.knows.live ≡ true) }
    requires held { IsIn (writes log.now.state) (held_by seat.old) }
    ensures { MatchBool result (seat.new ≡ noting none_waits seat.old) (seat.new ≡ seat.old) }
{
    store.load::<Brand>(seat, Word::DelayedFlag) == 0
}

/// Of the delayed commits to which the bound has come the one of the least number.
pub(crate) fn passed<D: Disk + Drop>(
    store: &Shared<D>,
    seat: &mut Seat<D>,
    log: &Log<D>,
    tables: &Prepared,
) -> Option<(Seq, Seq)>
    requires seat { seat.old.table ≡ store.now.table }
    requires held { IsIn (writes log.now.state) (held_by seat.old) × IsIn (prepared tables.now) (held_by seat.old) }
    requires words { NotedWords seat.old.knows }
    ensures same { seat.new ≡ seat.old }
    ensures passed { MatchOption result (NoneReached seat.old.knows tables.now.delayed_commits) (IsReachedCommit seat.old.knows (history_in log.now) tables.now.delayed_commits) }
{
    let bound = store.max(seat);
    tables.passed(bound)
}

/// Takes the number, to whose decision the bound has come and which is kept for the snapshots, out of all prepared sets, and puts the
/// flag down where nothing is delayed any more.
pub(crate) fn let_go<D: Disk + Drop>(
    store: &Shared<D>,
    seat: &mut Seat<D>,
    log: &Log<D>,
    tables: &mut Prepared,
    snaps: &Snaps,
    p: Seq,
    c: Seq,
)
    requires seat { seat.old.table ≡ store.now.table }
    requires held { held_by seat.old ≡ snapshots snaps.now ∷ prepared tables.old ∷ writes log.now.state ∷ [] }
    requires decided { decision_of (history_in log.now) p ≡ Some c }
    requires reached { IsReached seat.old.knows c }
    requires kept { IsInOldCommits snaps.now p c }
    requires flag { DelayedFlagTells seat.old.knows tables.old }
    ensures seat { GoesOn is_flag (snapshots snaps.now ∷ prepared tables.new ∷ writes log.now.state ∷ []) seat.old.turns seat.old seat.new }
    ensures flag { DelayedFlagTells seat.new.knows tables.new }
    ensures other { (value : ℕ) → Noted seat.old.knows (old_flag_stays value) → Noted seat.new.knows (old_flag_stays value) }
    ensures left { tables.new ≡ without_prepared tables.old p }
{
    let none = tables.none_delayed();
    tables.remove(p);
    store.make_about::<Brand, Seq>(seat, &p);
    fit_delayed_flag(store, seat, tables, none);
}

// ---- under the snapshots turn

/// Puts the old-map flag up where the old commit map has something.
fn fit_old_flag<D: Disk + Drop>(
    store: &Shared<D>,
    seat: &mut Seat<D>,
    snaps: &Snaps,
    was_none: bool,
)
    requires seat { seat.old.table ≡ store.now.table }
    requires held { Holding seat.old.knows snapshots (λ m. NoOldCommits snaps.now → NoOldCommits m) }
    requires flag { FlagTells seat.old.knows old_flag_stays (was_none ≡ true) }
    ensures seat { GoesOn is_flag (held_by seat.old) seat.old.turns seat.old seat.new }
    ensures flag { OldFlagTells seat.new.knows snaps.now }
    ensures other { (value : ℕ) → Noted seat.old.knows (delayed_flag_stays value) → Noted seat.new.knows (delayed_flag_stays value) }
{
    let none = snaps.none_kept();
    if none == was_none {
        return;
    }
    store.store_old_flag(seat, u64::from(!none));
}

/// Keeps the pair under each live number that overlaps it, with the flag up where there is one.
pub(crate) fn keep<D: Disk + Drop>(
    store: &Shared<D>,
    seat: &mut Seat<D>,
    log: &Log<D>,
    snaps: &mut Snaps,
    p: Seq,
    c: Seq,
) -> Result<(), AllocError>
    requires seat { seat.old.table ≡ store.now.table }
    requires held { (others : List Content) × (held_by seat.old ≡ snapshots snaps.old ∷ others) × IsIn (writes log.now.state) others }
    requires ordered { p ≤ c }
    requires decided { decision_of (history_in log.now) p ≡ Some c }
    requires flag { OldFlagTells seat.old.knows snaps.old }
    ensures seat { (others : List Content) → held_by seat.old ≡ snapshots snaps.old ∷ others → GoesOn is_flag (snapshots snaps.new ∷ others) seat.old.turns seat.old seat.new }
    ensures flag { OldFlagTells seat.new.knows snaps.new }
    ensures other { (value : ℕ) → Noted seat.old.knows (delayed_flag_stays value) → Noted seat.new.knows (delayed_flag_stays value) }
    ensures kept { OnOk result (IsInOldCommits snaps.new p c) }
{
    let none = snaps.none_kept();
    snaps.keep_evicted(p, c)?;
    fit_old_flag(store, seat, snaps, none);
    store.make_about::<Brand, (Seq, Seq)>(seat, &(p, c));
    Ok(())
}
