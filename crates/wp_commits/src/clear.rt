//! Clearing words: the pairs that are there are made ready to go.
ghost use Rattle.std.specs.Prelude.{◌≡◌, ◌<◌, ◌⊎◌, suc, true, false, [], ◌∷◌, length, Option, Some, OnOk, OnErr};
ghost use Rattle.wp_judge.specs.Words.{CommitPair, commit_pair, fits};
ghost use Rattle.wp_core.specs.Cache.{pair_at};
ghost use Rattle.wp_core.specs.Entries.{pairs_of};
ghost use Rattle.wp_core.specs.Lists.{IsIn};
ghost use Rattle.wp_core.specs.States.{writes, prepared, snapshots};
ghost use Rattle.wp_core.specs.Views.{passed, in_old_commits, apart, none_waits};
ghost use Rattle.wp_rule.specs.Knows.{Noted};
ghost use Rattle.wp_commits.specs.Bound.{NotedWords, BoundBecomes, raised, bound_after, bound_with};
ghost use Rattle.wp_commits.specs.Cleared.{IsThere, IsWanted, IsCleared, IsUnentered};
ghost use Rattle.wp_shared.specs.Notes.{is_flag, GoesOn, DelayedFlagTells, OldFlagTells};
ghost use Rattle.wp_shared.specs.Seats.{held_by};
ghost use Rattle.wp_shared.specs.Turns.{history_in};
ghost use Rattle.wp_commits.specs.Notes.{is_of_words};
ghost use Rattle.wp_commits.specs.Ways.{way_of, ways_in, Clears, AnyClears, RisesForAll, RisesForSome, IsClearedFor, AreCleared};
ghost use Rattle.wp_commits.specs.declared.way.Way.{Way};
ghost use Rattle.wp_commits.specs.declared.way.Way.TheVariants.{Delayed};

use crate::bound::bound_past;
use crate::pair_note::PairNote;
use crate::passing::pass;
use crate::steps;
use crate::way::Way;
use std::alloc::AllocError;
use std::sync::Wait;
use wp_model::Seq;
use wp_outside::Disk;
use wp_prepared::Prepared;
use wp_shared::{Log, Seat, Shared};
use wp_snaps::Snaps;

/// Under the prepared turn: raises the bound by the rule where it has not come to this decision.
fn raise_past<D: Disk + Drop>(
    store: &Shared<D>,
    seat: &mut Seat<D>,
    log: &Log<D>,
    tables: &mut Prepared,
    place: usize,
    p: Seq,
    c: Seq,
)
    requires seat { seat.old.table ≡ store.now.table }
    requires held { held_by seat.old ≡ prepared tables.old ∷ writes log.now.state ∷ [] }
    requires wanted { IsWanted store.now.cells log.now.state place }
    requires there { IsThere seat.old.knows (history_in log.now) place p c }
    requires flag { DelayedFlagTells seat.old.knows tables.old }
    ensures seat { GoesOn is_of_words (prepared tables.new ∷ writes log.now.state ∷ []) seat.old.turns seat.old seat.new }
    ensures flag { DelayedFlagTells seat.new.knows tables.new }
    ensures bound { BoundBecomes (λ bound words. raised store.now.cells (length (history_in log.now)) bound c) seat.old.knows seat.new.knows }
{
    let bound = store.max(seat);
    if c <= bound {
        return;
    }
    let m = bound_past(store.cells() as u64, log.published(), c);
    steps::raise(store, seat, log, tables, m);
}

/// Under the snapshots turn: the pair's number is kept under each live number that overlaps it.
fn ready_snaps<D: Disk + Drop>(
    store: &Shared<D>,
    seat: &mut Seat<D>,
    log: &Log<D>,
    snaps: &mut Snaps,
    place: usize,
    p: Seq,
    c: Seq,
) -> Result<(), AllocError>
    requires seat { (seat.old.table ≡ store.now.table) × (seat.old.knows.live ≡ true) }
    requires held { held_by seat.old ≡ snapshots snaps.old ∷ writes log.now.state ∷ [] }
    requires there { IsThere seat.old.knows (history_in log.now) place p c }
    requires flag { OldFlagTells seat.old.knows snaps.old }
    ensures seat { GoesOn is_flag (snapshots snaps.new ∷ writes log.now.state ∷ []) seat.old.turns seat.old seat.new }
    ensures flag { OldFlagTells seat.new.knows snaps.new }
    ensures ready { OnOk result (Noted seat.new.knows (in_old_commits place (commit_pair p c))) }
{
    steps::keep(store, seat, log, snaps, p, c)?;
    steps::note(store, seat, PairNote::InOldCommits(place, p, c));
    Ok(())
}

/// Makes the pair ready under the prepared turn: the bound comes to its decision, and where its number is prepared still it becomes a
/// delayed commit. It takes no memory.
fn clear_prepared<D: Disk + Drop, R: Wait>(
    store: &Shared<D>,
    rt: &R,
    seat: &mut Seat<D>,
    log: &Log<D>,
    place: usize,
    p: Seq,
    c: Seq,
)
    requires seat { (seat.old.table ≡ store.now.table) × (seat.old.knows.live ≡ true) }
    requires held { held_by seat.old ≡ writes log.now.state ∷ [] }
    requires wanted { IsWanted store.now.cells log.now.state place }
    requires there { IsThere seat.old.knows (history_in log.now) place p c }
    ensures seat { GoesOn is_of_words (writes log.now.state ∷ []) seat.old.turns seat.old seat.new }
    ensures bound { BoundBecomes (λ bound words. raised store.now.cells (length (history_in log.now)) bound c) seat.old.knows seat.new.knows }
    ensures ready { Noted seat.new.knows (passed place (commit_pair p c)) × Noted seat.new.knows (apart place (commit_pair p c)) }
{
    let mut tables = store.take_turn::<Prepared, R>(rt, seat);
    raise_past(store, seat, log, &mut tables, place, p, c);
    steps::note(store, seat, PairNote::Passed(place, p, c));
    steps::delay(store, seat, log, &mut tables, p, c);
    steps::note(store, seat, PairNote::Apart(place, p, c));
    store.give_turn(seat, tables);
}

/// Takes the snapshots turn, makes the pair ready under it, and gives it.
fn clear_snaps<D: Disk + Drop, R: Wait>(
    store: &Shared<D>,
    rt: &R,
    seat: &mut Seat<D>,
    log: &Log<D>,
    place: usize,
    p: Seq,
    c: Seq,
) -> Result<(), AllocError>
    requires seat { (seat.old.table ≡ store.now.table) × (seat.old.knows.live ≡ true) }
    requires held { held_by seat.old ≡ writes log.now.state ∷ [] }
    requires there { IsThere seat.old.knows (history_in log.now) place p c }
    ensures seat { GoesOn is_flag (writes log.now.state ∷ []) seat.old.turns seat.old seat.new }
    ensures ready { OnOk result (Noted seat.new.knows (in_old_commits place (commit_pair p c))) }
{
    let mut snaps = store.take_turn::<Snaps, R>(rt, seat);
    let result = ready_snaps(store, seat, log, &mut snaps, place, p, c);
    store.give_turn(seat, snaps);
    result
}

/// Raises the bound by the rule, under the prepared turn, where it has not come to this decision.
fn let_pass<D: Disk + Drop, R: Wait>(
    store: &Shared<D>,
    rt: &R,
    seat: &mut Seat<D>,
    log: &Log<D>,
    place: usize,
    p: Seq,
    c: Seq,
)
    requires seat { (seat.old.table ≡ store.now.table) × (seat.old.knows.live ≡ true) }
    requires held { held_by seat.old ≡ writes log.now.state ∷ [] }
    requires wanted { IsWanted store.now.cells log.now.state place }
    requires there { IsThere seat.old.knows (history_in log.now) place p c }
    ensures seat { GoesOn is_of_words (writes log.now.state ∷ []) seat.old.turns seat.old seat.new }
    ensures bound { BoundBecomes (λ bound words. raised store.now.cells (length (history_in log.now)) bound c) seat.old.knows seat.new.knows }
{
    let bound = store.max(seat);
    if c <= bound {
        return;
    }
    let mut tables = store.take_turn::<Prepared, R>(rt, seat);
    raise_past(store, seat, log, &mut tables, place, p, c);
    store.give_turn(seat, tables);
}

/// Makes the pair that is there ready to go where it was not cleared, since it is that of a version that decided itself: the bound
/// alone may have to rise.
pub(crate) fn clear_own<D: Disk + Drop, R: Wait>(
    store: &Shared<D>,
    rt: &R,
    seat: &mut Seat<D>,
    log: &Log<D>,
    place: usize,
    p: Seq,
    c: Seq,
)
    requires seat { (seat.old.table ≡ store.now.table) × (seat.old.knows.live ≡ true) }
    requires held { held_by seat.old ≡ writes log.now.state ∷ [] }
    requires wanted { IsWanted store.now.cells log.now.state place }
    requires there { IsThere seat.old.knows (history_in log.now) place p c }
    requires ready { IsCleared seat.old.knows place ⊎ (p ≡ c) }
    ensures seat { GoesOn is_of_words (writes log.now.state ∷ []) seat.old.turns seat.old seat.new }
    ensures bound { BoundBecomes (λ bound words. raised store.now.cells (length (history_in log.now)) bound c) seat.old.knows seat.new.knows }
    ensures cleared { IsCleared seat.new.knows place }
{
    let_pass(store, rt, seat, log, place, p, c);
    if p != c {
        return;
    }
    steps::note_own(store, seat, log, place, c);
}

/// Makes the pair ready under the two turns, one after the other. One that decided itself needs neither.
fn clear_there<D: Disk + Drop, R: Wait>(
    store: &Shared<D>,
    rt: &R,
    seat: &mut Seat<D>,
    log: &Log<D>,
    place: usize,
    p: Seq,
    c: Seq,
) -> Result<(), AllocError>
    requires seat { (seat.old.table ≡ store.now.table) × (seat.old.knows.live ≡ true) }
    requires held { held_by seat.old ≡ writes log.now.state ∷ [] }
    requires wanted { IsWanted store.now.cells log.now.state place }
    requires there { IsThere seat.old.knows (history_in log.now) place p c }
    ensures seat { GoesOn is_of_words (writes log.now.state ∷ []) seat.old.turns seat.old seat.new }
    ensures bound { BoundBecomes (λ bound words. raised store.now.cells (length (history_in log.now)) bound c) seat.old.knows seat.new.knows }
    ensures cleared { OnOk result (IsCleared seat.new.knows place) }
{
    if p == c {
        clear_own(store, rt, seat, log, place, p, c);
        return Ok(());
    }
    clear_prepared(store, rt, seat, log, place, p, c);
    clear_snaps(store, rt, seat, log, place, p, c)
}

/// Makes the word at this place ready to be replaced: it is empty, or the bound has come to the decision of its pair, the old
/// commit map has that under each live number that it overlaps, and no prepared set needs it. Where memory is wanting the word
/// stays as it is.
fn clear_place<D: Disk + Drop, R: Wait>(
    store: &Shared<D>,
    rt: &R,
    seat: &mut Seat<D>,
    log: &Log<D>,
    place: usize,
) -> Result<(), AllocError>
    requires seat { (seat.old.table ≡ store.now.table) × (seat.old.knows.live ≡ true) }
    requires held { held_by seat.old ≡ writes log.now.state ∷ [] }
    requires wanted { IsWanted store.now.cells log.now.state place }
    requires words { NotedWords seat.old.knows }
    requires unentered { IsUnentered seat.old.knows store.now.cells log.now.state }
    requires within { place < store.now.cells }
    ensures seat { GoesOn is_of_words (writes log.now.state ∷ []) seat.old.turns seat.old seat.new }
    ensures bound { BoundBecomes (λ bound words. bound_after store.now.cells (length (history_in log.now)) bound (pair_at words place)) seat.old.knows seat.new.knows }
    ensures cleared { OnOk result (IsCleared seat.new.knows place) }
{
    match steps::pair(store, seat, log, place) {
        None => Ok(()),
        Some((p, c)) => clear_there(store, rt, seat, log, place, p, c),
    }
}

/// Raises the bound to the number of a pair that is too wide for a word, under the prepared turn, where it has not come to it.
fn reach<D: Disk + Drop, R: Wait>(
    store: &Shared<D>,
    rt: &R,
    seat: &mut Seat<D>,
    log: &Log<D>,
    p: Seq,
    c: Seq,
)
    requires seat { (seat.old.table ≡ store.now.table) × (seat.old.knows.live ≡ true) }
    requires held { held_by seat.old ≡ writes log.now.state ∷ [] }
    requires wanted { IsIn (commit_pair p c) (pairs_of (suc (length (history_in log.now))) log.now.state.pending) }
    requires wide { fits store.now.cells (commit_pair p c) ≡ false }
    requires words { NotedWords seat.old.knows }
    ensures seat { GoesOn is_of_words (writes log.now.state ∷ []) seat.old.turns seat.old seat.new }
    ensures bound { BoundBecomes (λ bound words. bound_with store.now.cells (length (history_in log.now)) bound words (Delayed p c)) seat.old.knows seat.new.knows }
{
    let bound = store.max(seat);
    if p <= bound {
        return;
    }
    let mut tables = store.take_turn::<Prepared, R>(rt, seat);
    steps::raise(store, seat, log, &mut tables, p);
    store.give_turn(seat, tables);
}

/// Makes ready what a pair needs that is kept in this way, and takes out of the prepared sets what the bound has passed.
fn clear<D: Disk + Drop, R: Wait>(
    store: &Shared<D>,
    rt: &R,
    seat: &mut Seat<D>,
    log: &Log<D>,
    way: Way,
) -> Result<(), AllocError>
    requires seat { (seat.old.table ≡ store.now.table) × (seat.old.knows.live ≡ true) }
    requires held { held_by seat.old ≡ writes log.now.state ∷ [] }
    requires wanted { (o : Option CommitPair) × (way ≡ way_of store.now.cells o) × ((pair : CommitPair) → o ≡ Some pair → IsIn pair (pairs_of (suc (length (history_in log.now))) log.now.state.pending)) }
    requires words { NotedWords seat.old.knows }
    requires unentered { IsUnentered seat.old.knows store.now.cells log.now.state }
    ensures seat { GoesOn is_of_words (writes log.now.state ∷ []) seat.old.turns seat.old seat.new }
    ensures bound { BoundBecomes (λ bound words. bound_with store.now.cells (length (history_in log.now)) bound words way) seat.old.knows seat.new.knows }
    ensures cleared { OnOk result (IsClearedFor seat.new.knows store.now.cells way) }
    ensures waits { OnOk result (Clears way ⊎ Noted seat.old.knows none_waits → Noted seat.new.knows none_waits) }
    ensures wanting { OnErr result (Clears way) }
{
    match way {
        Way::Undecided => Ok(()),
        Way::InWord(p, _) => {
            let place = store.place_of(p);
            clear_place(store, rt, seat, log, place)?;
            pass(store, rt, seat, log)
        }
        Way::Delayed(p, c) => {
            reach(store, rt, seat, log, p, c);
            pass(store, rt, seat, log)
        }
    }
}

/// Makes ready what the pairs of the pending entries need, one after another. All memory that this needs is taken here. Where it
/// is wanting the bound has risen all the same, for those up to the one for which it was wanting. At the end no prepared number waits
/// to be taken out: each that is decided at the bound or before is in its word.
pub fn clear_all<D: Disk + Drop, R: Wait>(
    store: &Shared<D>,
    rt: &R,
    seat: &mut Seat<D>,
    log: &Log<D>,
) -> Result<(), AllocError>
    requires seat { (seat.old.table ≡ store.now.table) × (seat.old.knows.live ≡ true) }
    requires held { held_by seat.old ≡ writes log.now.state ∷ [] }
    requires words { NotedWords seat.old.knows }
    requires unentered { IsUnentered seat.old.knows store.now.cells log.now.state }
    ensures seat { GoesOn is_of_words (held_by seat.old) seat.old.turns seat.old seat.new }
    ensures bound { OnOk result (RisesForAll store.now.cells log.now.state seat.old.knows seat.new.knows) }
    ensures refused { OnErr result (RisesForSome store.now.cells log.now.state seat.old.knows seat.new.knows) }
    ensures cleared { OnOk result (AreCleared seat.new.knows store.now.cells (ways_in store.now.cells log.now.state)) }
    ensures waits { OnOk result (AnyClears (ways_in store.now.cells log.now.state) → Noted seat.new.knows none_waits) }
{
    log.devices_agree();
    let bits = store.bits();
    let entries = log.pending();
    let mut n = log.published();
    for entry in entries {
        n += 1;
        clear(store, rt, seat, log, Way::of(bits, entry, n))?;
    }
    Ok(())
}
