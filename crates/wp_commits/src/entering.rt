//! Entering a pair: its word takes the place of what was there.
ghost use Rattle.std.specs.Prelude.{◌≡◌, ◌≢◌, ◌<◌, ◌≤◌, ℕ, true, false, List, [], ◌∷◌, length, Some};
ghost use Rattle.wp_judge.specs.Words.{commit_pair, fits};
ghost use Rattle.wp_core.specs.Cache.{cache_place, pair_at, with_pair};
ghost use Rattle.wp_core.specs.Entries.{pending_pair};
ghost use Rattle.wp_core.specs.States.{writes};
ghost use Rattle.wp_core.specs.Views.{words_stay, pair_delayed};
ghost use Rattle.wp_rule.specs.Knows.{Noted};
ghost use Rattle.wp_commits.specs.Bound.{NotedWords, BoundBecomes, bound_after};
ghost use Rattle.wp_commits.specs.Cleared.{IsWanted, IsCleared, IsReadyAt};
ghost use Rattle.wp_shared.specs.Notes.{GoesOn};
ghost use Rattle.wp_shared.specs.Seats.{held_by};
ghost use Rattle.wp_shared.specs.Turns.{history_in};
ghost use Rattle.wp_commits.specs.Notes.{is_of_words, is_of_delayed, is_of_place};
ghost use Rattle.wp_commits.specs.Ways.{next_way_in, is_of_way, IsReached, IsReadyForNext, EntersNext, HasEntered, StayReady};

use crate::clear::clear_own;
use crate::steps;
use crate::way::{Way, next_way};
use std::sync::Wait;
use wp_model::Seq;
use wp_outside::Disk;
use wp_prepared::Prepared;
use wp_shared::{Log, Seat, Shared};

/// Makes the word at this place ready to be replaced, as far as it was not cleared. It takes no memory.
fn clear_again<D: Disk + Drop, R: Wait>(
    store: &Shared<D>,
    rt: &R,
    seat: &mut Seat<D>,
    log: &Log<D>,
    place: usize,
)
    requires seat { (seat.old.table ≡ store.now.table) × (seat.old.knows.live ≡ true) }
    requires held { held_by seat.old ≡ writes log.now.state ∷ [] }
    requires wanted { IsWanted store.now.cells log.now.state place }
    requires words { NotedWords seat.old.knows }
    requires within { place < store.now.cells }
    requires ready { IsReadyAt seat.old.knows (length (history_in log.now)) place }
    ensures seat { GoesOn is_of_words (writes log.now.state ∷ []) seat.old.turns seat.old seat.new }
    ensures bound { BoundBecomes (λ bound words. bound_after store.now.cells (length (history_in log.now)) bound (pair_at words place)) seat.old.knows seat.new.knows }
    ensures cleared { IsCleared seat.new.knows place }
{
    match steps::pair(store, seat, log, place) {
        None => {}
        Some((p, c)) => clear_own(store, rt, seat, log, place, p, c),
    }
}

/// Stores the word of the pending entry's pair at its place.
fn enter_pair<D: Disk + Drop, R: Wait>(
    store: &Shared<D>,
    rt: &R,
    seat: &mut Seat<D>,
    log: &Log<D>,
    p: Seq,
    c: Seq,
)
    requires seat { (seat.old.table ≡ store.now.table) × (seat.old.knows.live ≡ true) }
    requires held { held_by seat.old ≡ writes log.now.state ∷ [] }
    requires words { NotedWords seat.old.knows }
    requires pending { pending_pair (history_in log.now) log.now.state.pending ≡ Some (commit_pair p c) }
    requires narrow { fits store.now.cells (commit_pair p c) ≡ true }
    requires ready { IsReadyAt seat.old.knows (length (history_in log.now)) (cache_place store.now.cells p) }
    ensures seat { GoesOn (is_of_place (cache_place store.now.cells p)) (held_by seat.old) seat.old.turns seat.old seat.new }
    ensures words { (bound : ℕ) (words : List ℕ) → Noted seat.old.knows (words_stay bound words)
        → Noted seat.new.knows (words_stay (bound_after store.now.cells (length (history_in log.now)) bound (pair_at words (cache_place store.now.cells p))) (with_pair words (commit_pair p c))) }
    ensures there { (bound : ℕ) (words : List ℕ) → Noted seat.new.knows (words_stay bound words) → pair_at words (cache_place store.now.cells p) ≡ Some (commit_pair p c) }
    ensures elsewhere { (place : ℕ) → place ≢ cache_place store.now.cells p → IsReadyAt seat.old.knows (length (history_in log.now)) place → IsReadyAt seat.new.knows (length (history_in log.now)) place }
{
    let place = store.place_of(p);
    clear_again(store, rt, seat, log, place);
    steps::put_word(store, seat, log, place, p, c);
}

/// Makes the pending entry's pair a delayed commit, under the prepared turn.
fn enter_delayed<D: Disk + Drop, R: Wait>(
    store: &Shared<D>,
    rt: &R,
    seat: &mut Seat<D>,
    log: &Log<D>,
    p: Seq,
    c: Seq,
)
    requires seat { (seat.old.table ≡ store.now.table) × (seat.old.knows.live ≡ true) }
    requires held { held_by seat.old ≡ writes log.now.state ∷ [] }
    requires pending { pending_pair (history_in log.now) log.now.state.pending ≡ Some (commit_pair p c) }
    requires wide { fits store.now.cells (commit_pair p c) ≡ false }
    requires reached { IsReached seat.old.knows p }
    ensures seat { GoesOn is_of_delayed (held_by seat.old) seat.old.turns seat.old seat.new }
    ensures there { Noted seat.new.knows pair_delayed }
    ensures low { (bound : ℕ) (words : List ℕ) → Noted seat.old.knows (words_stay bound words) → p ≤ bound }
{
    let mut tables = store.take_turn::<Prepared, R>(rt, seat);
    steps::delay_pending(store, seat, log, &mut tables, p, c);
    store.give_turn(seat, tables);
}

/// Keeps the pair of the first pending entry in its way: stores its word, or makes it a delayed commit. The word's place is cleared; or
/// it has the pair of a version that decided itself, as where the second pair of a rollback comes to the place of its first. It takes
/// no memory.
pub fn enter<D: Disk + Drop, R: Wait>(store: &Shared<D>, rt: &R, seat: &mut Seat<D>, log: &Log<D>)
    requires seat { (seat.old.table ≡ store.now.table) × (seat.old.knows.live ≡ true) }
    requires held { held_by seat.old ≡ writes log.now.state ∷ [] }
    requires words { NotedWords seat.old.knows }
    requires ready { IsReadyForNext seat.old.knows store.now.cells log.now.state }
    ensures seat { GoesOn (is_of_way store.now.cells (next_way_in store.now.cells log.now.state)) (held_by seat.old) seat.old.turns seat.old seat.new }
    ensures words { EntersNext store.now.cells log.now.state seat.old.knows seat.new.knows }
    ensures there { HasEntered seat.new.knows store.now.cells (next_way_in store.now.cells log.now.state) }
    ensures elsewhere { StayReady store.now.cells (length (history_in log.now)) (next_way_in store.now.cells log.now.state) seat.old.knows seat.new.knows }
{
    match next_way(store.bits(), log) {
        Way::Undecided => {}
        Way::InWord(p, c) => enter_pair(store, rt, seat, log, p, c),
        Way::Delayed(p, c) => enter_delayed(store, rt, seat, log, p, c),
    }
}
