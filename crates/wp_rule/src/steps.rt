//! The atomic steps of the table, each for all the calls of its kind.
ghost use Rattle.std.specs.Prelude.{◌≡◌, ◌+◌, ◌<◌, [], ◌∷◌, true, slice_index, MatchBool};
ghost use Rattle.atomic_table.specs.Table.{rest};
ghost use Rattle.wp_core.specs.Steps.{give_turn};
ghost use Rattle.wp_core.specs.Turns.{turn_of};
ghost use Rattle.wp_rule.specs.Words.{words_of, turn_place, shared_words, place_of};
ghost use Rattle.wp_rule.specs.Moves.{MayMake, MayStore, Moved};
ghost use Rattle.wp_rule.specs.Plays.{Claimed, WasHeld, MayUnclaim};

use crate::opening::Opening;
use crate::part::HoldsPart;
use crate::plays::{ClaimPlay, LoadPlay, Moves, OfTurn, StorePlay, UnclaimPlay};
use crate::rule::Rule;
use atomic_table::{Seat, Shared};
use wp_core::{Actor, Turn};

/// How many words a line of a processor's memory has. The words of turns lie in a line each, behind the one that has the other
/// words, so that who takes one turn does not slow who takes another.
const LINE: usize = 8;

/// The table in which the words and the slots lie.
pub(crate) type WordTable<S> = Shared<S, Actor, Opening<S>, Rule<S>>;

pub(crate) fn load<S: HoldsPart, J: Moves>(
    table: &WordTable<S>,
    seat: &mut Seat<S, Actor>,
    word: usize,
) -> u64
    requires seat { (seat.old.table_id ≡ table.now.table_id) × (J.place ≡ place_of S.content (shared_words table.now.table_id table.now.key) seat.old.id) }
    requires word { word < table.now.table_id.words }
    requires may { MayMake J.place seat.old.me.0 J.steps }
    ensures same { (seat.new.table_id ≡ seat.old.table_id) × (seat.new.id ≡ seat.old.id) × (seat.new.me.1 ≡ seat.old.me.1) }
    ensures moved { Moved J.place J.steps (λ w. result ≡ slice_index (words_of w) word) seat.old.me.0 seat.new.me.0 }
{
    table.load::<LoadPlay<J>>(seat, word)
}

pub(crate) fn store<S: HoldsPart, J: Moves>(
    table: &WordTable<S>,
    seat: &mut Seat<S, Actor>,
    word: usize,
    n: u64,
)
    requires seat { (seat.old.table_id ≡ table.now.table_id) × (J.place ≡ place_of S.content (shared_words table.now.table_id table.now.key) seat.old.id) }
    requires word { word < table.now.table_id.words }
    requires may { MayStore J.place seat.old.me.0 J.steps word n }
    ensures same { (seat.new.table_id ≡ seat.old.table_id) × (seat.new.id ≡ seat.old.id) × (seat.new.me.1 ≡ seat.old.me.1) }
    ensures moved { Moved J.place J.steps (λ w. Unit {0}) seat.old.me.0 seat.new.me.0 }
{
    table.store::<StorePlay<J>>(seat, word, n);
}

/// The place of the turn's word.
pub(crate) fn turn_place(turn: Turn) -> usize
    ensures { result ≡ turn_place (turn_of turn) }
{
    LINE * turn.index() as usize + LINE
}

/// One try to take a turn.
pub(crate) fn claim<S: HoldsPart, J: OfTurn<S>>(
    table: &WordTable<S>,
    seat: &mut Seat<S, Actor>,
    turn: Turn,
) -> bool
    requires seat { (seat.old.table_id ≡ table.now.table_id) × (J.place ≡ place_of S.content (shared_words table.now.table_id table.now.key) seat.old.id) }
    requires turn { (J.turn ≡ turn_of turn) × (48 < table.now.table_id.words) }
    requires first { J.first ≡ table.now.key.first.value.items }
    requires live { seat.old.me.0.live ≡ true }
    ensures same { (seat.new.table_id ≡ seat.old.table_id) × (seat.new.id ≡ seat.old.id) }
    ensures claimed { MatchBool result (Claimed S.content (S.tells J.first) J.place J.turn seat.old.me seat.new.me) (WasHeld S.content (S.tells J.first) J.place J.turn seat.old.me seat.new.me) }
{
    table.compare_exchange::<ClaimPlay<S, J>>(seat, turn_place(turn), 0, 1) == 0
}

/// Gives a turn.
pub(crate) fn unclaim<S: HoldsPart, J: OfTurn<S>>(
    table: &WordTable<S>,
    seat: &mut Seat<S, Actor>,
    turn: Turn,
)
    requires seat { (seat.old.table_id ≡ table.now.table_id) × (J.place ≡ place_of S.content (shared_words table.now.table_id table.now.key) seat.old.id) }
    requires turn { (J.turn ≡ turn_of turn) × (48 < table.now.table_id.words) }
    requires held { MayUnclaim S.content (S.tells table.now.key.first.value.items) J.place J.turn seat.old.me }
    ensures same { (seat.new.table_id ≡ seat.old.table_id) × (seat.new.id ≡ seat.old.id) × (seat.new.me.1 ≡ rest seat.old.me.1) }
    ensures moved { Moved J.place (λ w. give_turn J.turn ∷ []) (λ w. Unit {0}) seat.old.me.0 seat.new.me.0 }
{
    table.store::<UnclaimPlay<J>>(seat, turn_place(turn), 0);
}
