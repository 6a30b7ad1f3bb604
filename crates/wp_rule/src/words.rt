//! The table of the shared words, and the calls on it.
ghost use Rattle.std.specs.Prelude.{◌≡◌, ◌+◌, ◌<◌, ◌≤◌, [], ◌∷◌, List, true, false, length, replicate, Some, IfOk, IfErr, MatchBool};
ghost use Rattle.atomic_table.specs.Table.{rest};
ghost use Rattle.wp_model.specs.declared.entry.Entry.{Entry};
ghost use Rattle.wp_model.specs.Legal.{IsLegal};
ghost use Rattle.wp_core.specs.World.{new_actor};
ghost use Rattle.wp_core.specs.Steps as step;
ghost use Rattle.wp_core.specs.Steps.{store_max_evicted, give_turn, note};
ghost use Rattle.wp_core.specs.Changes.{sees, made_one, joins, turn_index};
ghost use Rattle.wp_core.specs.Sound.Actors.{StartsWith};
ghost use Rattle.wp_core.specs.Views.{delayed_flag_stays, old_flag_stays};
ghost use Rattle.wp_core.specs.Turns.{turn_of};
ghost use Rattle.wp_rule.specs.Knows.{Knows};
ghost use Rattle.wp_rule.specs.Words.{place_of, IsWordOf, word_in, SawAll};
ghost use Rattle.wp_rule.specs.Moves.{MayMake, MayStep, MayPublishAs, Moved, storing_max, storing_word};
ghost use Rattle.wp_rule.specs.Shows.{Founds, Leaves};
ghost use Rattle.wp_rule.specs.Ends.{part_of};
ghost use Rattle.wp_rule.specs.Plays.{Claimed, WasHeld, MayLie, MayUnclaim};
ghost use Rattle.wp_core.specs.Lists.{IsIn};
ghost use Rattle.wp_core.specs.States.{WriteState, writes};
ghost use Rattle.wp_core.specs.Cache.{cache_place};
ghost use Rattle.wp_judge.specs.Words.{CommitPair, word_of, pair_of};

use crate::opening::Opening;
use crate::part::{HoldsPart, Parts};
use crate::plays::{LearnJoin, Moves, NoteSplit, SeatJoin, SeatSplit};
use crate::rule::Rule;
use crate::steps;
use crate::word::{DELAYED_FLAG, FIRST_CELL, MAX, OLD_FLAG, Word};
use atomic_table::{Refused, Seat, Table};
use std::alloc::{AllocError, Global};
use std::marker::{Brand, Model};
use std::snapshot::Snapshot;
use std::sync::Wait;
use wp_core::{Actor, Turn};
use wp_history::History;
use wp_model::{Name, Seq};

const PUBLISHED: usize = 0;

/// A seat of the words: an actor of the machine, with the values that it has out.
pub type WordSeat<S> = Seat<S, Actor>;

/// The shared words with the slots behind their turns, under the rule.
#[derive(Drop)]
pub struct Words<S: HoldsPart + Drop> {
    table: Table<S, Actor, Opening<S>, Rule<S>, Global>,
}

impl<S: HoldsPart + Drop> Model for Words<S> {
    ghost use Rattle.std.specs.Prelude.{◌≡◌, ◌+◌, ◌≤◌};
    ghost use Rattle.wp_rule.specs.Words.{SharedWords, shared_words};

    ghost Value = { SharedWords S };

    ghost view = { λ w. shared_words w.table.shared.table_id w.table.shared.key };

    ghost invariant = { λ w. (w.table.shared.table_id.words ≡ w.table.shared.key.cells + 56) × (w.table.shared.table_id.slots ≡ 6) × (w.table.shared.key.cells ≤ 65536) };
}

fn first_words(
    alloc: Global,
    published: u64,
    delayed_flag: u64,
    cells: usize,
) -> Result<Vec<u64>, AllocError>
    requires { cells ≤ 65536 }
    ensures { IfOk result (λ words. words.items ≡ published ∷ published ∷ delayed_flag ∷ replicate (cells + 53) 0) }
{
    let mut words = Vec::with_capacity(alloc, cells + FIRST_CELL)?;
    words.push(published)?;
    words.push(published)?;
    words.push(delayed_flag)?;
    words.resize(cells + FIRST_CELL, 0)?;
    Ok(words)
}

impl<S: HoldsPart + Drop> Words<S> {
    /// Makes the table, with its first seat, the client's. The entries are the history that is opened, and all of them are
    /// published. The slots are the values behind the turns, in their order. They come back where memory is wanting.
    pub fn new(
        alloc: Global,
        client: &Name,
        entries: Snapshot<History>,
        published: Seq,
        cells: usize,
        delayed_flag: u64,
        slots: Vec<S>,
    ) -> Result<(Words<S>, WordSeat<S>), Vec<S>>
        requires parts { Founds S.content (S.tells slots.items) client.now entries.value.entries cells delayed_flag slots.items }
        requires published { published ≡ length entries.value.entries }
        requires cells { cells ≤ 65536 }
        ensures words { IfOk result (λ r. (r.0.opened ≡ entries.value.entries) × (r.0.cells ≡ cells) × (r.0.first ≡ slots.items)) }
        ensures seat { IfOk result (λ r. (r.1.table_id ≡ r.0.table) × (r.1.id ≡ 0) × (r.1.me ≡ (new_actor true client.now entries.value.entries, []))) }
        ensures stands { IfOk result (λ r. SawAll (place_of S.content r.0 0) r.1.me.0 published) }
        ensures refused { IfErr result (λ all. all.items ≡ slots.items) }
    {
        let Ok(words) = first_words(alloc, published, delayed_flag, cells) else {
            return Err(slots);
        };
        let opening = Opening {
            cells,
            client: Snapshot::of(client),
            entries,
            first: Snapshot::of(&slots),
        };
        match Table::new(alloc, words.as_slice(), slots, &opening) {
            Ok((table, seat)) => Ok((Words { table }, seat)),
            Err(Refused { slots }) => Err(slots),
        }
    }

    /// How many of the words are the cache's.
    pub fn cells(&self) -> usize
        ensures { result ≡ self.now.cells }
    {
        self.table.word_count() - FIRST_CELL
    }

    /// Loads the published number: the seat then has seen the history that is published.
    pub fn load_published(&self, seat: &mut WordSeat<S>) -> Seq
        requires { seat.old.table_id ≡ self.now.table }
        ensures same { (seat.new.table_id ≡ seat.old.table_id) × (seat.new.id ≡ seat.old.id) }
        ensures seen { (h : List Entry) × (seat.new.me ≡ (sees h seat.old.me.0, seat.old.me.1)) × (result ≡ length h)
            × StartsWith h seat.old.me.0.participant.seen × StartsWith h seat.old.me.0.learned × IsLegal h }
        ensures stands { SawAll (place_of S.content self.now seat.new.id) seat.new.me.0 result }
    {
        steps::load::<S, Brand>(&self.table.shared, seat, PUBLISHED)
    }

    /// Loads the published number, and makes there the steps that the caller picks: changes of states that the seat
    /// holds, what it registers, notes or finds, and what it reads in states.
    pub fn make<J: Moves>(&self, seat: &mut WordSeat<S>) -> Seq
        requires seat { (seat.old.table_id ≡ self.now.table) × (J.place ≡ place_of S.content self.now seat.old.id) }
        requires may { MayMake J.place seat.old.me.0 J.steps }
        ensures same { (seat.new.table_id ≡ seat.old.table_id) × (seat.new.id ≡ seat.old.id) × (seat.new.me.1 ≡ seat.old.me.1) }
        ensures moved { Moved J.place J.steps (λ w. result ≡ length w.writes.history) seat.old.me.0 seat.new.me.0 }
    {
        steps::load::<S, J>(&self.table.shared, seat, PUBLISHED)
    }

    /// Loads the word, and makes there the steps that the caller picks: none, or a reader's load of it.
    pub fn load<J: Moves>(&self, seat: &mut WordSeat<S>, word: Word) -> u64
        requires seat { (seat.old.table_id ≡ self.now.table) × (J.place ≡ place_of S.content self.now seat.old.id) }
        requires word { IsWordOf self.now.cells word }
        requires may { MayMake J.place seat.old.me.0 J.steps }
        ensures same { (seat.new.table_id ≡ seat.old.table_id) × (seat.new.id ≡ seat.old.id) × (seat.new.me.1 ≡ seat.old.me.1) }
        ensures moved { Moved J.place J.steps (λ w. result ≡ word_in word w) seat.old.me.0 seat.new.me.0 }
    {
        steps::load::<S, J>(&self.table.shared, seat, word.place())
    }

    /// Publishes the first of the pending entries, which gets this number. The caller holds the write turn, and its view has the
    /// turn's state.
    pub fn store_published(&self, seat: &mut WordSeat<S>, p: Seq)
        requires seat { seat.old.table_id ≡ self.now.table }
        requires next { MayPublishAs (place_of S.content self.now seat.old.id) seat.old.me.0 p }
        ensures same { (seat.new.table_id ≡ seat.old.table_id) × (seat.new.id ≡ seat.old.id) × (seat.new.me.1 ≡ seat.old.me.1) }
        ensures published { (t : WriteState) (entry : Entry) (others : List Entry) → IsIn (writes t) seat.old.me.0.held → t.pending ≡ entry ∷ others
            → Moved (place_of S.content self.now seat.old.id) (λ w. step.store_published entry others ∷ []) (λ w. w.writes ≡ t) seat.old.me.0 seat.new.me.0 }
    {
        steps::store::<S, Brand>(&self.table.shared, seat, PUBLISHED, p);
    }

    /// Raises the evicted bound by its rule, for a pair of the pending record; in the same step each number of the prepared heap up
    /// to it moves to the delayed set. The seat notes the bound with the words of the cache.
    pub fn store_max(&self, seat: &mut WordSeat<S>, m: Seq)
        requires seat { seat.old.table_id ≡ self.now.table }
        requires rises { Knows (place_of S.content self.now seat.old.id) seat.old.me.0 (store_max_evicted m) }
        ensures same { (seat.new.table_id ≡ seat.old.table_id) × (seat.new.id ≡ seat.old.id) × (seat.new.me.1 ≡ seat.old.me.1) }
        ensures moved { Moved (place_of S.content self.now seat.old.id) (storing_max m) (λ w. Unit {0}) seat.old.me.0 seat.new.me.0 }
    {
        steps::store::<S, Brand>(&self.table.shared, seat, MAX, m);
    }

    /// Puts the pair of this word into its place of the cache. The seat notes the words of the cache with the bound.
    pub fn store_word(&self, seat: &mut WordSeat<S>, i: usize, word: u64)
        requires seat { seat.old.table_id ≡ self.now.table }
        requires pair { (pair : CommitPair) × (word ≡ word_of self.now.cells pair) × (pair_of self.now.cells i word ≡ Some pair) × (i < self.now.cells) × (i ≡ cache_place self.now.cells pair.number)
            × MayStep (place_of S.content self.now seat.old.id) seat.old.me.0 (step.store_word pair) }
        ensures same { (seat.new.table_id ≡ seat.old.table_id) × (seat.new.id ≡ seat.old.id) × (seat.new.me.1 ≡ seat.old.me.1) }
        ensures moved { (pair : CommitPair) → pair_of self.now.cells i word ≡ Some pair → Moved (place_of S.content self.now seat.old.id) (storing_word pair) (λ w. Unit {0}) seat.old.me.0 seat.new.me.0 }
    {
        steps::store::<S, Brand>(&self.table.shared, seat, FIRST_CELL + i, word);
    }

    /// Stores the flag of what is delayed, and notes it.
    pub fn store_delayed_flag(&self, seat: &mut WordSeat<S>, value: u64)
        requires seat { seat.old.table_id ≡ self.now.table }
        requires may { MayStep (place_of S.content self.now seat.old.id) seat.old.me.0 (step.store_delayed_flag value) }
        ensures same { (seat.new.table_id ≡ seat.old.table_id) × (seat.new.id ≡ seat.old.id) × (seat.new.me.1 ≡ seat.old.me.1) }
        ensures moved { Moved (place_of S.content self.now seat.old.id) (λ w. step.store_delayed_flag value ∷ note (delayed_flag_stays value) ∷ []) (λ w. Unit {0}) seat.old.me.0 seat.new.me.0 }
    {
        steps::store::<S, Brand>(&self.table.shared, seat, DELAYED_FLAG, value);
    }

    /// Stores the flag of the old commit map, and notes it.
    pub fn store_old_flag(&self, seat: &mut WordSeat<S>, value: u64)
        requires seat { seat.old.table_id ≡ self.now.table }
        requires may { MayStep (place_of S.content self.now seat.old.id) seat.old.me.0 (step.store_old_flag value) }
        ensures same { (seat.new.table_id ≡ seat.old.table_id) × (seat.new.id ≡ seat.old.id) × (seat.new.me.1 ≡ seat.old.me.1) }
        ensures moved { Moved (place_of S.content self.now seat.old.id) (λ w. step.store_old_flag value ∷ note (old_flag_stays value) ∷ []) (λ w. Unit {0}) seat.old.me.0 seat.new.me.0 }
    {
        steps::store::<S, Brand>(&self.table.shared, seat, OLD_FLAG, value);
    }

    /// One try to take a turn: false exactly where the turn was found held. The seat notes what the turn guards besides its state.
    pub fn claim(&self, seat: &mut WordSeat<S>, turn: Turn) -> bool
        requires seat { seat.old.table_id ≡ self.now.table }
        requires live { seat.old.me.0.live ≡ true }
        ensures same { (seat.new.table_id ≡ seat.old.table_id) × (seat.new.id ≡ seat.old.id) }
        ensures turn { MatchBool result
            (Claimed S.content (S.tells self.now.first) (place_of S.content self.now seat.old.id) (turn_of turn) seat.old.me seat.new.me)
            (WasHeld S.content (S.tells self.now.first) (place_of S.content self.now seat.old.id) (turn_of turn) seat.old.me seat.new.me) }
    {
        steps::claim::<S, Brand>(&self.table.shared, seat, turn)
    }

    /// Gives the turn that was taken last, with the value that lies in its slot.
    pub fn unclaim(&self, seat: &mut WordSeat<S>, turn: Turn)
        requires seat { seat.old.table_id ≡ self.now.table }
        requires turn { MayUnclaim S.content (S.tells self.now.first) (place_of S.content self.now seat.old.id) (turn_of turn) seat.old.me }
        ensures same { (seat.new.table_id ≡ seat.old.table_id) × (seat.new.id ≡ seat.old.id) × (seat.new.me.1 ≡ rest seat.old.me.1) }
        ensures moved { Moved (place_of S.content self.now seat.old.id) (λ w. give_turn (turn_of turn) ∷ []) (λ w. Unit {0}) seat.old.me.0 seat.new.me.0 }
    {
        steps::unclaim::<S, Brand>(&self.table.shared, seat, turn);
    }

    /// Puts a value into the slot of the turn that was taken last, for the one that lies there: one that stands in for it, or
    /// home again the turn's state as the seat left it. The view stays as it is.
    pub fn exchange(&self, seat: &mut WordSeat<S>, turn: Turn, value: S) -> S
        requires seat { seat.old.table_id ≡ self.now.table }
        requires turn { (x : S) × (seat.old.me.1 ≡ (turn_index (turn_of turn), x) ∷ rest seat.old.me.1) }
        requires value { MayLie S.content (S.tells self.now.first) (turn_of turn) seat.old.me.0 value }
        ensures same { (seat.new.table_id ≡ seat.old.table_id) × (seat.new.id ≡ seat.old.id) }
        ensures out { seat.old.me.1 ≡ (turn_index (turn_of turn), result) ∷ rest seat.old.me.1 }
        ensures home { seat.new.me ≡ (seat.old.me.0, (turn_index (turn_of turn), value) ∷ rest seat.old.me.1) }
    {
        self.table
            .shared
            .exchange(seat, turn.index() as usize, value)
    }

    /// A note of what the seat, or another note, has seen.
    pub fn note(&self, seat: &mut WordSeat<S>) -> WordSeat<S>
        requires { seat.old.table_id ≡ self.now.table }
        ensures same { (seat.new.table_id ≡ seat.old.table_id) × (seat.new.id ≡ seat.old.id) × (seat.new.me ≡ seat.old.me) }
        ensures note { (result.table_id ≡ self.now.table) × (result.me ≡ (new_actor false seat.old.me.0.participant.client seat.old.me.0.participant.seen, [])) }
    {
        self.table.shared.split_seat::<NoteSplit>(seat)
    }

    /// Another seat of the same client, which the first one makes.
    pub fn seat(&self, seat: &mut WordSeat<S>) -> WordSeat<S>
        requires { (seat.old.table_id ≡ self.now.table) × (seat.old.id ≡ 0) }
        ensures same { (seat.new.table_id ≡ seat.old.table_id) × (seat.new.id ≡ seat.old.id) × (seat.new.me ≡ (made_one seat.old.me.0, seat.old.me.1)) }
        ensures seat { (result.table_id ≡ self.now.table) × (result.me ≡ (new_actor true seat.old.me.0.participant.client seat.old.me.0.participant.seen, [])) }
    {
        self.table.shared.split_seat::<SeatSplit>(seat)
    }

    /// Takes in a note, and loads the published number: the seat has then seen what it and the note had.
    pub fn learn(&self, seat: &mut WordSeat<S>, note: WordSeat<S>) -> Seq
        requires seats { (seat.old.table_id ≡ self.now.table) × (note.table_id ≡ self.now.table) }
        requires note { (note.me.0.live ≡ false) × (note.me.1 ≡ []) }
        ensures same { (seat.new.table_id ≡ seat.old.table_id) × (seat.new.id ≡ seat.old.id) }
        ensures seen { (h : List Entry) × (seat.new.me ≡ (sees h seat.old.me.0, seat.old.me.1)) × (result ≡ length h)
            × StartsWith h note.me.0.participant.seen × StartsWith h seat.old.me.0.participant.seen × IsLegal h }
        ensures stands { SawAll (place_of S.content self.now seat.new.id) seat.new.me.0 result }
    {
        self.table.shared.join_seat::<LearnJoin>(seat, note);
        self.load_published(seat)
    }

    /// Takes in a seat that holds no turn: the first one keeps what it knew and did.
    pub fn join(&self, first: &mut WordSeat<S>, other: WordSeat<S>)
        requires seats { (first.old.table_id ≡ self.now.table) × (other.table_id ≡ self.now.table) × (first.old.id ≡ 0) }
        requires other { (other.me.0.live ≡ true) × (other.me.0.held ≡ []) × (other.me.1 ≡ []) }
        ensures same { (first.new.table_id ≡ first.old.table_id) × (first.new.id ≡ first.old.id) }
        ensures joined { first.new.me ≡ (joins first.old.me.0 other.me.0, first.old.me.1) }
    {
        self.table.shared.join_seat::<SeatJoin>(first, other);
    }

    /// Ends the table, where the first seat has taken in all that it made, and none holds a turn.
    pub fn close(self, first: WordSeat<S>) -> Parts<S>
        requires first { (first.table_id ≡ self.table) × (first.id ≡ 0) × (first.me.1 ≡ []) }
        requires all { (first.me.0.held ≡ []) × (first.me.0.made ≡ length first.me.0.joined) }
        ensures { Leaves S.content (S.tells self.first) self.first (place_of S.content self 0) first.me.0 (part_of result) }
    {
        let Words { table } = self;
        let mut closed = table.close_with(first);
        let parts = Parts {
            write: closed.take(0),
            prepared: closed.take(1),
            snapshots: closed.take(2),
            store: closed.take(3),
            locks: closed.take(4),
            tables: closed.take(5),
        };
        closed.free();
        parts
    }

    /// Sleeps while the turn is held, until a wake. It may also return for no reason.
    pub fn park<R: Wait>(&self, rt: &R, turn: Turn) {
        self.table.shared.park(rt, steps::turn_place(turn), 1);
    }

    /// Wakes one that sleeps on the turn, if there is one.
    pub fn wake_one(&self, turn: Turn) {
        self.table.shared.wake_one(steps::turn_place(turn));
    }
}
