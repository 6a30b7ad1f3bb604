//! Turns: a seat takes a turn with the value behind it, and gives both.
ghost use Rattle.std.specs.Prelude.{◌≡◌, ◌∷◌, ℕ, List, true};
ghost use Rattle.wp_core.specs.Turns.{write_turn, turn_of};
ghost use Rattle.wp_core.specs.Changes.{turn_index};
ghost use Rattle.wp_core.specs.States.{Content};
ghost use Rattle.wp_shared.specs.Seats.{held_by};
ghost use Rattle.wp_shared.specs.Turns.{comes_last, TookPart, MayGivePart, GavePart, HoldsTurn, KnowsToGive, Taken, TookLog, Given};

use crate::seat::Seat;
use crate::shared::Shared;
use std::sync::Wait;
use std::{hint, thread};
use wp_outside::Disk;
use wp_parts::{BehindTurn, Log, TurnValue};
use wp_rule::Turn;

/// How many pauses of the processor a seat waits at first for a turn that is held. That is longer than most turns are held: who has
/// just given one then takes the next ones before the words move to another processor.
const FIRST_PAUSES: u32 = 32;

/// How often it waits so, twice as long each time, before it lets others run.
const DOUBLINGS: u32 = 6;

/// How often it tries before it sleeps, where the turn's holder may be in a call of a device.
const TRIES: u32 = 46;

/// Waits so many pauses of the processor.
fn pause(pauses: u32) {
    for _ in 0..pauses {
        hint::spin_loop();
    }
}

/// Whether the holder of the turn may be in a call of a device.
fn is_long(turn: Turn) -> bool {
    matches!(turn, Turn::Write | Turn::Tables)
}

impl<D: Disk + Drop> Shared<D> {
    /// Waits for the turn, and takes it with what lies in its slot.
    fn take_part<R: Wait>(&self, rt: &R, seat: &mut Seat<D>, turn: Turn) -> TurnValue<D>
        requires seat { seat.old.table ≡ self.now.table }
        requires live { seat.old.knows.live ≡ true }
        requires order { comes_last (turn_of turn) (held_by seat.old) ≡ true }
        ensures same { (seat.new.table ≡ seat.old.table) × (seat.new.by ≡ seat.old.by) × (seat.new.turns ≡ turn_index (turn_of turn) ∷ seat.old.turns) }
        ensures took { TookPart self.now (turn_of turn) seat.old seat.new result }
    {
        let mut tries = 0;
        for _ in rt.forever() {
            if self.words.claim(&mut seat.seat, turn) {
                return self.words.exchange(&mut seat.seat, turn, TurnValue::Away);
            }
            tries = self.wait(rt, turn, tries);
        }
        unreachable!()
    }

    /// Waits a moment, lets others run, or sleeps until the turn is given. The answer is how often it was tried by then.
    fn wait<R: Wait>(&self, rt: &R, turn: Turn, tries: u32) -> u32 {
        if tries < DOUBLINGS {
            pause(FIRST_PAUSES << tries);
        } else if tries < TRIES || !is_long(turn) {
            thread::yield_now();
        } else {
            self.sleepers.enter();
            self.words.park(rt, turn);
            self.sleepers.leave();
        }
        tries.saturating_add(1)
    }

    /// Gives the turn that was taken last, with what goes into its slot.
    fn give_part(&self, seat: &mut Seat<D>, turn: Turn, part: TurnValue<D>)
        requires seat { seat.old.table ≡ self.now.table }
        requires may { MayGivePart self.now (turn_of turn) seat.old part }
        ensures { GavePart self.now (turn_of turn) seat.old seat.new }
    {
        self.words.exchange(&mut seat.seat, turn, part);
        self.words.unclaim(&mut seat.seat, turn);
        if is_long(turn) && self.sleepers.are_there() {
            self.words.wake_one(turn);
        }
    }

    /// Waits for the value's turn, and takes it with the value. Each turn that the seat holds comes before it, in the order tables,
    /// write, prepared, snapshots, store, locks.
    pub fn take_turn<G: BehindTurn<TurnValue<D>>, R: Wait>(
        &self,
        rt: &R,
        seat: &mut Seat<D>,
    ) -> Box<G>
        requires seat { (seat.old.table ≡ self.now.table) × (seat.old.knows.live ≡ true) }
        requires order { comes_last G.turn (held_by seat.old) ≡ true }
        ensures taken { Taken self.now seat.old seat.new (G.state result.value) }
        ensures of_store { G.is_of self.now.first result.value }
    {
        G::out_of(self.take_part(rt, seat, G::turn()))
    }

    /// Waits for the write turn, and takes it with the log. The seat, which holds no turn or the tables turn alone, has then seen the
    /// whole history.
    pub fn take_log<R: Wait>(&self, rt: &R, seat: &mut Seat<D>) -> Box<Log<D>>
        requires seat { (seat.old.table ≡ self.now.table) × (seat.old.knows.live ≡ true) }
        requires order { comes_last write_turn (held_by seat.old) ≡ true }
        ensures { TookLog self.now seat.old seat.new result.value }
    {
        let log = self.take_turn::<Log<D>, R>(rt, seat);
        self.shows_history(seat);
        log
    }

    /// Gives the turn that was taken last, with the value that was taken with it, as the seat left its state.
    pub fn give_turn<G: BehindTurn<TurnValue<D>>>(&self, seat: &mut Seat<D>, value: Box<G>)
        requires holds { (others : List Content) × (beneath : List ℕ) × HoldsTurn self.now seat.old (G.state value.value) others beneath }
        requires of_store { G.is_of self.now.first value.value }
        requires knows { KnowsToGive seat.old.knows (G.state value.value) }
        ensures { (others : List Content) (beneath : List ℕ) → HoldsTurn self.now seat.old (G.state value.value) others beneath
            → Given self.now G.turn seat.old seat.new others beneath }
    {
        self.give_part(seat, G::turn(), G::into_part(value));
    }
}
