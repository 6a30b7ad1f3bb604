//! The atomic steps, for the crates whose calls are made of them. A caller picks by `Brand` which steps of the machine its
//! actor makes at a load.
ghost use Rattle.std.specs.Prelude.{◌≡◌, ◌<◌, ◌∷◌, [], List, length, Some};
ghost use Rattle.wp_model.specs.declared.entry.Entry.{Entry};
ghost use Rattle.wp_judge.specs.Words.{CommitPair, word_of, pair_of};
ghost use Rattle.wp_core.specs.Cache.{cache_place};
ghost use Rattle.wp_core.specs.Lists.{IsIn};
ghost use Rattle.wp_core.specs.States.{WriteState, writes};
ghost use Rattle.wp_core.specs.Steps as step;
ghost use Rattle.wp_core.specs.Steps.{store_max_evicted, note};
ghost use Rattle.wp_core.specs.Views.{delayed_flag_stays, old_flag_stays};
ghost use Rattle.wp_rule.specs.Knows.{Knows};
ghost use Rattle.wp_rule.specs.Words.{IsWordOf, word_in};
ghost use Rattle.wp_rule.specs.Moves.{MayMake, MayStep, MayPublishAs, Moved, storing_max, storing_word};
ghost use Rattle.wp_core.specs.World.{World};
ghost use Rattle.wp_shared.specs.Clients.{KeepClient};
ghost use Rattle.wp_shared.specs.Seats.{place_at};

use crate::seat::Seat;
use crate::shared::Shared;
use wp_model::Seq;
use wp_outside::Disk;
use wp_rule::{Moves, Word};

impl<D: Disk + Drop> Shared<D> {
    /// Loads the published number, and makes the steps there.
    pub fn make<J: Moves>(&self, seat: &mut Seat<D>) -> Seq
        requires seat { (seat.old.table ≡ self.now.table) × (J.place ≡ place_at self.now seat.old.by) }
        requires may { MayMake J.place seat.old.knows J.steps }
        requires client { (w : World) → KeepClient (J.steps w) }
        ensures same { (seat.new.table ≡ seat.old.table) × (seat.new.by ≡ seat.old.by) × (seat.new.turns ≡ seat.old.turns) }
        ensures moved { Moved J.place J.steps (λ w. result ≡ length w.writes.history) seat.old.knows seat.new.knows }
    {
        self.words.make::<J>(&mut seat.seat)
    }

    /// Makes steps about this at a load of the published number. A caller that picks them by `Brand` hands it in for that alone.
    pub fn make_about<J: Moves, A>(&self, seat: &mut Seat<D>, about: &A) -> Seq
        requires seat { (seat.old.table ≡ self.now.table) × (J.place ≡ place_at self.now seat.old.by) }
        requires may { MayMake J.place seat.old.knows J.steps }
        requires client { (w : World) → KeepClient (J.steps w) }
        ensures same { (seat.new.table ≡ seat.old.table) × (seat.new.by ≡ seat.old.by) × (seat.new.turns ≡ seat.old.turns) }
        ensures moved { Moved J.place J.steps (λ w. result ≡ length w.writes.history) seat.old.knows seat.new.knows }
    {
        self.make::<J>(seat)
    }

    /// Loads the word, and makes the steps there.
    pub fn load<J: Moves>(&self, seat: &mut Seat<D>, word: Word) -> u64
        requires seat { (seat.old.table ≡ self.now.table) × (J.place ≡ place_at self.now seat.old.by) }
        requires word { IsWordOf self.now.cells word }
        requires may { MayMake J.place seat.old.knows J.steps }
        requires client { (w : World) → KeepClient (J.steps w) }
        ensures same { (seat.new.table ≡ seat.old.table) × (seat.new.by ≡ seat.old.by) × (seat.new.turns ≡ seat.old.turns) }
        ensures moved { Moved J.place J.steps (λ w. result ≡ word_in word w) seat.old.knows seat.new.knows }
    {
        self.words.load::<J>(&mut seat.seat, word)
    }

    /// Publishes the first of the pending entries, which gets this number.
    pub fn store_published(&self, seat: &mut Seat<D>, p: Seq)
        requires seat { seat.old.table ≡ self.now.table }
        requires next { MayPublishAs (place_at self.now seat.old.by) seat.old.knows p }
        ensures same { (seat.new.table ≡ seat.old.table) × (seat.new.by ≡ seat.old.by) × (seat.new.turns ≡ seat.old.turns) }
        ensures published { (t : WriteState) (entry : Entry) (others : List Entry) → IsIn (writes t) seat.old.knows.held → t.pending ≡ entry ∷ others
            → Moved (place_at self.now seat.old.by) (λ w. step.store_published entry others ∷ []) (λ w. w.writes ≡ t) seat.old.knows seat.new.knows }
    {
        self.words.store_published(&mut seat.seat, p);
    }

    /// Raises the evicted bound by its rule, and moves the numbers of the prepared heap up to it to the delayed set.
    pub fn store_max(&self, seat: &mut Seat<D>, m: Seq)
        requires seat { seat.old.table ≡ self.now.table }
        requires rises { Knows (place_at self.now seat.old.by) seat.old.knows (store_max_evicted m) }
        ensures same { (seat.new.table ≡ seat.old.table) × (seat.new.by ≡ seat.old.by) × (seat.new.turns ≡ seat.old.turns) }
        ensures moved { Moved (place_at self.now seat.old.by) (storing_max m) (λ w. Unit {0}) seat.old.knows seat.new.knows }
    {
        self.words.store_max(&mut seat.seat, m);
    }

    /// Puts the pair of this word into its place of the cache.
    pub fn store_word(&self, seat: &mut Seat<D>, i: usize, word: u64)
        requires seat { seat.old.table ≡ self.now.table }
        requires pair { (pair : CommitPair) × (word ≡ word_of self.now.cells pair) × (pair_of self.now.cells i word ≡ Some pair) × (i < self.now.cells) × (i ≡ cache_place self.now.cells pair.number)
            × MayStep (place_at self.now seat.old.by) seat.old.knows (step.store_word pair) }
        ensures same { (seat.new.table ≡ seat.old.table) × (seat.new.by ≡ seat.old.by) × (seat.new.turns ≡ seat.old.turns) }
        ensures moved { (pair : CommitPair) → pair_of self.now.cells i word ≡ Some pair → Moved (place_at self.now seat.old.by) (storing_word pair) (λ w. Unit {0}) seat.old.knows seat.new.knows }
    {
        self.words.store_word(&mut seat.seat, i, word);
    }

    /// Stores the delayed flag.
    pub fn store_delayed_flag(&self, seat: &mut Seat<D>, value: u64)
        requires seat { seat.old.table ≡ self.now.table }
        requires may { MayStep (place_at self.now seat.old.by) seat.old.knows (step.store_delayed_flag value) }
        ensures same { (seat.new.table ≡ seat.old.table) × (seat.new.by ≡ seat.old.by) × (seat.new.turns ≡ seat.old.turns) }
        ensures moved { Moved (place_at self.now seat.old.by) (λ w. step.store_delayed_flag value ∷ note (delayed_flag_stays value) ∷ []) (λ w. Unit {0}) seat.old.knows seat.new.knows }
    {
        self.words.store_delayed_flag(&mut seat.seat, value);
    }

    /// Stores the old-map flag.
    pub fn store_old_flag(&self, seat: &mut Seat<D>, value: u64)
        requires seat { seat.old.table ≡ self.now.table }
        requires may { MayStep (place_at self.now seat.old.by) seat.old.knows (step.store_old_flag value) }
        ensures same { (seat.new.table ≡ seat.old.table) × (seat.new.by ≡ seat.old.by) × (seat.new.turns ≡ seat.old.turns) }
        ensures moved { Moved (place_at self.now seat.old.by) (λ w. step.store_old_flag value ∷ note (old_flag_stays value) ∷ []) (λ w. Unit {0}) seat.old.knows seat.new.knows }
    {
        self.words.store_old_flag(&mut seat.seat, value);
    }
}
