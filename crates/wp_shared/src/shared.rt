//! The shared store.
ghost use Rattle.std.specs.Prelude.{◌≡◌, ◌<◌, ◌≤◌, ◌^◌, ◌∷◌, [], List, true, length, slice_index};
ghost use Rattle.wp_model.specs.Legal.{IsLegal};
ghost use Rattle.wp_fields.specs.declared.format.Format.TheVariants.{Two};
ghost use Rattle.wp_entry.specs.Record.{last_number};
ghost use Rattle.wp_core.specs.Cache.{cache_place};
ghost use Rattle.wp_core.specs.Sound.Actors.{StartsWith};
ghost use Rattle.wp_core.specs.Changes.{sees, made_one};
ghost use Rattle.wp_core.specs.Steps.{Step, set_client};
ghost use Rattle.wp_core.specs.World.{World, new_actor};
ghost use Rattle.wp_rule.specs.Words.{place_of, SawAll};
ghost use Rattle.wp_parts.specs.Parts.{content};
ghost use Rattle.wp_shared.specs.Opening.{IsOneStore};
ghost use Rattle.wp_shared.specs.Notes.{SawHistory};
ghost use Rattle.wp_shared.specs.Seats.{Stands, place_at};

use crate::seat::Seat;
use crate::sleepers::Sleepers;
use std::marker::{Brand, Model};
use wp_model::{Name, Seq};
use wp_outside::Disk;
use wp_parts::TurnValue;
use wp_rule::{Moves, Word, WordSeat, Words};

/// The store that clients share: words, and the values behind the turns.
pub struct Shared<D: Disk + Drop> {
    pub(crate) words: Words<TurnValue<D>>,
    pub(crate) bits: u32,
    pub(crate) limit: Seq,
    pub(crate) sleepers: Sleepers,
}

impl<D: Disk + Drop> Model for Shared<D> {
    ghost use Rattle.std.specs.Prelude.{◌≡◌, ◌<◌, ◌≤◌, ◌^◌};
    ghost use Rattle.std.specs.Coded.{codes};
    ghost use Rattle.wp_fields.specs.declared.format.Format.TheVariants.{Two};
    ghost use Rattle.wp_entry.specs.Record.{last_number};
    ghost use Rattle.wp_model.specs.PreparedSets.{prepared_sets_code};
    ghost use Rattle.wp_model.specs.Snapshots.{snapshots_code};
    ghost use Rattle.wp_model.specs.LockState.{lock_state_code};
    ghost use Rattle.wp_shared.specs.Opening.{IsOneStore};
    ghost use Rattle.wp_shared.specs.Seats.{SharedState};

    ghost Value = { SharedState D };

    ghost coded = { Prim.hlevel (codes, prepared_sets_code, snapshots_code, lock_state_code) };

    ghost view = { λ s. record { table = s.words.table; opened = s.words.opened; cells = s.words.cells; first = s.words.first; limit = s.limit } };

    ghost invariant = { λ s. IsOneStore s.words.opened s.words.first × (1 ≤ s.words.cells) × (1 ≤ s.limit) × (s.limit ≤ last_number Two) × (s.words.cells ≡ 2 ^ s.bits) × (s.bits ≤ 16) };
}

/// Says whose the seat is, which did nothing yet.
fn name_seat<D: Disk + Drop, J: Moves>(
    words: &Words<TurnValue<D>>,
    seat: &mut WordSeat<TurnValue<D>>,
    client: &Name,
)
    requires seat { (seat.old.table_id ≡ words.now.table) × (J.place ≡ place_of content words.now seat.old.id) }
    requires steps { J.steps ≡ (λ w. set_client client.now ∷ []) }
    requires new { seat.old.me.0 ≡ new_actor true seat.old.me.0.participant.client seat.old.me.0.participant.seen }
    ensures same { (seat.new.table_id ≡ seat.old.table_id) × (seat.new.me.1 ≡ seat.old.me.1) }
    ensures named { seat.new.me.0 ≡ new_actor true client.now seat.old.me.0.participant.seen }
{
    words.make::<J>(seat);
}

impl<D: Disk + Drop> Shared<D> {
    /// For the proof alone: its devices are one store's.
    pub fn shows_one_store(&self)
        ensures { IsOneStore self.now.opened self.now.first }
    {
        let _ = &self.words;
    }

    /// Another seat, this client's, which the first one makes. It has seen what that one has.
    pub fn seat(&self, seat: &mut Seat<D>, client: Name) -> Seat<D>
        requires { (seat.old.table ≡ self.now.table) × (seat.old.by ≡ 0) }
        ensures same { seat.new ≡ record seat.old { knows = made_one seat.old.knows } }
        ensures seat { (result.table ≡ self.now.table) × (result.turns ≡ []) × (result.knows ≡ new_actor true client seat.old.knows.participant.seen) }
    {
        let mut made = self.words.seat(&mut seat.seat);
        name_seat::<D, Brand>(&self.words, &mut made, &client);
        Seat { seat: made, client }
    }

    /// How many words the commit cache has: at least one.
    pub fn cells(&self) -> usize
        ensures { (result ≡ self.now.cells) × (1 ≤ result) }
    {
        self.words.cells()
    }

    /// How many bits the place of a word has: at most 16.
    pub fn bits(&self) -> u32
        ensures { (result ≤ 16) × (self.now.cells ≡ 2 ^ result) }
    {
        self.bits
    }

    /// The place of the number's word in the commit cache.
    pub fn place_of(&self, p: Seq) -> usize
        ensures place { result ≡ cache_place self.now.cells p }
        ensures within { result < self.now.cells }
    {
        (p % self.cells() as u64) as usize
    }

    /// The greatest number that an entry may get, where the log's version has it: 1 to 2^56 - 1.
    pub fn limit(&self) -> Seq
        ensures { (result ≡ self.now.limit) × (1 ≤ result) × (result ≤ last_number Two) }
    {
        self.limit
    }

    /// The published number. The seat has then seen the history up to it.
    pub fn published(&self, seat: &mut Seat<D>) -> Seq
        requires { seat.old.table ≡ self.now.table }
        ensures same { (seat.new.table ≡ seat.old.table) × (seat.new.by ≡ seat.old.by) × (seat.new.turns ≡ seat.old.turns) }
        ensures seen { StartsWith seat.new.knows.participant.seen seat.old.knows.participant.seen × (result ≡ length seat.new.knows.participant.seen) × IsLegal seat.new.knows.participant.seen }
        ensures stands { SawAll (place_at self.now seat.new.by) seat.new.knows result }
        ensures rest { seat.new.knows ≡ sees seat.new.knows.participant.seen seat.old.knows }
    {
        self.words.load_published(&mut seat.seat)
    }

    /// Loads the published number, and leaves it: the seat has then seen the history, all that is published. Only its clause is of
    /// use to the caller.
    pub fn shows_history(&self, seat: &mut Seat<D>)
        requires { seat.old.table ≡ self.now.table }
        ensures { SawHistory self.now seat.old seat.new }
    {
        self.published(seat);
    }

    /// The evicted bound, as its one load found it.
    pub fn max(&self, seat: &mut Seat<D>) -> Seq
        requires { seat.old.table ≡ self.now.table }
        ensures same { seat.new ≡ seat.old }
        ensures found { (w : World) × Stands self.now seat.new w × (result ≡ w.max_evicted) }
    {
        self.load::<Brand>(seat, Word::Max)
    }

    /// Loads the evicted bound, and leaves it: the seat stands in a world of the store. Only its clause is of use to the caller.
    pub fn shows_world(&self, seat: &mut Seat<D>)
        requires { seat.old.table ≡ self.now.table }
        ensures same { seat.new ≡ seat.old }
        ensures stands { (w : World) × Stands self.now seat.new w }
    {
        self.max(seat);
    }

    /// The word of the commit cache with this index, as its one load found it.
    pub fn word(&self, seat: &mut Seat<D>, i: usize) -> u64
        requires seat { seat.old.table ≡ self.now.table }
        requires word { i < self.now.cells }
        ensures same { seat.new ≡ seat.old }
        ensures found { (w : World) × Stands self.now seat.new w × (result ≡ slice_index w.cache i) }
    {
        self.load::<Brand>(seat, Word::Cell(i))
    }

    /// Its words.
    pub(crate) fn into_words(self) -> Words<TurnValue<D>>
        ensures { self ≡ record { table = result.table; opened = result.opened; cells = result.cells; first = result.first; limit = self.limit } }
    {
        let Shared {
            words,
            bits: _bits,
            limit: _limit,
            sleepers: _sleepers,
        } = self;
        words
    }
}

// Written out, so that no crate above proves anew how all that it holds is let go.
impl<D: Disk + Drop> Drop for Shared<D> {
    fn drop(self) {
        let Self {
            words: _words,
            bits: _bits,
            limit: _limit,
            sleepers: _sleepers,
        } = self;
    }
}
