//! A client's place at the shared store.
ghost use Rattle.std.specs.Prelude.{◌≡◌};
ghost use Rattle.wp_shared.specs.Seats.{turns_of};

use std::marker::Model;
use wp_model::Name;
use wp_outside::Disk;
use wp_parts::TurnValue;
use wp_rule::WordSeat;

/// A client's seat at a store. Clauses see the table that it is at, its number there, what its actor of the machine knows, and
/// which turns it holds, the one taken last first.
pub struct Seat<D: Disk + Drop> {
    pub(crate) seat: WordSeat<TurnValue<D>>,
    pub(crate) client: Name,
}

impl<D: Disk + Drop> Model for Seat<D> {
    ghost use Rattle.std.specs.Prelude.{◌≡◌};
    ghost use Rattle.std.specs.Coded.{codes};
    ghost use Rattle.wp_model.specs.PreparedSets.{prepared_sets_code};
    ghost use Rattle.wp_model.specs.Snapshots.{snapshots_code};
    ghost use Rattle.wp_model.specs.LockState.{lock_state_code};
    ghost use Rattle.wp_core.specs.Codes.{transactions_code};
    ghost use Rattle.wp_shared.specs.Seats.{SeatState, AllAway, turns_of};

    ghost Value = { SeatState };

    ghost coded = { Prim.hlevel (codes, prepared_sets_code, snapshots_code, lock_state_code, transactions_code) };

    ghost view = { λ s. record { table = s.seat.table_id; by = s.seat.id; knows = s.seat.me.0; turns = turns_of s.seat.me.1 } };

    ghost invariant = { λ s. AllAway s.seat.me.1 × (s.client ≡ s.seat.me.0.participant.client) };
}

impl<D: Disk + Drop> Seat<D> {
    /// Whose it is: the holder of its direct writes, and of the names that it claims or takes.
    pub fn client(&self) -> &Name
        ensures { result.now ≡ self.now.knows.participant.client }
    {
        &self.client
    }

    /// Its seat of the words, which tells the log that it holds the write turn alone.
    pub fn words(&self) -> &WordSeat<TurnValue<D>>
        ensures { result.now.me.0 ≡ self.now.knows }
    {
        &self.seat
    }

    /// Its seat of the words.
    pub(crate) fn into_words(self) -> WordSeat<TurnValue<D>>
        ensures { self ≡ record { table = result.table_id; by = result.id; knows = result.me.0; turns = turns_of result.me.1 } }
    {
        let Seat {
            seat,
            client: _client,
        } = self;
        seat
    }
}

// Written out, so that no crate above proves anew how all that it holds is let go.
impl<D: Disk + Drop> Drop for Seat<D> {
    fn drop(self) {
        let Self {
            seat: _seat,
            client: _client,
        } = self;
    }
}
