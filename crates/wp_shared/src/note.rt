//! Notes: what one seat has seen, for another to learn.
ghost use Rattle.std.specs.Prelude.{◌≡◌, length};
ghost use Rattle.wp_model.specs.Legal.{IsLegal};
ghost use Rattle.wp_core.specs.Sound.Actors.{StartsWith};
ghost use Rattle.wp_core.specs.Changes.{sees};
ghost use Rattle.wp_rule.specs.Words.{SawAll};
ghost use Rattle.wp_shared.specs.Seats.{place_at};

use crate::seat::Seat;
use crate::shared::Shared;
use atomic_table::Badge;
use std::marker::Model;
use wp_model::Seq;
use wp_outside::Disk;
use wp_parts::TurnValue;
use wp_rule::{Actor, WordSeat};

/// What a seat had seen when it wrote the note. It may go to any thread, and a seat of the same store learns it.
#[derive(Drop)]
pub struct Note {
    badge: Badge<Actor>,
}

impl Model for Note {
    ghost use Rattle.std.specs.Prelude.{◌≡◌, [], ◌∷◌, false};
    ghost use Rattle.wp_core.specs.World.{new_actor};
    ghost use Rattle.wp_shared.specs.Seats.{NoteState, seen_in, client_in};

    ghost Value = { NoteState };

    ghost view = { λ n. record { table = n.badge.table_id; seen = seen_in n.badge.views } };

    ghost invariant = { λ n. n.badge.views ≡ new_actor false (client_in n.badge.views) (seen_in n.badge.views) ∷ [] };
}

impl<D: Disk + Drop> Shared<D> {
    /// A note of what the seat has seen.
    pub fn note(&self, seat: &mut Seat<D>) -> Note
        requires { seat.old.table ≡ self.now.table }
        ensures same { seat.new ≡ seat.old }
        ensures note { (result.table ≡ self.now.table) × (result.seen ≡ seat.old.knows.participant.seen) }
    {
        Note {
            badge: self.words.note(&mut seat.seat).into_badge(),
        }
    }

    /// The published number, once the seat has taken in the note: the seat has then seen what it and the note had.
    pub fn learn(&self, seat: &mut Seat<D>, note: Note) -> Seq
        requires { (seat.old.table ≡ self.now.table) × (note.table ≡ self.now.table) }
        ensures same { (seat.new.table ≡ seat.old.table) × (seat.new.by ≡ seat.old.by) × (seat.new.turns ≡ seat.old.turns) }
        ensures seen { (result ≡ length seat.new.knows.participant.seen) × StartsWith seat.new.knows.participant.seen note.seen
            × StartsWith seat.new.knows.participant.seen seat.old.knows.participant.seen × IsLegal seat.new.knows.participant.seen }
        ensures stands { SawAll (place_at self.now seat.new.by) seat.new.knows result }
        ensures rest { seat.new.knows ≡ sees seat.new.knows.participant.seen seat.old.knows }
    {
        let Note { badge } = note;
        let other: WordSeat<TurnValue<D>> = badge.into_seat();
        self.words.learn(&mut seat.seat, other)
    }
}
