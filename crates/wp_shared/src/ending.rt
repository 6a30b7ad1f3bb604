//! The end of a store.
ghost use Rattle.std.specs.Prelude.{◌≡◌};
ghost use Rattle.wp_model.specs.Flushed.{InstalledEdit};
ghost use Rattle.wp_core.specs.Changes.{joins};
ghost use Rattle.wp_rule.specs.Ends.{part_of};
ghost use Rattle.wp_rule.specs.Shows.{WasLast};
ghost use Rattle.wp_shared.specs.Seats.{IsFree};
ghost use Rattle.wp_parts.specs.Devices.{devices_of};
ghost use Rattle.wp_parts.specs.Parts.{content};
ghost use Rattle.wp_shared.specs.Ending.{AllFree, AreAll, Remains};
ghost use Rattle.wp_shared.specs.Ended.{IsEnded};

use crate::seat::Seat;
use crate::shared::Shared;
use wp_history::History;
use wp_outside::{Disk, Disks};
use wp_parts::{BehindTurn, Log, TurnValue, VersionSet, take_apart};
use wp_rule::Parts;

/// What an ended store leaves.
#[derive(Drop)]
pub struct Finished<D> {
    pub history: History,
    pub disks: Disks<D>,
}

impl<D: Disk + Drop> Shared<D> {
    /// The first seat takes in one that it made: it keeps what that one knew and did.
    fn join(&self, first: &mut Seat<D>, other: Seat<D>)
        requires first { (first.old.table ≡ self.now.table) × (first.old.by ≡ 0) }
        requires other { IsFree self.now.table other }
        ensures { first.new ≡ record first.old { knows = joins first.old.knows other.knows } }
    {
        self.words.join(&mut first.seat, other.into_words());
    }

    /// Ends the store, and gives what lay behind the turns. The seats are the first one and then all that it made, none of which
    /// holds a turn.
    fn close(self, seats: Vec<Seat<D>>) -> Parts<TurnValue<D>>
        requires free { AllFree self.table seats.items }
        requires all { AreAll seats.items }
        ensures { Remains self seats.items (part_of result) }
    {
        let mut seats = seats;
        let mut first = seats.remove(0);
        while let Some(other) = seats.pop() {
            self.join(&mut first, other);
        }
        let words = self.into_words();
        words.close(first.into_words())
    }

    /// Ends the store, and gives its history and its devices. The seats are the first one and then all that it made, none of which
    /// holds a turn.
    pub fn finish(self, seats: Vec<Seat<D>>) -> Finished<D>
        requires free { AllFree self.table seats.items }
        requires all { AreAll seats.items }
        ensures base { (edit : InstalledEdit) → WasLast content self.first edit → result.history.base ≡ edit.segment.base }
        ensures ended { IsEnded self seats.items result.history.entries (devices_of D.moments D.faults result.disks) }
    {
        self.shows_one_store();
        let Parts { write, tables, .. } = self.close(seats);
        let (history, disks) = take_apart(
            Box::into_inner(Log::out_of(write)),
            Box::into_inner(VersionSet::out_of(tables)),
        );
        Finished { history, disks }
    }
}
