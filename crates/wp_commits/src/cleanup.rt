//! Late clean-up: a decided number leaves the prepared sets.
ghost use Rattle.std.specs.Prelude.{◌≡◌, ℕ, true, Some};
ghost use Rattle.wp_judge.specs.Words.{commit_pair, fits};
ghost use Rattle.wp_model.specs.Decision.{decision_of};
ghost use Rattle.wp_core.specs.Lists.{IsIn};
ghost use Rattle.wp_core.specs.Views.{has_left};
ghost use Rattle.wp_shared.specs.Calls.{Continues};
ghost use Rattle.wp_shared.specs.Seats.{IsFree, participant_of, seen_by};

use crate::steps;
use std::sync::Wait;
use wp_model::Seq;
use wp_outside::Disk;
use wp_prepared::Prepared;
use wp_shared::{Seat, Shared};

/// Takes the number of a transaction that is decided, by a pair that fits a word, out of the prepared heap, the delayed set and the
/// delayed commits, once the write turn is given, and notes that it has left the heap and the delayed set. It takes no memory.
pub fn forget_prepared<D: Disk + Drop, R: Wait>(
    store: &Shared<D>,
    rt: &R,
    seat: &mut Seat<D>,
    p: Seq,
)
    requires free { IsFree store.now.table seat.old }
    requires decided { (c : ℕ) × (decision_of (seen_by seat.old) p ≡ Some c) × (fits store.now.cells (commit_pair p c) ≡ true) }
    ensures seat { Continues store.now seat.old seat.new (participant_of seat.old) }
    ensures same { participant_of seat.new ≡ participant_of seat.old }
    ensures gone { IsIn (has_left p) seat.new.knows.notes }
{
    let mut tables = store.take_turn::<Prepared, R>(rt, seat);
    steps::forget_prepared(store, seat, &mut tables, p);
    store.give_turn(seat, tables);
}
