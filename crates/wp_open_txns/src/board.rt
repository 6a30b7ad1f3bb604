//! The board: labels, each with the number that was told last under it.
ghost use Rattle.std.specs.Prelude.{◌≡◌, [], length, OnOk};
ghost use Rattle.wp_core.specs.States.{locks};
ghost use Rattle.wp_core.specs.World.{World};
ghost use Rattle.wp_shared.specs.Seats.{IsFree, Stands, seen_by};
ghost use Rattle.wp_shared.specs.Turns.{HoldsTurn};
ghost use Rattle.wp_open_txns.specs.Calls.{WasHistory, Tells, Hears};
ghost use Rattle.wp_open_txns.specs.Under.{TellsUnder, HearsUnder};

use crate::error::TxnError;
use crate::steps::{hear_label, tell_label};
use std::alloc::Global;
use std::sync::Wait;
use wp_locks::Locks;
use wp_model::{Name, Seq};
use wp_outside::Disk;
use wp_shared::{Seat, Shared};

/// Puts the number of what the seat has seen under the label.
fn tell_under<D: Disk + Drop>(
    store: &Shared<D>,
    seat: &mut Seat<D>,
    tables: &mut Locks,
    label: &Name,
    told: Name,
    published: Seq,
) -> Result<(), TxnError>
    requires seat { HoldsTurn store.now seat.old (locks tables.old) [] [] }
    requires label { told ≡ label.now }
    requires seen { published ≡ length (seen_by seat.old) }
    ensures answered { TellsUnder tables.old seat.old label.now result tables.new seat.new }
    ensures holds { HoldsTurn store.now seat.new (locks tables.new) [] [] }
    ensures stands { OnOk result ((w : World) × Stands store.now seat.new w) }
{
    tables.tell(told, published)?;
    tell_label(store, seat, label);
    Ok(())
}

/// Tells under the label how much the seat has seen, in place of what was told there before. The answer is the number told: that
/// published now.
pub fn tell<D: Disk + Drop, R: Wait>(
    store: &Shared<D>,
    rt: &R,
    alloc: Global,
    seat: &mut Seat<D>,
    label: &Name,
) -> Result<Seq, TxnError>
    requires { IsFree store.now.table seat.old }
    ensures { Tells store.now seat.old label.now result seat.new }
{
    let told = label.copy(alloc)?;
    let mut tables = store.take_turn::<Locks, R>(rt, seat);
    let published = store.published(seat);
    let outcome = tell_under(store, seat, &mut tables, label, told, published);
    store.give_turn(seat, tables);
    outcome?;
    Ok(published)
}

/// Hears what is under the label.
fn hear_under<D: Disk + Drop>(
    store: &Shared<D>,
    seat: &mut Seat<D>,
    tables: &Locks,
    label: &Name,
) -> Result<Seq, TxnError>
    requires { HoldsTurn store.now seat.old (locks tables.now) [] [] }
    ensures answered { HearsUnder tables.now seat.old label.now result seat.new }
    ensures holds { HoldsTurn store.now seat.new (locks tables.now) [] [] }
    ensures published { OnOk result (WasHistory store.now seat.old (seen_by seat.new)) }
{
    match tables.told(label) {
        Some(number) => Ok(hear_label(store, seat, tables, label, number)),
        None => Err(TxnError::Silent),
    }
}

/// Hears the label, and sees no less than was seen by whoever told it last. The answer is the number published now. It takes no
/// memory.
pub fn hear<D: Disk + Drop, R: Wait>(
    store: &Shared<D>,
    rt: &R,
    seat: &mut Seat<D>,
    label: &Name,
) -> Result<Seq, TxnError>
    requires { IsFree store.now.table seat.old }
    ensures { Hears store.now seat.old label.now result seat.new }
{
    let tables = store.take_turn::<Locks, R>(rt, seat);
    let outcome = hear_under(store, seat, &tables, label);
    store.give_turn(seat, tables);
    outcome
}
