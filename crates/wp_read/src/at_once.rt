//! A read as of now, under the snapshots turn.
//!
//! While a seat holds the turn no pair is evicted that its snapshot would have to keep. So a snapshot that is given back before the
//! turn is does not come into the live snapshots, and needs no memory.
ghost use Rattle.std.specs.Prelude.{◌≡◌, List, [], ◌∷◌, ◌++◌, MatchOption, IfOk, OnErr};
ghost use Rattle.wp_model.specs.History.{value_at};
ghost use Rattle.wp_model.specs.Snapshots.{Snapshots, NoOldCommits};
ghost use Rattle.wp_core.specs.Lists.{IsIn};
ghost use Rattle.wp_core.specs.Reading.{Registration};
ghost use Rattle.wp_core.specs.States as table;
ghost use Rattle.wp_shared.specs.Calls.{Continues, GoesOnWith};
ghost use Rattle.wp_shared.specs.Seats.{IsFree, held_by, participant_of, seen_by};
ghost use Rattle.wp_shared.specs.Turns.{HoldsTurn};
ghost use Rattle.wp_read.specs.AtOnce.{BeginsRead, IsBegun, IsNotOfStore, ReadsOn, kept_by};
ghost use Rattle.wp_read.specs.Registers.{Unregisters, registered_by};

use crate::answers::Free;
use crate::deciding::decide_free;
use crate::registration::{NOTHING_KNOWN, Snapshot};
use crate::steps::{register, unregister_last};
use crate::values::{FIRST_COPIES, copy_newest, take_version};
use std::alloc::AllocError;
use std::sync::Wait;
use wp_model::{Key, Seq, Value, Version};
use wp_outside::Disk;
use wp_shared::{Seat, Shared};
use wp_snaps::Snaps;

/// What a read as of now comes to under the snapshots turn.
pub enum Begun {
    /// The value, or none, with the number that it was read at.
    Read(Option<Value>, Seq),
    /// A snapshot, at which the value is to be read. It has to be released.
    Registered(Snapshot),
}

/// The value of the key at the snapshot, if loads that need no turn show its newest version there.
fn newest_value<D: Disk + Drop, R: Wait>(
    store: &Shared<D>,
    rt: &R,
    seat: &mut Seat<D>,
    key: &Key,
    snapshot: &Snapshot,
) -> Result<Option<Option<Value>>, AllocError>
    requires holds { (m : Snapshots) × HoldsTurn store.now seat.old (table.snapshots m) [] [] }
    requires registered { IsIn snapshot.now seat.old.knows.participant.registered }
    ensures goes { ReadsOn seat.old seat.new }
    ensures value { IfOk result (λ found. MatchOption found (Unit {0}) (λ value. value ≡ value_at (seen_by seat.old) key.now snapshot.now.number)) }
{
    let found = copy_newest(store, rt, seat, key, FIRST_COPIES)?;
    if found.as_slice().is_empty() {
        return Ok(Some(None));
    }
    let newest = found.as_slice()[0].number;
    match decide_free(store, seat, newest, snapshot) {
        Free::Decided(true) => {
            let Version { value, .. } = take_version(found, 0);
            Ok(Some(value))
        }
        Free::Decided(false) | Free::Prepared(_) | Free::Snapshots(_) => Ok(None),
    }
}

/// Takes back the registration of the snapshot, which was made last and is not in the live snapshots.
fn give_back<D: Disk + Drop>(store: &Shared<D>, seat: &mut Seat<D>, snapshot: Snapshot)
    requires seat { seat.old.table ≡ store.now.table }
    requires last { (front : List Registration) × (seat.old.knows.participant.registered ≡ front ++ snapshot ∷ []) }
    requires snapshots { (m : Snapshots) × IsIn (table.snapshots m) (held_by seat.old) }
    ensures { (front : List Registration) (m : Snapshots) → seat.old.knows.participant.registered ≡ front ++ snapshot ∷ []
        → IsIn (table.snapshots m) (held_by seat.old) → Unregisters seat.old seat.new front [] snapshot m }
{
    unregister_last(store, seat);
    let Snapshot {
        number: _number,
        smallest: _smallest,
    } = snapshot;
}

/// Begins to read under the snapshots turn. A refusal leaves no registration.
fn begin_in<D: Disk + Drop, R: Wait>(
    store: &Shared<D>,
    rt: &R,
    seat: &mut Seat<D>,
    key: &Key,
    snaps: &mut Snaps,
) -> Result<Begun, AllocError>
    requires holds { HoldsTurn store.now seat.old (table.snapshots snaps.old) [] [] }
    ensures goes { GoesOnWith IsNotOfStore seat.old seat.new (registered_by kept_by result (participant_of seat.old)) }
    ensures holds { HoldsTurn store.now seat.new (table.snapshots snaps.new) [] [] }
    ensures begun { IfOk result (IsBegun store.now seat.old (seen_by seat.new) key.now) }
    ensures kept { NoOldCommits snaps.new → NoOldCommits snaps.old }
{
    let number = register(store, seat, Some(NOTHING_KNOWN));
    let snapshot = Snapshot {
        number,
        smallest: NOTHING_KNOWN,
    };
    match newest_value(store, rt, seat, key, &snapshot) {
        Ok(Some(value)) => {
            give_back(store, seat, snapshot);
            Ok(Begun::Read(value, number))
        }
        Ok(None) => match snaps.register(number) {
            Ok(()) => Ok(Begun::Registered(snapshot)),
            Err(error) => {
                give_back(store, seat, snapshot);
                Err(error)
            }
        },
        Err(error) => {
            give_back(store, seat, snapshot);
            Err(error)
        }
    }
}

/// Reads the key as it is now, under the snapshots turn. Where its newest version does not tell, it takes a brief snapshot at which
/// the caller reads it. Want of memory leaves no registration.
pub fn begin_read<D: Disk + Drop, R: Wait>(
    store: &Shared<D>,
    rt: &R,
    seat: &mut Seat<D>,
    key: &Key,
) -> Result<Begun, AllocError>
    requires { IsFree store.now.table seat.old }
    ensures begun { IfOk result (BeginsRead store.now seat.old seat.new key.now) }
    ensures refused { OnErr result (Continues store.now seat.old seat.new (participant_of seat.old)) }
{
    let mut snaps = store.take_turn::<Snaps, R>(rt, seat);
    let begun = begin_in(store, rt, seat, key, &mut snaps);
    store.give_turn::<Snaps>(seat, snaps);
    begun
}
