//! A record from its making to the history.
ghost use Rattle.std.specs.Prelude.{◌≡◌, ◌≢◌, ◌+◌, ◌≤◌, suc, false, List, [], ◌∷◌, ◌++◌, length, OnOk, OnErr};
ghost use Rattle.wp_model.specs.declared.entry.Entry.{Entry};
ghost use Rattle.wp_entry.specs.Record.{last_number};
ghost use Rattle.wp_model.specs.Record.{IsOneRecord};
ghost use Rattle.wp_core.specs.Views.{versions_in_memory, versions_nowhere, number_not_in_heap, pair_not_delayed, none_waits};
ghost use Rattle.wp_rule.specs.Knows.{Noted};
ghost use Rattle.wp_shared.specs.Notes.{GoesOn};
ghost use Rattle.wp_shared.specs.Seats.{held_by};
ghost use Rattle.wp_shared.specs.Turns.{history_in};
ghost use Rattle.wp_commits.specs.declared.way.Way.{Way};
ghost use Rattle.wp_commits.specs.Ways.{ways_of, AnyClears, RisesFor, AreApart};
ghost use Rattle.wp_records.specs.Writing.{HoldsWrite};
ghost use Rattle.wp_records.specs.Records.{MayPut, IsPutWith, Puts};
ghost use Rattle.wp_records.specs.Stages.{is_guarded, HoldsPending, IsUnlogged, IsReadied, Logs, AreBehind, MayJoin, HasJoined};

use crate::error::WriteError;
use crate::record::Record;
use crate::stages::{make_pending, put_number, put_versions, take_back};
use crate::steps;
use std::alloc::AllocError;
use std::sync::Wait;
use wp_commits::{clear_all, enter};
use wp_outside::Disk;
use wp_shared::{Log, Seat, Shared};

// ---- before the log call

/// Clears for the pairs of the pending record, puts its versions into memory, and the number of a Prepare into the heap.
fn ready<D: Disk + Drop, R: Wait>(
    store: &Shared<D>,
    rt: &R,
    seat: &mut Seat<D>,
    log: &Log<D>,
) -> Result<(), AllocError>
    requires holds { HoldsPending store.now seat.old log.now }
    requires nowhere { Noted seat.old.knows versions_nowhere }
    requires below { Noted seat.old.knows number_not_in_heap }
    requires undelayed { Noted seat.old.knows pair_not_delayed }
    ensures holds { HoldsPending store.now seat.new log.now }
    ensures undelayed { Noted seat.new.knows pair_not_delayed }
    ensures seat { GoesOn is_guarded (held_by seat.old) seat.old.turns seat.old seat.new }
    ensures ok { OnOk result (IsReadied seat.new.knows store.now.cells log.now.state) }
    ensures waits { OnOk result (AnyClears (ways_of store.now.cells (suc (length (history_in log.now))) log.now.state.pending) → Noted seat.new.knows none_waits) }
    ensures bound { OnOk result (RisesFor store.now.cells (length (history_in log.now)) seat.old.knows seat.new.knows (ways_of store.now.cells (suc (length (history_in log.now))) log.now.state.pending)) }
    ensures refused { OnErr result ((cleared : List Way) × (others : List Way) × (ways_of store.now.cells (suc (length (history_in log.now))) log.now.state.pending ≡ cleared ++ others)
        × RisesFor store.now.cells (length (history_in log.now)) seat.old.knows seat.new.knows cleared) }
{
    clear_all(store, rt, seat, log)?;
    put_versions(store, rt, seat, log)?;
    put_number(store, rt, seat, log)
}

/// Appends the pending record to the log, while the seat holds no turn but the write turn. Where the device fails the record is
/// taken back.
fn append<D: Disk + Drop, R: Wait>(
    store: &Shared<D>,
    rt: &R,
    seat: &mut Seat<D>,
    log: &mut Log<D>,
) -> Result<(), WriteError>
    requires holds { HoldsPending store.now seat.old log.old }
    requires unlogged { IsUnlogged log.old.state }
    requires undelayed { Noted seat.old.knows pair_not_delayed }
    ensures { Logs store.now seat.old log.old result seat.new log.new }
{
    let Ok(()) = log.append(seat.words()) else {
        steps::close_log(store, seat, log);
        take_back(store, rt, seat, log);
        return Err(WriteError::LogFault);
    };
    steps::log_pending(store, seat, log);
    Ok(())
}

// ---- behind it: no want of memory refuses this

/// Keeps the pair of the first pending entry, which is logged, in its way, and puts that entry into the history.
fn publish_next<D: Disk + Drop, R: Wait>(
    store: &Shared<D>,
    rt: &R,
    seat: &mut Seat<D>,
    log: &mut Log<D>,
)
    requires holds { HoldsPending store.now seat.old log.old }
    requires some { log.old.state.pending ≢ [] }
    requires may { MayJoin seat.old.knows store.now.cells log.old.state }
    requires versions { Noted seat.old.knows versions_in_memory }
    ensures joined { (entry : Entry) (others : List Entry) → log.old.state.pending ≡ entry ∷ others → HasJoined store.now seat.old log.old entry others seat.new log.new }
    ensures may { MayJoin seat.new.knows store.now.cells log.new.state }
    ensures behind { AreBehind log.new.state.pending }
{
    let n = log.published() + 1;
    enter(store, rt, seat, log);
    log.publish();
    store.store_published(seat, n);
}

/// Puts the pending entries, which are logged, into the history, one after another. The log's device is not called.
fn publish_all<D: Disk + Drop, R: Wait>(
    store: &Shared<D>,
    rt: &R,
    seat: &mut Seat<D>,
    log: &mut Log<D>,
)
    requires holds { HoldsPending store.now seat.old log.old }
    requires some { log.old.state.pending ≢ [] }
    requires running { log.old.state.closed ≡ false }
    requires may { MayJoin seat.old.knows store.now.cells log.old.state }
    requires versions { Noted seat.old.knows versions_in_memory }
    ensures put { IsPutWith store.now seat.old log.old [] log.old.state.pending seat.new log.new }
    ensures uncalled { (log.new.wal ≡ log.old.wal) × (log.new.state.log ≡ log.old.state.log) }
{
    publish_next(store, rt, seat, log);
    while !log.pending().is_empty() {
        steps::note_no_versions(store, seat, log);
        publish_next(store, rt, seat, log);
    }
}

// ---- all of it

/// Puts the pending record, of which nothing is anywhere, into the log and the history.
fn put_pending<D: Disk + Drop, R: Wait>(
    store: &Shared<D>,
    rt: &R,
    seat: &mut Seat<D>,
    log: &mut Log<D>,
) -> Result<(), WriteError>
    requires holds { HoldsPending store.now seat.old log.old }
    requires unlogged { IsUnlogged log.old.state }
    requires one { IsOneRecord log.old.state.pending }
    requires may { MayPut seat.old.knows (history_in log.old) log.old.state.pending }
    requires apart { AreApart store.now.cells (ways_of store.now.cells (suc (length (history_in log.old))) log.old.state.pending) }
    requires nowhere { Noted seat.old.knows versions_nowhere }
    requires below { Noted seat.old.knows number_not_in_heap }
    requires undelayed { Noted seat.old.knows pair_not_delayed }
    ensures { Puts store.now seat.old log.old log.old.state.pending result seat.new log.new }
{
    let Ok(()) = ready(store, rt, seat, log) else {
        take_back(store, rt, seat, log);
        return Err(WriteError::Memory);
    };
    store.shows_world(seat);
    append(store, rt, seat, log)?;
    publish_all(store, rt, seat, log);
    Ok(())
}

/// Puts the entries of a record into the history, with numbers that the log's version has. Of two whose pairs have one place in the
/// commit cache the earlier one decides itself.
pub fn put<D: Disk + Drop, R: Wait>(
    store: &Shared<D>,
    rt: &R,
    seat: &mut Seat<D>,
    log: &mut Log<D>,
    entries: Record,
) -> Result<(), WriteError>
    requires holds { HoldsWrite store.now seat.old log.old }
    requires running { log.old.state.closed ≡ false }
    requires may { MayPut seat.old.knows (history_in log.old) entries }
    requires within { length (history_in log.old) + length entries ≤ last_number log.old.wal.format }
    requires apart { AreApart store.now.cells (ways_of store.now.cells (suc (length (history_in log.old))) entries) }
    ensures { Puts store.now seat.old log.old entries result seat.new log.new }
{
    make_pending(store, seat, log, entries)?;
    put_pending(store, rt, seat, log)
}
