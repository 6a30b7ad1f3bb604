//! The stages of a record before its log call, and how it is taken back from each. Which steps of the machine a stage makes at its
//! load of the published number is picked in its proof.
ghost use Rattle.std.specs.Prelude.{◌≡◌, ◌+◌, ◌≤◌, true, false, [], ◌∷◌, ◌++◌, length, Some, OnOk, OnErr, MatchOption};
ghost use Rattle.wp_model.specs.declared.entry.Entry.{Entry};
ghost use Rattle.wp_model.specs.History.{is_prepare};
ghost use Rattle.wp_model.specs.Legal.{IsLegal, changes_in};
ghost use Rattle.wp_entry.specs.Record.{last_number};
ghost use Rattle.wp_model.specs.Record.{IsOneRecord};
ghost use Rattle.wp_core.specs.Entries.{next_of};
ghost use Rattle.wp_core.specs.Sound.Views.{IsNowhere};
ghost use Rattle.wp_core.specs.States.{writes, prepared};
ghost use Rattle.wp_core.specs.States as state;
ghost use Rattle.wp_core.specs.Views.{versions_in_memory, versions_nowhere, number_in_heap, number_not_in_heap, pair_not_delayed};
ghost use Rattle.wp_rule.specs.Knows.{HasNoVersions, Noted};
ghost use Rattle.wp_parts.specs.Stock.{store_state};
ghost use Rattle.wp_shared.specs.Notes.{GoesOn, DelayedFlagTells};
ghost use Rattle.wp_shared.specs.Seats.{held_by};
ghost use Rattle.wp_shared.specs.Turns.{history_in};
ghost use Rattle.wp_records.specs.Stages.{is_of_versions, is_of_number, is_of_stage, HoldsPending, HasPrepare, IsBegun};
ghost use Rattle.wp_records.specs.Writing.{HoldsWrite};

use crate::record::Record;
use crate::steps;
use std::alloc::AllocError;
use std::marker::Brand;
use std::sync::Wait;
use wp_model::{Batch, Entry};
use wp_outside::Disk;
use wp_prepared::Prepared;
use wp_shared::{Log, Seat, Shared, Stock};

// ---- the pending record

/// Makes the record pending, with all the memory that it needs in the log and the history.
pub(crate) fn make_pending<D: Disk + Drop>(
    store: &Shared<D>,
    seat: &mut Seat<D>,
    log: &mut Log<D>,
    entries: Record,
) -> Result<(), AllocError>
    requires holds { HoldsWrite store.now seat.old log.old }
    requires running { log.old.state.closed ≡ false }
    requires legal { IsLegal ((history_in log.old) ++ entries) }
    requires within { length (history_in log.old) + length entries ≤ last_number log.old.wal.format }
    ensures ok { OnOk result (IsBegun store.now seat.old log.old entries seat.new log.new) }
    ensures one { OnOk result (IsOneRecord log.new.state.pending) }
    ensures err { OnErr result ((seat.new ≡ seat.old) × (log.new ≡ log.old)) }
{
    let Ok(()) = log.reserve(entries.into_entries()) else {
        return Err(AllocError);
    };
    log.devices_agree();
    store.make_about::<Brand, Log<D>>(seat, log);
    Ok(())
}

// ---- versions

/// The changes of the first pending entry, if it has some.
fn next_batch<D: Disk>(log: &Log<D>) -> Option<&Batch>
    ensures { MatchOption result (HasNoVersions (next_of log.now.state.pending)) (λ batch. (entry : Entry) × (next_of log.now.state.pending ≡ Some entry) × (changes_in entry ≡ batch.now)) }
{
    match log.pending().first()? {
        Entry::Write(batch) | Entry::Prepare(_, batch) | Entry::Undo(_, batch) => Some(batch),
        Entry::Commit(_) | Entry::Close(_) => None,
    }
}

/// Under the store turn: puts the versions of the batch into memory, which are those of the pending entry.
fn insert_versions<D: Disk + Drop>(
    store: &Shared<D>,
    seat: &mut Seat<D>,
    log: &Log<D>,
    stock: &mut Stock,
    batch: &Batch,
) -> Result<(), AllocError>
    requires seat { seat.old.table ≡ store.now.table }
    requires held { held_by seat.old ≡ state.store (store_state stock.old) ∷ writes log.now.state ∷ [] }
    requires entry { (entry : Entry) × (next_of log.now.state.pending ≡ Some entry) × (changes_in entry ≡ batch.now) }
    requires nowhere { IsNowhere log.now.state (store_state stock.old) }
    ensures seat { GoesOn is_of_versions (state.store (store_state stock.new) ∷ writes log.now.state ∷ []) seat.old.turns seat.old seat.new }
    ensures ok { OnOk result (Noted seat.new.knows versions_in_memory) }
{
    stock.insert(log.published() + 1, batch)?;
    store.make_about::<Brand, Stock>(seat, stock);
    Ok(())
}

/// Puts the versions of the first pending entry into memory, if it has some.
pub(crate) fn put_versions<D: Disk + Drop, R: Wait>(
    store: &Shared<D>,
    rt: &R,
    seat: &mut Seat<D>,
    log: &Log<D>,
) -> Result<(), AllocError>
    requires holds { HoldsPending store.now seat.old log.now }
    requires nowhere { Noted seat.old.knows versions_nowhere }
    ensures holds { HoldsPending store.now seat.new log.now }
    ensures seat { GoesOn is_of_versions (held_by seat.old) seat.old.turns seat.old seat.new }
    ensures ok { OnOk result (Noted seat.new.knows versions_in_memory) }
{
    let Some(batch) = next_batch(log) else {
        steps::note_no_versions(store, seat, log);
        return Ok(());
    };
    let mut stock = store.take_turn::<Stock, R>(rt, seat);
    let result = insert_versions(store, seat, log, &mut stock, batch);
    store.give_turn(seat, stock);
    result
}

/// Under the store turn: takes the versions of the pending entry out of memory, if they are there. That none has a later number, each
/// world of the store shows.
fn remove_versions<D: Disk + Drop>(
    store: &Shared<D>,
    seat: &mut Seat<D>,
    log: &Log<D>,
    stock: &mut Stock,
)
    requires seat { seat.old.table ≡ store.now.table }
    requires held { held_by seat.old ≡ state.store (store_state stock.old) ∷ writes log.now.state ∷ [] }
    ensures seat { GoesOn is_of_versions (state.store (store_state stock.new) ∷ writes log.now.state ∷ []) seat.old.turns seat.old seat.new }
    ensures nowhere { Noted seat.new.knows versions_nowhere }
{
    store.shows_world(seat);
    stock.remove_from(log.published() + 1);
    store.make_about::<Brand, Stock>(seat, stock);
}

/// Takes the versions of the first pending entry out of memory, if they are there.
fn leave_memory<D: Disk + Drop, R: Wait>(
    store: &Shared<D>,
    rt: &R,
    seat: &mut Seat<D>,
    log: &Log<D>,
)
    requires holds { HoldsPending store.now seat.old log.now }
    ensures holds { HoldsPending store.now seat.new log.now }
    ensures seat { GoesOn is_of_versions (held_by seat.old) seat.old.turns seat.old seat.new }
    ensures nowhere { Noted seat.new.knows versions_nowhere }
{
    let mut stock = store.take_turn::<Stock, R>(rt, seat);
    remove_versions(store, seat, log, &mut stock);
    store.give_turn(seat, stock);
}

// ---- the number of a Prepare

/// Whether the first pending entry is a Prepare.
fn prepares<D: Disk>(log: &Log<D>) -> bool
    ensures is { result ≡ is_prepare (next_of log.now.state.pending) }
    ensures prepare { result ≡ true → HasPrepare log.now.state }
{
    match log.pending().first() {
        Some(Entry::Prepare(_, _)) => true,
        _ => false,
    }
}

/// Under the prepared turn: puts the number of the pending Prepare into the heap. That it is above those that are there, each
/// world of the store shows.
fn insert_number<D: Disk + Drop>(
    store: &Shared<D>,
    seat: &mut Seat<D>,
    log: &Log<D>,
    tables: &mut Prepared,
) -> Result<(), AllocError>
    requires seat { seat.old.table ≡ store.now.table }
    requires held { held_by seat.old ≡ prepared tables.old ∷ writes log.now.state ∷ [] }
    requires prepare { HasPrepare log.now.state }
    requires below { Noted seat.old.knows number_not_in_heap }
    requires flag { DelayedFlagTells seat.old.knows tables.old }
    ensures seat { GoesOn is_of_number (prepared tables.new ∷ writes log.now.state ∷ []) seat.old.turns seat.old seat.new }
    ensures flag { DelayedFlagTells seat.new.knows tables.new }
    ensures ok { OnOk result (Noted seat.new.knows number_in_heap) }
{
    store.shows_world(seat);
    tables.add(log.published() + 1)?;
    store.make::<Brand>(seat);
    Ok(())
}

/// Puts the number of the first pending entry into the heap, if it is a Prepare.
pub(crate) fn put_number<D: Disk + Drop, R: Wait>(
    store: &Shared<D>,
    rt: &R,
    seat: &mut Seat<D>,
    log: &Log<D>,
) -> Result<(), AllocError>
    requires holds { HoldsPending store.now seat.old log.now }
    requires below { Noted seat.old.knows number_not_in_heap }
    ensures holds { HoldsPending store.now seat.new log.now }
    ensures seat { GoesOn is_of_number (held_by seat.old) seat.old.turns seat.old seat.new }
    ensures ok { OnOk result (is_prepare (next_of log.now.state.pending) ≡ true → Noted seat.new.knows number_in_heap) }
{
    if !prepares(log) {
        return Ok(());
    }
    let mut tables = store.take_turn::<Prepared, R>(rt, seat);
    let result = insert_number(store, seat, log, &mut tables);
    store.give_turn(seat, tables);
    result
}

/// Under the prepared turn: takes the number of the pending Prepare out of the heap, if it is there. That no other prepared set has
/// it, each world of the store shows.
fn remove_number<D: Disk + Drop>(
    store: &Shared<D>,
    seat: &mut Seat<D>,
    log: &Log<D>,
    tables: &mut Prepared,
)
    requires seat { seat.old.table ≡ store.now.table }
    requires held { held_by seat.old ≡ prepared tables.old ∷ writes log.now.state ∷ [] }
    requires prepare { HasPrepare log.now.state }
    requires flag { DelayedFlagTells seat.old.knows tables.old }
    ensures seat { GoesOn is_of_number (prepared tables.new ∷ writes log.now.state ∷ []) seat.old.turns seat.old seat.new }
    ensures flag { DelayedFlagTells seat.new.knows tables.new }
    ensures below { Noted seat.new.knows number_not_in_heap }
{
    store.shows_world(seat);
    tables.remove(log.published() + 1);
    store.make::<Brand>(seat);
}

/// Takes the number of the first pending entry out of the heap, if it is a Prepare.
fn leave_heap<D: Disk + Drop, R: Wait>(store: &Shared<D>, rt: &R, seat: &mut Seat<D>, log: &Log<D>)
    requires holds { HoldsPending store.now seat.old log.now }
    ensures holds { HoldsPending store.now seat.new log.now }
    ensures seat { GoesOn is_of_number (held_by seat.old) seat.old.turns seat.old seat.new }
    ensures below { Noted seat.new.knows number_not_in_heap }
{
    if !prepares(log) {
        steps::note_no_number(store, seat, log);
        return;
    }
    let mut tables = store.take_turn::<Prepared, R>(rt, seat);
    remove_number(store, seat, log, &mut tables);
    store.give_turn(seat, tables);
}

// ---- all of it

/// Takes the pending record back, which is not logged, as far as it came: what was done last goes first.
pub(crate) fn take_back<D: Disk + Drop, R: Wait>(
    store: &Shared<D>,
    rt: &R,
    seat: &mut Seat<D>,
    log: &mut Log<D>,
)
    requires holds { HoldsPending store.now seat.old log.old }
    requires unlogged { log.old.state.logged ≡ false }
    requires undelayed { Noted seat.old.knows pair_not_delayed }
    ensures holds { HoldsWrite store.now seat.new log.new }
    ensures seat { GoesOn is_of_stage (writes log.new.state ∷ []) seat.old.turns seat.old seat.new }
    ensures log { log.new ≡ record log.old { state = record log.old.state { pending = [] } } }
{
    leave_heap(store, rt, seat, log);
    leave_memory(store, rt, seat, log);
    log.drop_pending();
    store.make::<Brand>(seat);
}
