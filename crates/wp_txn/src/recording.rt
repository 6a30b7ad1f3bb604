//! A record of entries, from the taking of the write turn to its giving.
ghost use Rattle.std.specs.Prelude.{◌≡◌, ◌+◌, ◌≤◌, ℕ, min, true, false, List, [], length, IfOk, IfErr};
ghost use Rattle.std.specs.List.{AllByRecursion};
ghost use Rattle.wp_model.specs.Batch.{is_batch};
ghost use Rattle.wp_fields.specs.declared.format.Format.TheVariants.{Two};
ghost use Rattle.wp_entry.specs.Record.{last_number};
ghost use Rattle.wp_core.specs.Lists.{IsIn};
ghost use Rattle.wp_core.specs.States.{writes};
ghost use Rattle.wp_core.specs.Turns.{write_turn};
ghost use Rattle.wp_commits.specs.Ways.{ways_of, AreApart};
ghost use Rattle.wp_parts.specs.Log.{IsLog};
ghost use Rattle.wp_records.specs.Records.{MayPut};
ghost use Rattle.wp_records.specs.Writing.{HoldsWrite};
ghost use Rattle.wp_shared.specs.Seats.{IsFree, held_by, participant_of};
ghost use Rattle.wp_shared.specs.Turns.{Given, history_in};
ghost use Rattle.wp_txn.specs.Recording.{OpensLog, IsDecided, NotesMore, notes_of_each, MayNote, MayRecord, notes_of, PutsNoting, Records, answer_of};
ghost use Rattle.wp_txn.specs.Writes.{Refuses, MayLeaveDevice};

use crate::steps::{find_base, find_log_closed, note_undecided, note_unprepared};
use std::sync::Wait;
use wp_fields::Format;
use wp_model::{Batch, Name, Seq};
use wp_open_txns::{PreparedTxn, TxnError};
use wp_outside::Disk;
use wp_records::{Record, WriteError, put};
use wp_shared::{Log, Seat, Shared};

/// What is noted of a record once it is in the history.
#[derive(Drop)]
pub(crate) enum Noting<'a> {
    Nothing,
    /// The number of the undecided prepare of this name.
    Undecided(&'a Name),
    /// Of each of these, which the record decides, that no undecided prepare has its name.
    Unprepared(&'a [PreparedTxn]),
}

/// The greatest number that an entry of a log in this version may get, where this is the limit.
fn least_limit(limit: Seq, format: Format) -> Seq
    requires { limit ≤ last_number Two }
    ensures { result ≡ min limit (last_number format) }
{
    match format {
        Format::One => limit.min(u64::from(u32::MAX)),
        Format::Two => limit,
    }
}

/// Takes the write turn with the log, if that is running and so many entries more have their numbers within the limit, of which those
/// of its version are the last.
fn open_log<D: Disk + Drop, R: Wait>(
    store: &Shared<D>,
    rt: &R,
    seat: &mut Seat<D>,
    needed: Seq,
) -> Result<Box<Log<D>>, TxnError>
    requires free { IsFree store.now.table seat.old }
    ensures ok { IfOk result (λ log. OpensLog store.now seat.old seat.new log.value needed) }
    ensures refused { IfErr result (λ why. Refuses store.now seat.old seat.new needed (λ asked. ⊥) (participant_of seat.old) (participant_of seat.old) why × MayLeaveDevice store.now (participant_of seat.old) seat.old why seat.new) }
{
    let log = store.take_log(rt, seat);
    log.devices_agree();
    let published = log.published();
    if log.is_closed() {
        find_log_closed(store, seat, &log);
        store.give_turn(seat, log);
        return Err(TxnError::Stopped(published));
    }
    let limit = least_limit(store.limit(), log.format());
    if published.saturating_add(needed) > limit {
        find_base(store, seat, &log);
        store.give_turn(seat, log);
        return Err(TxnError::NumbersFull { published, limit });
    }
    Ok(log)
}

/// Gives the write turn with the log. The answer is the number published now, or why the record is not there.
fn close_log<D: Disk + Drop>(
    store: &Shared<D>,
    seat: &mut Seat<D>,
    log: Box<Log<D>>,
    outcome: Result<(), WriteError>,
) -> Result<Seq, TxnError>
    requires { HoldsWrite store.now seat.old log.value }
    ensures gives { Given store.now write_turn seat.old seat.new [] [] }
    ensures answer { result ≡ answer_of outcome (length log.value.state.history) }
    ensures log { IsLog log.value }
{
    log.devices_agree();
    let published = log.published();
    store.give_turn(seat, log);
    match outcome {
        Ok(()) => Ok(published),
        Err(WriteError::Memory) => Err(TxnError::Memory),
        Err(WriteError::LogFault) => Err(TxnError::LogFault),
    }
}

/// Notes of each of them, which are decided, that no undecided prepare has its name.
fn note_decided<D: Disk + Drop>(
    store: &Shared<D>,
    seat: &mut Seat<D>,
    log: &Log<D>,
    txns: &[PreparedTxn],
)
    requires seat { (seat.old.table ≡ store.now.table) × (seat.old.knows.live ≡ true) }
    requires held { IsIn (writes log.now.state) (held_by seat.old) }
    requires decided { AllByRecursion (IsDecided seat.old (history_in log.now)) txns.now }
    ensures { NotesMore seat.old (notes_of_each txns.now) seat.new }
{
    for txn in txns {
        note_unprepared(store, seat, log, txn.name());
    }
}

/// Puts the record into the history, and notes what is to be noted of it.
fn put_noting<D: Disk + Drop, R: Wait>(
    store: &Shared<D>,
    rt: &R,
    seat: &mut Seat<D>,
    log: &mut Log<D>,
    entries: Record,
    noting: Noting,
) -> Result<(), WriteError>
    requires holds { HoldsWrite store.now seat.old log.old }
    requires running { log.old.state.closed ≡ false }
    requires may { MayPut seat.old.knows (history_in log.old) entries }
    requires apart { (n : ℕ) → AreApart store.now.cells (ways_of store.now.cells n entries) }
    requires within { length (history_in log.old) + length entries ≤ last_number log.old.wal.format }
    requires noting { MayNote noting (history_in log.old) entries }
    ensures { PutsNoting store.now seat.old log.old entries (notes_of noting.entry (length (history_in log.new))) result seat.new log.new }
{
    put(store, rt, seat, log, entries)?;
    match noting {
        Noting::Nothing => Ok(()),
        Noting::Undecided(name) => {
            note_undecided(store, seat, log, name, log.published());
            Ok(())
        }
        Noting::Unprepared(txns) => {
            note_decided(store, seat, log, txns);
            Ok(())
        }
    }
}

/// Puts the record into the history, where it may come next, and notes what is to be noted of it. The answer is the number of
/// its last entry.
pub(crate) fn record<D: Disk + Drop, R: Wait>(
    store: &Shared<D>,
    rt: &R,
    seat: &mut Seat<D>,
    entries: Record,
    noting: Noting,
) -> Result<Seq, TxnError>
    requires free { IsFree store.now.table seat.old }
    requires may { MayRecord store.now seat.old entries noting }
    ensures { Records store.now seat.old entries (notes_of noting.entry) result seat.new }
{
    let mut log = open_log(store, rt, seat, entries.len() as Seq)?;
    let outcome = put_noting(store, rt, seat, &mut log, entries, noting);
    close_log(store, seat, log, outcome)
}

/// For the proof alone: they are a batch.
pub(crate) fn shows_batch(batch: &Batch)
    ensures { is_batch batch.now ≡ true }
{
    batch.changes();
}
