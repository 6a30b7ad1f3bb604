//! An opened store that is copied at its last entry, and ended.
ghost use Rattle.std.specs.Prelude.{◌≡◌, ◌≤◌, [], ℕ, List, None, IfErr, IfOk, vec_capacity};
ghost use Rattle.wp_model.specs.Legal.{undone_last};
ghost use Rattle.wp_fields.specs.declared.format.Format.TheVariants.{Two};
ghost use Rattle.wp_entry.specs.Record.{last_number};
ghost use Rattle.wp_outside.specs.Disk.{ReadsItself};
ghost use Rattle.wp_contents.specs.Devices.{devices_of};
ghost use Rattle.wp_seats.specs.New.{first_seat};
ghost use Rattle.wp_seats.specs.Seating.{IsSeating};
ghost use Rattle.wp_status.specs.Status.{IsBeforeSink, stage_of};
ghost use Rattle.wp_status.specs.Use.{IsDurable, disks_use, sink_use};
ghost use Rattle.wp_threads.specs.Idle.{IsUnused};
ghost use Rattle.wp_copy.specs.CopyAt.{CopiesTo, RefusesAt};
ghost use Rattle.wp_run.specs.Base.{IsBaseStore};
ghost use Rattle.wp_run_copy.specs.CopyCall.{Copies, copying_of};
ghost use Rattle.wp_run_copy.specs.Told.{IsStatusOf, Tells};

use crate::line::line_of;
use std::alloc::{AllocError, Global};
use std::sync::Wait;
use wp_args::{MOST_BITS, StoreOptions};
use wp_copy::{Copied, CopyAt, CopyError, CopyRefused, copy_at};
use wp_history::History;
use wp_opened::open_shared;
use wp_outside::{Disk, Disks, Sink};
use wp_read::{release, snapshot};
use wp_refused::OpenRefused;
use wp_shared::{Seat, Shared};
use wp_status::{Ended, Status, write_text};
use wp_threads::{ScriptRun, Seating, end_idle};

/// For the proof alone: the tables' device as it reads is one of its images.
fn shows_reading<D: Disk>(disks: &Disks<D>)
    ensures { ReadsItself (D.moments disks.now.tables) }
{
    let _ = &disks.tables;
}

/// For the proof alone: what the store had at the base of its log.
fn shows_base(history: &History)
    ensures { (store : List (List ℕ × List ℕ)) × IsBaseStore history.now.entries history.now.base store }
{
    history.store();
}

/// Copies the store at its last entry by its first seat, which nobody else has used, and which has nothing then.
fn copy_now<D: Disk + Drop, E: Disk, R: Wait>(
    store: &Shared<D>,
    rt: &R,
    alloc: Global,
    first: Seat<D>,
    id: u32,
    target: Disks<E>,
) -> (Seat<D>, Result<(Copied, Disks<E>), CopyRefused<E>>)
    requires first { first ≡ first_seat store.now first.knows.participant.client }
    requires whole { undone_last store.now.opened ≡ None }
    ensures unused { IsUnused store.now result.0 }
    ensures made { IfOk result.1 (λ made. CopiesTo id store.now.opened
        (devices_of E.moments E.faults target) made.0 (devices_of E.moments E.faults made.1)) }
    ensures refused { IfErr result.1 (λ refused. RefusesAt
        (devices_of E.moments E.faults target) (devices_of E.moments E.faults refused.target) refused.why) }
{
    let mut seat = first;
    let taken = match snapshot(store, rt, &mut seat) {
        Ok(taken) => taken,
        Err(AllocError) => {
            let why = CopyError::Memory;
            return (seat, Err(CopyRefused { target, why }));
        }
    };
    let CopyAt {
        mut seat,
        snapshot,
        outcome,
    } = copy_at(store, rt, alloc, seat, taken, id, target);
    release(store, rt, &mut seat, snapshot);
    (seat, outcome)
}

/// The end that names why a copy was not made.
fn status_of(why: CopyError) -> Status
    ensures { IsStatusOf why result }
{
    match why {
        CopyError::Memory => Status::Memory,
        CopyError::CopyHeld(device) => Status::CopyHeld(device),
        CopyError::CopyFault(device) => Status::CopyFault(device),
    }
}

/// Writes the line of a copy that was made, in memory that has room for it.
fn tell<E: Disk, K: Sink>(
    outcome: Result<(Copied, Disks<E>), CopyRefused<E>>,
    room: Vec<u8>,
    sink: &mut K,
) -> (Status, Disks<E>)
    requires empty { room.items ≡ [] }
    requires room { 71 ≤ vec_capacity room }
    ensures told { Tells outcome (sink_use K.contents K.faults sink.old sink.new) result.0 result.1 }
    ensures silent { IsBeforeSink (stage_of result.0) → sink.new ≡ sink.old }
    ensures sink_later { K.faults sink.old ≤ K.faults sink.new }
{
    match outcome {
        Ok((copied, target)) => {
            let line = line_of(room, &copied);
            (write_text(sink, Ok(line), false, false), target)
        }
        Err(CopyRefused { target, why }) => (status_of(why), target),
    }
}

/// Opens the store on the disks, or makes it, copies it, and ends it. The line has its memory before.
pub(crate) fn copy_store<R: Wait, D: Disk + Drop, E: Disk, K: Sink>(
    rt: &R,
    alloc: Global,
    options: StoreOptions,
    seating: Seating<D>,
    line: Vec<u8>,
    disks: Disks<D>,
    target: Disks<E>,
    sink: &mut K,
) -> (Ended<D>, Disks<E>)
    requires ranges { (options.bits ≤ MOST_BITS) × (1 ≤ options.limit) × (options.limit ≤ last_number Two) }
    requires seating { IsSeating [] seating.client seating.room }
    requires line { (line.items ≡ []) × (71 ≤ vec_capacity line) }
    ensures copies { Copies (copying_of options (disks_use D.moments D.faults disks result.0.disks) (disks_use E.moments E.faults target result.1)
        (sink_use K.contents K.faults sink.old sink.new)) result.0.status }
    ensures durable { IsDurable (disks_use D.moments D.faults disks result.0.disks) }
    ensures silent { IsBeforeSink (stage_of result.0.status) → sink.new ≡ sink.old }
    ensures sink_later { K.faults sink.old ≤ K.faults sink.new }
{
    shows_reading(&disks);
    let Seating { client, room } = seating;
    let StoreOptions { bits, limit, id } = options;
    let (store, first, id) = match open_shared(alloc, client, disks, bits, limit, id) {
        Ok(opened) => opened,
        Err(OpenRefused { disks, why }) => {
            let status = Status::from(why);
            return (Ended { status, disks }, target);
        }
    };
    let (seat, outcome) = copy_now(&store, rt, alloc, first, id, target);
    let (_names, _sessions, seats, answers) = room.into_lists();
    let ScriptRun { disks, history, .. } = end_idle(store, seat, seats, answers);
    shows_base(&history);
    let (status, target) = tell(outcome, line, sink);
    (Ended { status, disks }, target)
}
