//! A script served over a store.
ghost use Rattle.std.specs.Prelude.{◌≡◌, ◌≤◌, ℕ, List, length};
ghost use Rattle.wp_fields.specs.declared.format.Format.TheVariants.{Two};
ghost use Rattle.wp_entry.specs.Record.{last_number};
ghost use Rattle.wp_outside.specs.Disk.{ReadsItself};
ghost use Rattle.wp_run.specs.Base.{IsBaseStore};
ghost use Rattle.wp_seats.specs.Seating.{IsSeating};
ghost use Rattle.wp_run.specs.Serving.{ServesExactly, HasEnded};
ghost use Rattle.wp_status.specs.Status.{IsBeforeSink, stage_of};
ghost use Rattle.wp_status.specs.Use.{IsDurable, disks_use, sink_use};

use std::alloc::Global;
use std::sync::Wait;
use std::thread::Threads;
use wp_args::{Action, Choice, MOST_BITS, StoreOptions};
use wp_opened::open_shared;
use wp_outside::{Disk, Disks, Gate, Sink};
use wp_refused::OpenRefused;
use wp_status::{Ended, Status, write_text};
use wp_text::Part;
use wp_threads::{ScriptRun, Seating, run_script};
use wp_transcript::{log_failed, tables_failed, text_of};

/// Writes what the clients were answered, and the history, as the command tells them. The text is built whole before its
/// first byte is written.
fn finish<D: Drop, K: Sink>(
    alloc: Global,
    action: Action,
    parts: &[Part],
    run: ScriptRun<D>,
    sink: &mut K,
) -> Ended<D>
    requires parts { length parts.now ≡ length run.answers.items }
    ensures disks { result.disks ≡ run.disks }
    ensures ended { (store : List (List ℕ × List ℕ)) × IsBaseStore run.history.entries run.history.base store
        × HasEnded action parts.now run.answers.items run.history.base store run.history.entries (sink_use K.contents K.faults sink.old sink.new) result.status }
    ensures silent { IsBeforeSink (stage_of result.status) → sink.new ≡ sink.old }
    ensures sink_later { K.faults sink.old ≤ K.faults sink.new }
{
    let ScriptRun {
        answers,
        history,
        disks,
    } = run;
    let text = text_of(alloc, action, parts, &answers, &history, history.store());
    let stopped = log_failed(&answers);
    let halted = tables_failed(&answers);
    let status = write_text(sink, text, stopped, halted);
    Ended { status, disks }
}

/// For the proof alone: the tables' device as it reads is one of its images.
fn shows_reading<D: Disk>(disks: &Disks<D>)
    ensures { ReadsItself (D.moments disks.now.tables) }
{
    let _ = &disks.tables;
}

/// Opens the store on the disks, or makes it, as the choice says, and answers the script's clients.
pub(crate) fn serve<R: Threads + Wait + Sync, D: Disk + Drop + Send, K: Sink, G: Gate + Sync>(
    rt: &R,
    alloc: Global,
    choice: Choice,
    parts: &[Part],
    seating: Seating<D>,
    disks: Disks<D>,
    sink: &mut K,
    gate: &G,
) -> Ended<D>
    requires ranges { (choice.store.bits ≤ MOST_BITS) × (1 ≤ choice.store.limit) × (choice.store.limit ≤ last_number Two) }
    requires seating { IsSeating parts.now seating.client seating.room }
    ensures serves { ServesExactly (record {
      choice = choice;
      script = parts.now;
      disks = disks_use D.moments D.faults disks result.disks;
      sink = sink_use K.contents K.faults sink.old sink.new;
    }) result.status }
    ensures durable { IsDurable (disks_use D.moments D.faults disks result.disks) }
    ensures silent { IsBeforeSink (stage_of result.status) → sink.new ≡ sink.old }
    ensures sink_later { K.faults sink.old ≤ K.faults sink.new }
{
    shows_reading(&disks);
    let Seating { client, room } = seating;
    let StoreOptions { bits, limit, id } = choice.store;
    match open_shared(alloc, client, disks, bits, limit, id) {
        Ok((store, first, _id)) => {
            let run = run_script(rt, alloc, store, first, gate, parts, room);
            finish(alloc, choice.action, parts, run, sink)
        }
        Err(OpenRefused { disks, why }) => {
            let status = Status::from(why);
            Ended { status, disks }
        }
    }
}
