ghost use Rattle.std.specs.Prelude.{◌≡◌, ◌≤◌, ℕ, map};
ghost use Rattle.std.specs.String.{string_bytes};
ghost use Rattle.wp_run.specs.Limits.{LimitsAre};
ghost use Rattle.wp_run.specs.Run.{call_of, CanMake, IsChoiceOf, IsChosen, IsOutcome, IsReadAs};
ghost use Rattle.wp_status.specs.Use.{disks_use, source_use, sink_use};
ghost use Rattle.wp_status.specs.Status.{LeavesUncalled, stage_of};

use crate::serve::serve;
use std::alloc::{AllocError, Global};
use std::sync::Wait;
use std::thread::Threads;
use wp_args::{Action, Choice, choice_of, words_choose_once};
use wp_make::make_script;
use wp_outside::{Disk, Disks, Gate, ReadError, Sink, Source, read_all};
use wp_status::{Ended, Status};
use wp_text::{MOST_BYTES, Script, ScriptError, read_script};
use wp_threads::Seating;

/// What the words choose.
fn choice_in(alloc: Global, words: &[String]) -> Result<Choice, Status>
    ensures { IsChoiceOf (map string_bytes words.now) result }
{
    match choice_of(alloc, words) {
        Ok(Some(choice)) => Ok(choice),
        Ok(None) => Err(Status::Words),
        Err(AllocError) => Err(Status::Memory),
    }
}

/// The script that the source holds.
fn script_in<S: Source>(alloc: Global, source: &mut S) -> Result<Script, Status>
    ensures read { IsReadAs Action.Run (source_use S.left S.faults source.old source.new) result }
    ensures later { S.faults source.old ≤ S.faults source.new }
{
    match read_all(alloc, source, MOST_BYTES + 1) {
        Ok(bytes) => match read_script(alloc, &bytes) {
            Ok(script) => Ok(script),
            Err(ScriptError::Memory) => Err(Status::Memory),
            Err(ScriptError::Fault(fault)) => Err(Status::Script(fault)),
        },
        Err(ReadError::Memory) => Err(Status::Memory),
        Err(ReadError::Fault) => Err(Status::SourceFault),
    }
}

/// The script that is to be run. To show a store is to run none. The source is not called then, nor where the script is made.
fn script_of<S: Source>(alloc: Global, action: Action, source: &mut S) -> Result<Script, Status>
    requires { CanMake action }
    ensures read { IsReadAs action (source_use S.left S.faults source.old source.new) result }
    ensures later { S.faults source.old ≤ S.faults source.new }
{
    match action {
        Action::Run => script_in(alloc, source),
        Action::Show => Ok(Script::new(Vec::new(alloc))),
        Action::Make {
            seed,
            clients,
            lines,
        } => make_script(alloc, seed, clients, lines).map_err(|_| Status::Memory),
    }
}

/// Runs the program on the words of its command line, of which the first is its name. Each client of the script runs on a thread
/// of its own where one can be made, and passes the gate before each of its commands.
pub fn run<R: Threads + Wait + Sync, D: Disk + Drop + Send, S: Source, K: Sink, G: Gate + Sync>(
    rt: &R,
    alloc: Global,
    words: &[String],
    disks: Disks<D>,
    source: &mut S,
    sink: &mut K,
    gate: &G,
) -> Ended<D>
    ensures outcome { IsOutcome (call_of (map string_bytes words.now) (source_use S.left S.faults source.old source.new) (disks_use D.moments D.faults disks result.disks) (sink_use K.contents K.faults sink.old sink.new)) result.status }
    ensures uncalled { LeavesUncalled (stage_of result.status) (source.new ≡ source.old) (result.disks ≡ disks) (sink.new ≡ sink.old) }
    ensures shown { IsChosen (map string_bytes words.now) Action.Show → source.new ≡ source.old }
    ensures made { (seed clients lines : ℕ) → IsChosen (map string_bytes words.now) (Action.Make seed clients lines) → source.new ≡ source.old }
    ensures source_later { S.faults source.old ≤ S.faults source.new }
    ensures sink_later { K.faults sink.old ≤ K.faults sink.new }
    ensures limits { LimitsAre }
{
    words_choose_once();
    let choice = match choice_in(alloc, words) {
        Ok(choice) => choice,
        Err(status) => return Ended { status, disks },
    };
    let script = match script_of(alloc, choice.action, source) {
        Ok(script) => script,
        Err(status) => return Ended { status, disks },
    };
    let parts = script.as_slice();
    let seating = match Seating::new(alloc, parts) {
        Ok(seating) => seating,
        Err(AllocError) => {
            let status = Status::Memory;
            return Ended { status, disks };
        }
    };
    serve(rt, alloc, choice, parts, seating, disks, sink, gate)
}
