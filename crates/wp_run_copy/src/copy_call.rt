ghost use Rattle.std.specs.Prelude.{◌≡◌, ◌≤◌, map};
ghost use Rattle.std.specs.String.{string_bytes};
ghost use Rattle.wp_status.specs.Status.{LeavesUncalled, stage_of};
ghost use Rattle.wp_status.specs.Use.{IsDurable, disks_use, sink_use};
ghost use Rattle.wp_run_copy.specs.Amiss.{IsCopiedOrLacksMemory, NothingIsAmiss};
ghost use Rattle.wp_run_copy.specs.CopyCall.{CopyEnds, IsCopyChoiceOf, copy_call_of};

use crate::line::MOST_LINE_BYTES;
use crate::store_copy::copy_store;
use std::alloc::{AllocError, Global};
use std::sync::Wait;
use wp_args::{StoreOptions, copy_choice_of};
use wp_outside::{Disk, Disks, Sink};
use wp_status::{Ended, Status};
use wp_threads::Seating;

/// The options that the words choose.
fn options_in(alloc: Global, words: &[String]) -> Result<StoreOptions, Status>
    ensures { IsCopyChoiceOf (map string_bytes words.now) result }
{
    match copy_choice_of(alloc, words) {
        Ok(Some(options)) => Ok(options),
        Ok(None) => Err(Status::Words),
        Err(AllocError) => Err(Status::Memory),
    }
}

/// Copies a store on the words of a command line, of which the first is the program's name: the store on the disks, at its last
/// entry, to the three devices of the target, which have to be empty. The disks come back with the status, and the target behind them.
/// Nobody else may use the store meanwhile.
pub fn run_copy<R: Wait, D: Disk + Drop, E: Disk, K: Sink>(
    rt: &R,
    alloc: Global,
    words: &[String],
    disks: Disks<D>,
    target: Disks<E>,
    sink: &mut K,
) -> (Ended<D>, Disks<E>)
    ensures ends { CopyEnds (copy_call_of (map string_bytes words.now) (disks_use D.moments D.faults disks result.0.disks)
        (disks_use E.moments E.faults target result.1) (sink_use K.contents K.faults sink.old sink.new)) result.0.status }
    ensures complete { NothingIsAmiss (copy_call_of (map string_bytes words.now) (disks_use D.moments D.faults disks result.0.disks)
        (disks_use E.moments E.faults target result.1) (sink_use K.contents K.faults sink.old sink.new)) → IsCopiedOrLacksMemory result.0.status }
    ensures durable { IsDurable (disks_use D.moments D.faults disks result.0.disks) }
    ensures uncalled { LeavesUncalled (stage_of result.0.status) (result.1 ≡ target) (result.0.disks ≡ disks) (sink.new ≡ sink.old) }
    ensures sink_later { K.faults sink.old ≤ K.faults sink.new }
{
    let options = match options_in(alloc, words) {
        Ok(options) => options,
        Err(status) => return (Ended { status, disks }, target),
    };
    let Ok(line) = Vec::with_capacity(alloc, MOST_LINE_BYTES) else {
        let status = Status::Memory;
        return (Ended { status, disks }, target);
    };
    let seating = match Seating::new(alloc, &[]) {
        Ok(seating) => seating,
        Err(AllocError) => {
            let status = Status::Memory;
            return (Ended { status, disks }, target);
        }
    };
    copy_store(rt, alloc, options, seating, line, disks, target, sink)
}
