//! The writing of a text.
ghost use Rattle.std.specs.Prelude.{◌≡◌, ◌≤◌, IfOk, OnErr};
ghost use Rattle.wp_status.specs.Status.{IsBeforeSink, stage_of};
ghost use Rattle.wp_status.specs.Use.{sink_use};
ghost use Rattle.wp_status.specs.Written.{IsWritten};

use crate::status::Status;
use std::alloc::AllocError;
use wp_outside::{Failed, Sink, write_all};

/// Writes the text, where there is one. The status says whether it was written whole, and else what failed before: the log, or
/// the tables.
pub fn write_text<K: Sink>(
    sink: &mut K,
    text: Result<Vec<u8>, AllocError>,
    stopped: bool,
    halted: bool,
) -> Status
    ensures written { IfOk text (λ text. IsWritten stopped halted (sink_use K.contents K.faults sink.old sink.new) text.items result) }
    ensures unwritten { OnErr text (result ≡ Status.Memory) }
    ensures silent { IsBeforeSink (stage_of result) → sink.new ≡ sink.old }
    ensures later { K.faults sink.old ≤ K.faults sink.new }
{
    let Ok(text) = text else {
        return Status::Memory;
    };
    match write_all(sink, &text) {
        Ok(()) if stopped => Status::LogFault,
        Ok(()) if halted => Status::TableFault,
        Ok(()) => Status::Ok,
        Err(Failed) => Status::SinkFault,
    }
}
