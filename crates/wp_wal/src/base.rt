//! The base record of a log.
ghost use Rattle.std.specs.Prelude.{◌≡◌, ◌≤◌, false, length, None, Ok, Some, IfOk};
ghost use Rattle.wp_fields.specs.declared.format.Format.TheVariants.{Two};
ghost use Rattle.wp_entry.specs.Base.{AscendUpTo, IsBase, base_bytes};
ghost use Rattle.wp_entry.specs.Record.{last_number};
ghost use Rattle.wp_wal.specs.Opening.{IsBaseAppended, first_of, first_record};

use std::alloc::{AllocError, Global};
use wp_entry::{Base, push_base};
use wp_fields::Format;
use wp_gatelog::{Frame, GateLog};
use wp_outside::{Disk, Failed};

/// The frame of the record that this base is.
pub(crate) fn base_frame(alloc: Global, base: &Base) -> Result<Frame, AllocError>
    requires small { base.now.number ≤ last_number Two }
    requires ascend { AscendUpTo base.now.number 0 base.now.carried }
    ensures base { IfOk result (λ _. IsBase base.now) }
    ensures bytes { IfOk result (λ frame. frame ≡ base_bytes base.now) }
{
    let mut room = Frame::room(alloc)?;
    push_base(&mut room, base)?;
    Frame::of(room)
}

/// The record that a log begins with which has so many: the base 0, which carries nothing, where one of the second version has none.
pub(crate) fn first_record(
    alloc: Global,
    format: Format,
    count: usize,
) -> Result<Option<Frame>, AllocError>
    ensures { IfOk result (λ first. first ≡ first_of format count) }
{
    if count > 0 || format == Format::One {
        return Ok(None);
    }
    let base = Base {
        number: 0,
        carried: Vec::new(alloc),
    };
    Ok(Some(base_frame(alloc, &base)?))
}

/// Appends the record that the log begins with, if there is one to append. It takes no memory.
pub(crate) fn begin_log<D: Disk>(log: &mut GateLog<D>, first: &Option<Frame>) -> Result<(), Failed>
    ensures none { first.now ≡ None → (log.new ≡ log.old) × (result ≡ Ok tt) }
    ensures some { first.now ≡ Some first_record → log.old.closed ≡ false → IsBaseAppended log.old log.new result }
    ensures later { log.old.faults ≤ log.new.faults }
{
    let Some(frame) = first else {
        return Ok(());
    };
    match log.append(frame) {
        Ok(()) => Ok(()),
        Err(_) => Err(Failed),
    }
}
