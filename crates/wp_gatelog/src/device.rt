//! A change of a disk, and the sync after it.

ghost use Rattle.std.specs.Prelude.{◌≡◌, ℕ, ◌+◌, ◌≤◌, ◌^◌, [], ◌++◌, List, length, OnOk};
ghost use Rattle.wp_outside.specs.Disk.{added, after_write, after_cut, after_sync, write_end};
ghost use Rattle.wp_outside.specs.Faults.{HasCause};
ghost use Rattle.wp_gatelog.specs.Beside.{BringsBoth};
ghost use Rattle.wp_gatelog.specs.Changes.{Steps};
ghost use Rattle.wp_gatelog.specs.Moments.{IsSynced};

use wp_outside::{Disk, Failed};

/// Writes, and puts it on the disk for good.
pub(crate) fn write_synced<D: Disk>(disk: &mut D, at: u64, bytes: &[u8]) -> Result<(), Failed>
    ensures changes { (front before : List ℕ) (from : ℕ) → at ≡ length front + from
        → IsSynced (front ++ before) (D.moments disk.old)
        → Steps front (after_write from bytes.now) before (D.moments disk.old) (D.moments disk.new) result }
    ensures brings { (end : ℕ) → BringsBoth at bytes.now end (D.moments disk.old) (D.moments disk.new) result }
    ensures calls { OnOk result
        (D.moments disk.new ≡ added after_sync (added (after_write at bytes.now) (D.moments disk.old))) }
    ensures bounded { OnOk result (write_end at bytes.now ≤ 2 ^ 62) }
    ensures unknown { D.moments disk.old ≡ [] → D.moments disk.new ≡ [] }
    ensures cause { HasCause (D.faults disk.old) (D.faults disk.new) result }
{
    disk.write_at(at, bytes)?;
    disk.sync()
}

/// Cuts to `len` bytes, and puts that on the disk for good.
pub(crate) fn cut_synced<D: Disk>(disk: &mut D, len: u64) -> Result<(), Failed>
    ensures changes { (front before : List ℕ) (from : ℕ) → len ≡ length front + from
        → IsSynced (front ++ before) (D.moments disk.old)
        → Steps front (after_cut from) before (D.moments disk.old) (D.moments disk.new) result }
    ensures unknown { D.moments disk.old ≡ [] → D.moments disk.new ≡ [] }
    ensures cause { HasCause (D.faults disk.old) (D.faults disk.new) result }
{
    disk.cut(len)?;
    disk.sync()
}
