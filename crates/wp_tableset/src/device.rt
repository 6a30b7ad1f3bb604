//! The device of the table files.

ghost use Rattle.std.specs.Prelude.{◌≡◌, ◌++◌, ℕ, List, IfOk, OnOk};
ghost use Rattle.wp_gatelog.specs.Moments.{IsSynced};
ghost use Rattle.wp_outside.specs.Disk.{IfKnown, added, after_write, after_sync};
ghost use Rattle.wp_outside.specs.Faults.{HasCause};
ghost use Rattle.wp_tableset.specs.Device.{GrowsFrom, IsEnd};

use wp_outside::{Disk, Failed, own_len};

/// Writes the bytes behind all others, and puts them on the disk for good. It answers their place.
pub(crate) fn write_behind<D: Disk>(disk: &mut D, bytes: &[u8]) -> Result<u64, Failed>
    ensures grows { (before : List ℕ) → IsSynced before (D.moments disk.old)
        → GrowsFrom before (D.moments disk.old) (D.moments disk.new) }
    ensures place { IfOk result (IsEnd (D.moments disk.old)) }
    ensures calls { IfOk result (λ place. D.moments disk.new ≡ added after_sync (added (after_write place bytes.now) (D.moments disk.old))) }
    ensures synced { OnOk result (IfKnown (D.moments disk.old) (λ m. IsSynced (m.reads ++ bytes.now) (D.moments disk.new))) }
    ensures cause { HasCause (D.faults disk.old) (D.faults disk.new) result }
{
    let place = own_len(disk)?;
    disk.write_at(place, bytes)?;
    disk.sync()?;
    Ok(place)
}
