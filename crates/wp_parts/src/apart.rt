//! What lies behind the turns with devices, taken apart.
ghost use Rattle.std.specs.Prelude.{◌≡◌};
ghost use Rattle.wp_parts.specs.Devices.{devices_of, devices_behind};
ghost use Rattle.wp_parts.specs.VersionSet.{IsEdits};
ghost use Rattle.wp_parts.specs.Log.{IsLog};

use crate::edits::VersionSet;
use crate::log::Log;
use wp_history::History;
use wp_outside::{Disk, Disks};

/// The history and the devices of what lay behind the write turn and the tables turn.
pub fn take_apart<D: Disk>(log: Log<D>, edits: VersionSet<D>) -> (History, Disks<D>)
    ensures base { result.0.base ≡ log.first.segment.base }
    ensures history { result.0.entries ≡ log.state.history }
    ensures disks { devices_of D.moments D.faults result.1 ≡ devices_behind log.wal edits.set }
    ensures log { IsLog log }
    ensures edits { IsEdits edits }
{
    let (wal, history) = log.into_parts();
    let devices = edits.into_disks();
    (
        history,
        Disks {
            log: wal.into_disk(),
            manifest: devices.manifest,
            tables: devices.tables,
        },
    )
}
