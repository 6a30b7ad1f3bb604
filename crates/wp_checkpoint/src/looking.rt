//! The look at the targets, before anything is copied.
ghost use Rattle.std.specs.Prelude.{◌≡◌, ◌≤◌, OnOk, IfErr};
ghost use Rattle.wp_contents.specs.Devices.{devices_of};
ghost use Rattle.wp_checkpoint.specs.Looking.{IsRefusedBy, IsSeen};
ghost use Rattle.wp_checkpoint.specs.Target.{AreEmpty, RefusesCopy, StayAsTheyWere};
ghost use Rattle.wp_checkpoint.specs.declared.looking.Seen.TheVariants.{Empty};

use crate::error::CopyError;
use wp_outside::{Device, Disk, Disks, Failed, own_len};

/// What a look at a device showed.
#[derive(Clone, Copy)]
enum Seen {
    Empty,
    Held,
    Failed,
}

fn see<E: Disk>(disk: &mut E) -> Seen
    ensures seen { IsSeen (E.moments disk.old) (E.faults disk.old) (E.faults disk.new) result }
    ensures unchanged { E.moments disk.new ≡ E.moments disk.old }
    ensures later { E.faults disk.old ≤ E.faults disk.new }
{
    match own_len(disk) {
        Ok(0) => Seen::Empty,
        Ok(_) => Seen::Held,
        Err(Failed) => Seen::Failed,
    }
}

/// The first that has bytes is the answer, behind one that failed too; else the first that failed.
fn answer(log: Seen, manifest: Seen, tables: Seen) -> Result<(), CopyError>
    ensures ok { OnOk result ((log ≡ Empty) × (manifest ≡ Empty) × (tables ≡ Empty)) }
    ensures err { IfErr result (IsRefusedBy log manifest tables) }
{
    match (log, manifest, tables) {
        (Seen::Held, _, _) => Err(CopyError::CopyHeld(Device::Log)),
        (_, Seen::Held, _) => Err(CopyError::CopyHeld(Device::Manifest)),
        (_, _, Seen::Held) => Err(CopyError::CopyHeld(Device::Tables)),
        (Seen::Failed, _, _) => Err(CopyError::CopyFault(Device::Log)),
        (_, Seen::Failed, _) => Err(CopyError::CopyFault(Device::Manifest)),
        (_, _, Seen::Failed) => Err(CopyError::CopyFault(Device::Tables)),
        (Seen::Empty, Seen::Empty, Seen::Empty) => Ok(()),
    }
}

/// All three are looked at, whatever one of them answers.
pub(crate) fn look<E: Disk>(target: &mut Disks<E>) -> Result<(), CopyError>
    ensures empty { OnOk result (AreEmpty (devices_of E.moments E.faults target.old)) }
    ensures unfailed { OnOk result (devices_of E.moments E.faults target.new ≡ devices_of E.moments E.faults target.old) }
    ensures stay { StayAsTheyWere (devices_of E.moments E.faults target.old) (devices_of E.moments E.faults target.new) }
    ensures refused { IfErr result (RefusesCopy (devices_of E.moments E.faults target.old) (devices_of E.moments E.faults target.new)) }
{
    let log = see(&mut target.log);
    let manifest = see(&mut target.manifest);
    let tables = see(&mut target.tables);
    answer(log, manifest, tables)
}
