//! The writing of a copy to its target: the table, the log, and the manifest last.
ghost use Rattle.std.specs.Prelude.{ℕ, List, IfErr, OnOk};
ghost use Rattle.wp_model.specs.declared.carried.Carried.{Carried};
ghost use Rattle.wp_outside.specs.Faults.{HasCause};
ghost use Rattle.wp_contents.specs.Devices.{devices_of};
ghost use Rattle.wp_checkpoint.specs.Amid.{LeavesAmid};
ghost use Rattle.wp_checkpoint.specs.Image.{IsNewLog, IsNewManifest};
ghost use Rattle.wp_checkpoint.specs.Target.{AreEmpty, AreLater, AreUnfailed, IsEmpty};
ghost use Rattle.wp_checkpoint.specs.Written.{FailsToWrite, HasImage, LeavesTable};

use crate::error::CopyError;
use crate::image::Image;
use wp_gatelog::make_whole;
use wp_outside::{Device, Disk, Disks, Failed};
use wp_table::Built;

/// Writes the table to an empty device, if there is one, and puts it there for good.
fn write_table<E: Disk>(disk: &mut E, table: &Option<Built>) -> Result<(), Failed>
    ensures written { IsEmpty (E.moments disk.old) → OnOk result (LeavesTable table.now (E.moments disk.old) (E.moments disk.new)) }
    ensures cause { HasCause (E.faults disk.old) (E.faults disk.new) result }
{
    let Some(table) = table else {
        return Ok(());
    };
    disk.write_at(0, table.bytes())?;
    disk.sync()
}

/// Writes the image to an empty target. It takes no memory.
pub(crate) fn write<E: Disk>(image: &Image, target: &mut Disks<E>) -> Result<(), CopyError>
    ensures written { (id at : ℕ) (carried : List Carried) → IsNewLog id at carried image.now.log
        → IsNewManifest id at image.now.table image.now.manifest → AreEmpty (devices_of E.moments E.faults target.old)
        → OnOk result (HasImage id at image.now (devices_of E.moments E.faults target.old) (devices_of E.moments E.faults target.new)) }
    ensures amid { (id at : ℕ) (carried : List Carried) → IsNewLog id at carried image.now.log
        → IsNewManifest id at image.now.table image.now.manifest
        → LeavesAmid id at carried (devices_of E.moments E.faults target.old) (devices_of E.moments E.faults target.new) }
    ensures unfailed { OnOk result (AreUnfailed (devices_of E.moments E.faults target.old) (devices_of E.moments E.faults target.new)) }
    ensures failed { IfErr result (FailsToWrite (devices_of E.moments E.faults target.old) (devices_of E.moments E.faults target.new)) }
    ensures later { AreLater (devices_of E.moments E.faults target.old) (devices_of E.moments E.faults target.new) }
{
    if let Err(Failed) = write_table(&mut target.tables, &image.table) {
        return Err(CopyError::CopyFault(Device::Tables));
    }
    if let Err(Failed) = image.log.make(&mut target.log) {
        return Err(CopyError::CopyFault(Device::Log));
    }
    if let Err(Failed) = make_whole(&mut target.manifest, &image.manifest) {
        return Err(CopyError::CopyFault(Device::Manifest));
    }
    Ok(())
}
