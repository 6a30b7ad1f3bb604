//! The manifest and the log of a store, in the order in which they are opened.
ghost use Rattle.std.specs.Prelude.{◌≡◌, IfOk, IfErr};
ghost use Rattle.wp_cuts.specs.LegalCut.{prepares_of};
ghost use Rattle.wp_history.specs.Outline.{cut_in};
ghost use Rattle.wp_contents.specs.Devices.{devices_of};
ghost use Rattle.wp_refused.specs.Parts.{LogsOpened};
ghost use Rattle.wp_refused.specs.Refused.{IsRefusedFrom};

use crate::manifest::{SeenManifest, find_manifest, may_open};
use std::alloc::Global;
use wp_gatelog::DiskRefused;
use wp_history::Outline;
use wp_manifest::{Manifest, a_manifest_is_read_in_one_way};
use wp_outside::{Device, Disk, Disks, Failed};
use wp_refused::{
    Bad, OpenError, OpenRefused, a_store_is_opened_in_one_way, log_reason, manifest_reason,
};
use wp_wal::{ReadWal, Wal};

/// The log and the manifest, both open and of one id, what the log tells, and the third device, which was not called yet.
#[derive(Drop)]
pub struct Logs<D: Disk> {
    pub wal: Wal<D>,
    pub outline: Outline,
    pub manifest: Manifest<D>,
    pub tables: D,
}

/// Hands the devices back.
fn refuse<D>(log: D, manifest: D, tables: D, why: OpenError) -> OpenRefused<D>
    ensures log { result.disks.log ≡ log }
    ensures manifest { result.disks.manifest ≡ manifest }
    ensures tables { result.disks.tables ≡ tables }
    ensures why { result.why ≡ why }
{
    let disks = Disks {
        log,
        manifest,
        tables,
    };
    OpenRefused { disks, why }
}

/// Opens the manifest wholly, if one was made, and reads the log at the place that its last edit names, or where its device begins. Once their
/// ids are compared the log is repaired; where none was made there it is made, with this id. Then a manifest is made with the log's id, where
/// none was.
pub fn open_logs<D: Disk>(
    alloc: Global,
    disks: Disks<D>,
    id: u32,
) -> Result<Logs<D>, OpenRefused<D>>
    ensures opened { IfOk result (λ logs. LogsOpened id (devices_of D.moments D.faults disks) logs.wal (cut_in logs.outline) logs.manifest) }
    ensures full { IfOk result (λ logs. logs.outline.entries ≡ prepares_of (cut_in logs.outline)) }
    ensures tables { IfOk result (λ logs. logs.tables ≡ disks.tables) }
    ensures refused { IfErr result (λ refused. IsRefusedFrom id (refused.disks.log ≡ disks.log) (refused.disks.tables ≡ disks.tables)
        (devices_of D.moments D.faults disks) (devices_of D.moments D.faults refused.disks) refused.why) }
{
    a_store_is_opened_in_one_way();
    a_manifest_is_read_in_one_way();
    let Disks {
        log,
        manifest,
        tables,
    } = disks;
    let seen = match find_manifest(alloc, manifest, id) {
        Ok(seen) => seen,
        Err(DiskRefused { disk, why }) => {
            return Err(refuse(log, disk, tables, manifest_reason(why)));
        }
    };
    let read = match ReadWal::read(alloc, log, seen.place(), id) {
        Ok(read) => read,
        Err(DiskRefused { disk, why }) => {
            return Err(refuse(disk, seen.into_disk(), tables, log_reason(why)));
        }
    };
    let log = read.id();
    if let Some(found) = seen.other_id(log) {
        let why = OpenError::Contents(Bad::Stranger { log, found });
        return Err(refuse(read.into_disk(), seen.into_disk(), tables, why));
    }
    let (wal, outline) = match read.repair() {
        Ok(opened) => opened,
        Err(DiskRefused { disk, why: Failed }) => {
            let why = OpenError::OpenFault(Device::Log);
            return Err(refuse(disk, seen.into_disk(), tables, why));
        }
    };
    let manifest = match seen.open(alloc, log) {
        Ok(manifest) => manifest,
        Err(DiskRefused { disk, why }) => {
            return Err(refuse(wal.into_disk(), disk, tables, manifest_reason(why)));
        }
    };
    match may_open(&wal, &manifest) {
        Ok(()) => Ok(Logs {
            wal,
            outline,
            manifest,
            tables,
        }),
        Err(bad) => {
            let why = OpenError::Contents(bad);
            Err(refuse(wal.into_disk(), manifest.into_disk(), tables, why))
        }
    }
}
