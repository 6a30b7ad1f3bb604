//! Opening a store.
ghost use Rattle.std.specs.Prelude.{◌≡◌, ◌≤◌, IfOk, IfErr, OnOk};
ghost use Rattle.wp_outside.specs.Disk.{IfKnown, added, after_sync};
ghost use Rattle.wp_outside.specs.Faults.{Rose};
ghost use Rattle.std.specs.List.{AllByRecursion};
ghost use Rattle.wp_cuts.specs.LegalCut.{prepares_of};
ghost use Rattle.wp_history.specs.Outline.{cut_in};
ghost use Rattle.wp_table.specs.File.{HasTables};
ghost use Rattle.wp_table.specs.Table.{IsTable};
ghost use Rattle.wp_contents.specs.Devices.{devices_of};
ghost use Rattle.wp_refused.specs.Tables.{IsStoreCause, LeavesSynced};
ghost use Rattle.wp_refused.specs.Parts.{IsStoreOf, PartsOpened, ArePartsOf};
ghost use Rattle.wp_refused.specs.Refused.{IsRefusedFrom, IsApart};
ghost use Rattle.wp_refused.specs.Damage.{IsWithin};
ghost use Rattle.wp_refused.specs.declared.error.OpenError.TheVariants as open_error;

use crate::judging::judged;
use crate::memory::later_memory;
use crate::tables::own_tables;
use std::alloc::Global;
use wp_history::{History, Outline};
use wp_logs::{Logs, open_logs};
use wp_manifest::{Edit, Manifest};
use wp_outside::{Device, Disk, Disks};
use wp_refused::{Bad, OpenError, OpenRefused, a_store_is_opened_in_one_way};
use wp_store::Store;
use wp_wal::Wal;

/// The parts of an open store: the log and the history that it spells, the manifest, the tables' device, and the versions.
#[derive(Drop)]
pub struct Parts<D: Disk> {
    pub wal: Wal<D>,
    pub history: History,
    pub manifest: Manifest<D>,
    pub tables: D,
    pub store: Store,
}

/// Whether what the log tells is from the entries that the edit has flushed on, and has all of those.
fn is_within(outline: &Outline, edit: &Edit) -> Result<(), Bad>
    ensures ok { OnOk result (IsWithin (cut_in outline.now) edit.now) }
    ensures err { IfErr result (λ bad. IsApart (cut_in outline.now) edit.now (open_error.Contents bad)) }
{
    let flushed = edit.flushed;
    let base = outline.base();
    if base > flushed {
        return Err(Bad::BaseAhead { base, flushed });
    }
    let length = outline.published();
    if flushed > length {
        return Err(Bad::LogBehind { flushed, length });
    }
    Ok(())
}

/// Reads the edit's tables, judges by them what the log tells, and puts the versions of the later entries into memory. It asks first
/// whether the log is of the entries that were flushed, and syncs the device before it reads.
fn open_store<D: Disk>(
    alloc: Global,
    tables: &mut D,
    id: u32,
    outline: Outline,
    edit: &Edit,
) -> Result<(History, Store), OpenError>
    requires { outline.entries ≡ prepares_of (cut_in outline) }
    ensures base { IfOk result (λ opened. opened.0.base ≡ outline.base) }
    ensures cut { IfOk result (λ opened. cut_in opened.0 ≡ cut_in outline) }
    ensures store { IfOk result (λ opened. IsStoreOf (cut_in outline) opened.0.entries edit.now opened.1) }
    ensures there { IfOk result (λ opened. IfKnown (D.moments tables.old) (λ m. HasTables id edit.now.flushed m.reads edit.now.tables opened.1.tables)) }
    ensures are { IfOk result (λ opened. AllByRecursion (IsTable id edit.now.flushed) opened.1.tables) }
    ensures synced { OnOk result (D.moments tables.new ≡ added after_sync (D.moments tables.old)) }
    ensures cause { IfErr result (IsStoreCause id (cut_in outline) edit.now (Rose (D.faults tables.old) (D.faults tables.new)) (D.moments tables.old)) }
    ensures left { IfErr result (LeavesSynced (tables.new ≡ tables.old) (D.moments tables.old) (D.moments tables.new)) }
    ensures later { D.faults tables.old ≤ D.faults tables.new }
    ensures unfailed { OnOk result (D.faults tables.new ≡ D.faults tables.old) }
{
    match is_within(&outline, edit) {
        Ok(()) => {}
        Err(bad) => return Err(OpenError::Contents(bad)),
    }
    let Ok(()) = tables.sync() else {
        return Err(OpenError::OpenFault(Device::Tables));
    };
    let parts = own_tables(alloc, tables, id, edit)?;
    let history = judged(alloc, outline, edit, &parts)?;
    let memory = later_memory(alloc, &history, edit.flushed)?;
    Ok((history, Store::new(alloc, memory, parts)))
}

/// Opens the manifest, the log and the tables of a store. Where no log was made it makes one, with this id, and likewise a
/// manifest, with the log's. It takes a time that grows with the number of bytes.
pub fn open_parts<D: Disk>(
    alloc: Global,
    disks: Disks<D>,
    id: u32,
) -> Result<Parts<D>, OpenRefused<D>>
    ensures base { IfOk result (λ parts. parts.history.base ≡ parts.wal.segment.base) }
    ensures opened { IfOk result (λ parts. PartsOpened id (D.moments disks.log) (D.moments disks.manifest) (D.moments disks.tables) parts.wal parts.history.entries parts.manifest (D.moments parts.tables) parts.store) }

    ensures found { IfOk result (λ parts. ArePartsOf id (devices_of D.moments D.faults disks) parts.wal parts.history.entries parts.manifest (D.faults parts.tables) parts.store) }
    ensures refused { IfErr result (λ refused. IsRefusedFrom id (refused.disks.log ≡ disks.log) (refused.disks.tables ≡ disks.tables)
        (devices_of D.moments D.faults disks) (devices_of D.moments D.faults refused.disks) refused.why) }
{
    a_store_is_opened_in_one_way();
    let Logs {
        wal,
        outline,
        manifest,
        mut tables,
    } = match open_logs(alloc, disks, id) {
        Ok(logs) => logs,
        Err(refused) => return Err(refused),
    };
    match open_store(alloc, &mut tables, wal.id(), outline, manifest.edit()) {
        Ok((history, store)) => Ok(Parts {
            wal,
            history,
            manifest,
            tables,
            store,
        }),
        Err(why) => {
            let disks = Disks {
                log: wal.into_disk(),
                manifest: manifest.into_disk(),
                tables,
            };
            Err(OpenRefused { disks, why })
        }
    }
}
