//! A store that was opened, for clients to share.
ghost use Rattle.std.specs.Prelude.{◌≡◌, ◌≤◌, ◌^◌, [], true, length, None, Some, IfOk, IfErr};
ghost use Rattle.wp_model.specs.Legal.{undone_last};
ghost use Rattle.wp_fields.specs.declared.format.Format.TheVariants.{Two};
ghost use Rattle.wp_entry.specs.Record.{last_number};
ghost use Rattle.wp_wal.specs.Wal.{WalState};
ghost use Rattle.wp_refused.specs.Refused.{IsRefusedFrom};
ghost use Rattle.wp_core.specs.World.{new_actor};
ghost use Rattle.wp_rule.specs.Words.{SawAll};
ghost use Rattle.wp_contents.specs.Opens.{installed_of};
ghost use Rattle.wp_parts.specs.Devices.{devices_of, devices_behind};
ghost use Rattle.wp_parts.specs.Parts.{log_first};
ghost use Rattle.wp_shared.specs.Seats.{place_at};
ghost use Rattle.wp_opened.specs.Filled.{WereOpened, set_in};
ghost use Rattle.wp_opened.specs.OpenedFrom.{HasParts, IsOpenedFrom};

use crate::filling::{delayed_flag, guard};
use std::alloc::Global;
use std::snapshot::Snapshot;
use wp_model::{Name, Seq};
use wp_open::{Parts, open_parts};
use wp_outside::{Disk, Disks};
use wp_parts::{BehindTurn, Log, VersionSet, take_apart};
use wp_refused::{OpenError, OpenRefused};
use wp_shared::{Seat, Shared};

/// Shares an opened store, with a commit cache of as many words as the bits number. No entry gets a number above the limit. The
/// first seat is this client's, and has seen the history that was opened. Where memory is wanting the devices come back.
pub fn share<D: Disk + Drop>(
    alloc: Global,
    client: Name,
    parts: Parts<D>,
    bits: u32,
    limit: Seq,
) -> Result<(Shared<D>, Seat<D>), Disks<D>>
    requires opened { WereOpened D.moments parts }
    requires base { parts.history.base ≡ parts.wal.segment.base }
    requires bits { bits ≤ 16 }
    requires limit { (1 ≤ limit) × (limit ≤ last_number Two) }
    ensures store { IfOk result (λ r. (r.0.opened ≡ parts.history.entries) × (r.0.cells ≡ 2 ^ bits) × (r.0.limit ≡ limit)) }
    ensures parts { IfOk result (λ r. HasParts parts.wal (set_in D.moments D.faults parts) (installed_of parts.wal.segment.base parts.manifest.edit parts.store.tables) r.0) }
    ensures seat { IfOk result (λ r. r.1 ≡ record { table = r.0.table; by = 0; knows = new_actor true client parts.history.entries; turns = [] }) }
    ensures stands { IfOk result (λ r. SawAll (place_at r.0 0) r.1.knows (length parts.history.entries)) }
    ensures refused { IfErr result (λ disks. devices_of D.moments D.faults disks ≡ devices_behind parts.wal (set_in D.moments D.faults parts)) }
{
    let history = Snapshot::of(&parts.history);
    let published = parts.history.published();
    let flag = delayed_flag(&parts.history);
    let slots = match guard(alloc, parts) {
        Ok(slots) => slots,
        Err(disks) => return Err(disks),
    };
    match Shared::new(alloc, client, history, published, flag, slots, bits, limit) {
        Ok(shared) => Ok(shared),
        Err(mut slots) => {
            let tables = Box::into_inner(VersionSet::out_of(slots.remove(5)));
            let log = Box::into_inner(Log::out_of(slots.remove(0)));
            Err(take_apart(log, tables).1)
        }
    }
}

/// Opens the log, the manifest and the tables of a store, and shares it. Where no log was made it makes one, with this id,
/// and likewise a manifest, with the log's. There are as many words in the commit cache as the bits number, and no entry gets
/// a number above the limit. The first seat is this client's, and has seen the history that was opened; with it comes the id of the
/// log. The devices come back with a refusal, of which want of memory may also come once all of them are read.
pub fn open_shared<D: Disk + Drop>(
    alloc: Global,
    client: Name,
    disks: Disks<D>,
    bits: u32,
    limit: Seq,
    id: u32,
) -> Result<(Shared<D>, Seat<D>, u32), OpenRefused<D>>
    requires bits { bits ≤ 16 }
    requires limit { (1 ≤ limit) × (limit ≤ last_number Two) }
    ensures store { IfOk result (λ r. (r.0.cells ≡ 2 ^ bits) × (r.0.limit ≡ limit)) }
    ensures opened { IfOk result (λ r. IsOpenedFrom id (devices_of D.moments D.faults disks) r.0) }
    ensures seat { IfOk result (λ r. r.1 ≡ record { table = r.0.table; by = 0; knows = new_actor true client r.0.opened; turns = [] }) }
    ensures stands { IfOk result (λ r. SawAll (place_at r.0 0) r.1.knows (length r.0.opened)) }
    ensures whole { IfOk result (λ r. undone_last r.0.opened ≡ None) }
    ensures id { IfOk result (λ r. (wal : WalState) → log_first r.0.first ≡ Some wal → r.2 ≡ wal.id) }
    ensures refused { IfErr result (λ refused. IsRefusedFrom id (refused.disks.log ≡ disks.log) (refused.disks.tables ≡ disks.tables)
        (devices_of D.moments D.faults disks) (devices_of D.moments D.faults refused.disks) refused.why) }
{
    let parts = match open_parts(alloc, disks, id) {
        Ok(parts) => parts,
        Err(refused) => return Err(refused),
    };
    let id = parts.wal.id();
    match share(alloc, client, parts, bits, limit) {
        Ok((store, first)) => Ok((store, first, id)),
        Err(disks) => Err(OpenRefused {
            disks,
            why: OpenError::Memory,
        }),
    }
}
