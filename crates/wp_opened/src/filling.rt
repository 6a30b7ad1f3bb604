//! An opened store, behind the turns.
ghost use Rattle.std.specs.FinMap as finite;
ghost use Rattle.std.specs.Prelude.{◌≡◌, ◌≤◌, ℕ, false, List, [], ◌∷◌, None, length, ◌+◌, vec_len, vec_capacity, IfOk, IfErr};
ghost use Rattle.wp_history_laws.specs.Opened.{AreOpened};
ghost use Rattle.wp_rule.specs.Shows.{Founds};
ghost use Rattle.wp_parts.specs.Devices.{devices_of, devices_behind};
ghost use Rattle.wp_parts.specs.VersionSet.{edits_state};
ghost use Rattle.wp_parts.specs.Log.{log_state, open_ending};
ghost use Rattle.wp_parts.specs.Parts.{content, tells, LogStands, EditsStand};
ghost use Rattle.wp_parts.specs.declared.turn_value.TurnValue.TheVariants as part;
ghost use Rattle.wp_opened.specs.Filled.{AreDelayed, AreFilled, IsFlagOf, WereOpened, set_in};

use std::alloc::{AllocError, Global};
use wp_history::History;
use wp_locks::Locks;
use wp_open::Parts;
use wp_outside::{Disk, Disks};
use wp_parts::{Log, Stock, TableVersions, TurnValue, VersionSet, take_apart};
use wp_prepared::Prepared;
use wp_snaps::Snaps;
use wp_store::Store;
use wp_tableset::TableSet;

/// What the values behind the turns need besides the parts of an opened store.
#[derive(Drop)]
struct TurnMemory<D: Disk> {
    prepared: Box<Prepared>,
    snaps: Box<Snaps>,
    locks: Box<Locks>,
    slots: Vec<TurnValue<D>>,
}

/// What each of the store's tables has, for clauses.
fn versions_of(alloc: Global, store: &Store) -> Result<Vec<TableVersions>, AllocError>
    ensures { IfOk result (λ versions. versions.items ≡ store.now.tables) }
{
    let tables = store.copy_tables()?;
    let mut versions = Vec::with_capacity(alloc, tables.len())?;
    for table in &tables {
        versions.push(TableVersions::of(table))?;
    }
    Ok(versions)
}

/// Takes the memory that they need besides.
fn room_for<D: Disk + Drop>(alloc: Global, history: &History) -> Result<TurnMemory<D>, AllocError>
    ensures prepared { IfOk result (λ room. AreDelayed history.now.entries room.prepared.value) }
    ensures snaps { IfOk result (λ room. room.snaps.value ≡ finite.empty) }
    ensures locks { IfOk result (λ room. AreOpened history.now.entries room.locks.value) }
    ensures slots { IfOk result (λ room. (room.slots.items ≡ []) × (vec_len room.slots + 6 ≤ vec_capacity room.slots)) }
{
    Ok(TurnMemory {
        prepared: Box::new(alloc, Prepared::delaying(alloc, history.undecided())?)?,
        snaps: Box::new(alloc, Snaps::new(alloc))?,
        locks: Box::new(alloc, Locks::left_by(history, alloc)?)?,
        slots: Vec::with_capacity(alloc, 6)?,
    })
}

/// The log, the versions and the tables of an opened store, each as its turn guards it.
#[derive(Drop)]
struct Guarded<D: Disk> {
    log: Box<Log<D>>,
    stock: Box<Stock>,
    edits: Box<VersionSet<D>>,
}

/// Makes them of the parts. Where memory is wanting the devices come back.
fn make_guarded<D: Disk + Drop>(
    alloc: Global,
    parts: Parts<D>,
    versions: Vec<TableVersions>,
) -> Result<Guarded<D>, Disks<D>>
    requires opened { WereOpened D.moments parts }
    requires base { parts.history.base ≡ parts.wal.segment.base }
    requires tables { versions.items ≡ parts.store.tables }
    ensures log { IfOk result (λ made. made.log.value ≡ log_state parts.wal parts.wal parts.history.entries [] false open_ending) }
    ensures stock { IfOk result (λ made. made.stock.value ≡ record { parts = parts.store; floor = length parts.history.entries }) }
    ensures edits { IfOk result (λ made. made.edits.value ≡ edits_state (set_in D.moments D.faults parts) (set_in D.moments D.faults parts) parts.wal.segment.base parts.store.tables None) }
    ensures refused { IfErr result (λ disks. devices_of D.moments D.faults disks ≡ devices_behind parts.wal (set_in D.moments D.faults parts)) }
{
    let Parts {
        wal,
        history,
        manifest,
        tables,
        store,
    } = parts;
    let stock = Box::new(alloc, Stock::new(store, history.published()));
    let base = history.base();
    let log = Log::new(alloc, wal, history);
    let edits = VersionSet::new(
        alloc,
        TableSet::new(alloc, manifest, tables),
        base,
        versions,
    );
    let Ok(stock) = stock else {
        return Err(take_apart(log, edits).1);
    };
    let log = match Box::new(alloc, log) {
        Ok(log) => log,
        Err(failed) => return Err(take_apart(failed.value, edits).1),
    };
    match Box::new(alloc, edits) {
        Ok(edits) => Ok(Guarded { log, stock, edits }),
        Err(failed) => Err(take_apart(Box::into_inner(log), failed.value).1),
    }
}

/// The values behind their turns, in memory that was taken.
fn fill<D: Disk>(guarded: Guarded<D>, room: TurnMemory<D>) -> Vec<TurnValue<D>>
    requires slots { (room.slots.items ≡ []) × (vec_len room.slots + 6 ≤ vec_capacity room.slots) }
    ensures slots { result.items ≡ part.Write guarded.log ∷ part.Prepared room.prepared ∷ part.Snapshots room.snaps ∷ part.Store guarded.stock ∷ part.Locks room.locks ∷ part.Tables guarded.edits ∷ [] }
    ensures log { LogStands guarded.log.value }
    ensures edits { EditsStand guarded.edits.value }
{
    let Guarded { log, stock, edits } = guarded;
    let TurnMemory {
        prepared,
        snaps,
        locks,
        mut slots,
        ..
    } = room;
    log.devices_agree();
    edits.devices_agree();
    slots.push(TurnValue::Write(log)).unwrap();
    slots.push(TurnValue::Prepared(prepared)).unwrap();
    slots.push(TurnValue::Snapshots(snaps)).unwrap();
    slots.push(TurnValue::Store(stock)).unwrap();
    slots.push(TurnValue::Locks(locks)).unwrap();
    slots.push(TurnValue::Tables(edits)).unwrap();
    slots
}

/// The devices of an opened store.
fn disks_of<D: Disk>(parts: Parts<D>) -> Disks<D>
    ensures { devices_of D.moments D.faults result ≡ devices_behind parts.wal (set_in D.moments D.faults parts) }
{
    let Parts {
        wal,
        manifest,
        tables,
        ..
    } = parts;
    Disks {
        log: wal.into_disk(),
        manifest: manifest.into_disk(),
        tables,
    }
}

/// Puts the parts of an opened store behind the turns, in their order. Where memory is wanting the devices come back.
pub(crate) fn guard<D: Disk + Drop>(
    alloc: Global,
    parts: Parts<D>,
) -> Result<Vec<TurnValue<D>>, Disks<D>>
    requires opened { WereOpened D.moments parts }
    requires base { parts.history.base ≡ parts.wal.segment.base }
    ensures founds { IfOk result (λ slots. (client : List ℕ) (cells flag : ℕ) → 1 ≤ cells → IsFlagOf parts.history.entries flag
        → Founds content (tells slots.items) client parts.history.entries cells flag slots.items) }
    ensures slots { IfOk result (λ slots. AreFilled parts.wal parts.history.entries (set_in D.moments D.faults parts) parts.store slots.items) }
    ensures refused { IfErr result (λ disks. devices_of D.moments D.faults disks ≡ devices_behind parts.wal (set_in D.moments D.faults parts)) }
{
    let Ok(room) = room_for(alloc, &parts.history) else {
        return Err(disks_of(parts));
    };
    let Ok(versions) = versions_of(alloc, &parts.store) else {
        return Err(disks_of(parts));
    };
    match make_guarded(alloc, parts, versions) {
        Ok(guarded) => Ok(fill(guarded, room)),
        Err(disks) => Err(disks),
    }
}

/// The flag with which the words of a store begin: 0 where the history leaves nothing undecided, else 1.
pub(crate) fn delayed_flag(history: &History) -> u64
    ensures { IsFlagOf history.now.entries result }
{
    u64::from(!history.undecided().is_empty())
}
