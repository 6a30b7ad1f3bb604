//! Whether the versions and the edits of a world may become others.
ghost use Rattle.std.specs.Prelude.{◌≡◌, ◌≤◌, ◌⊎◌, ◌↔◌, ◌++◌, Bool, true, false, ◌+◌, Some, IfOk};
ghost use Rattle.std.specs.Option.{option_copied};
ghost use Rattle.wp_model.specs.Flushed as edits;
ghost use Rattle.wp_core.specs.Steps as step;
ghost use Rattle.wp_core.specs.Needs.{Needs};
ghost use Rattle.wp_core.specs.World.{Actor};
ghost use Rattle.wp_core.specs.Turns.{write_turn, store_turn, tables_turn, Holds};
ghost use Rattle.wp_core.specs.Conditions.{SameVersions, NamesSegment, NamesNext, KeepsStore};
ghost use Rattle.wp_core.specs.Effects.{with_failed};
ghost use Rattle.wp_machine_permits.specs.VersionLists.{AreSame, SameAt};

use crate::needs::edits::{is_next_segment, is_segment};
use crate::needs::read::history_of;
use crate::needs::stored::is_stored;
use crate::needs::versions::{are_same, joined, only_at};
use std::alloc::AllocError;
use wp_machine::{InstalledEdit, Turn, World};
use wp_model::{Seq, Version};

/// The base at which the log was opened.
fn opened_base(world: &World) -> Seq
    ensures { result ≡ world.now.first_edit.segment.base }
{
    world.first_edit.segment.base
}

/// Whether a store of this memory and these tables, with these edits, would be as it should be.
fn keeps_store(
    world: &World,
    memory: &[Version],
    tables: &[Version],
    floor: Seq,
    last: &InstalledEdit,
    failed: Option<&InstalledEdit>,
) -> Result<bool, AllocError>
    ensures { IfOk result (λ yes. (halted : Bool) → yes ≡ true
        → KeepsStore world.now (record { memory = memory.now; tables = tables.now; floor = floor }) (record { last = last.now; failed = option_copied failed.entry; halted = halted })) }
{
    let alloc = world.alloc;
    let Some(history) = history_of(world.writes.entries(), alloc)? else {
        return Ok(false);
    };
    let pending = world.writes.next_entries();
    let yes = is_stored(
        &history,
        pending,
        opened_base(world),
        &world.snapshots,
        memory,
        tables,
        floor,
        last,
        failed,
        alloc,
    )?;
    Ok(yes)
}

fn same_at(
    n: Seq,
    versions: &[Version],
    others: &[Version],
    world: &World,
) -> Result<bool, AllocError>
    ensures { IfOk result (λ yes. yes ≡ true → SameAt n versions.now others.now) }
{
    let here = only_at(n, versions, world.alloc)?;
    let there = only_at(n, others, world.alloc)?;
    Ok(are_same(&here, &there))
}

fn same_all(memory: &[Version], tables: &[Version], world: &World) -> Result<bool, AllocError>
    ensures { IfOk result (λ yes. yes ≡ true → AreSame (memory.now ++ tables.now) (world.now.store.memory ++ world.now.store.tables)) }
{
    let new = joined(memory, tables, world.alloc)?;
    let old = joined(world.store.memory(), world.store.tables(), world.alloc)?;
    Ok(are_same(&new, &old))
}

/// Whether these are the same versions, the pending entry's where they were.
fn same_versions(world: &World, memory: &[Version], tables: &[Version]) -> Result<bool, AllocError>
    ensures { IfOk result (λ yes. yes ≡ true → SameVersions world.now memory.now tables.now) }
{
    if !same_all(memory, tables, world)? {
        return Ok(false);
    }
    let n = world.writes.next_number()?;
    let yes = same_at(n, memory, world.store.memory(), world)?;
    Ok(yes)
}

fn holds_tables(world: &World, by: usize) -> bool
    ensures { (result ≡ true) ↔ Holds world.now.holders tables_turn by }
{
    world.holders.of(Turn::Tables) == Some(by)
}

fn holds_write(world: &World, by: usize) -> bool
    ensures { (result ≡ true) ↔ Holds world.now.holders write_turn by }
{
    world.holders.of(Turn::Write) == Some(by)
}

fn holds_store(world: &World, by: usize) -> bool
    ensures { (result ≡ true) ↔ Holds world.now.holders store_turn by }
{
    world.holders.of(Turn::Store) == Some(by)
}

/// Whether a flush may leave this memory and these tables.
pub(crate) fn may_move_versions(
    world: &World,
    by: usize,
    memory: &[Version],
    tables: &[Version],
) -> Result<bool, AllocError>
    ensures { (a : Actor) → IfOk result (λ yes. yes ≡ true → Needs world.now by a (step.move_versions memory.now tables.now)) }
{
    if !holds_store(world, by) {
        return Ok(false);
    }
    if !holds_tables(world, by) {
        return Ok(false);
    }
    if !same_versions(world, memory, tables)? {
        return Ok(false);
    }
    let installed = &world.installed;
    let yes = keeps_store(
        world,
        memory,
        tables,
        world.store.floor(),
        installed.last(),
        installed.failed(),
    )?;
    Ok(yes)
}

/// Whether a compaction may leave these tables and this floor.
pub(crate) fn may_replace_versions(
    world: &World,
    by: usize,
    tables: &[Version],
    floor: Seq,
) -> Result<bool, AllocError>
    ensures { (a : Actor) → IfOk result (λ yes. yes ≡ true → Needs world.now by a (step.replace_versions tables.now floor)) }
{
    if !holds_store(world, by) {
        return Ok(false);
    }
    if !holds_tables(world, by) {
        return Ok(false);
    }
    if world.store.floor() > floor {
        return Ok(false);
    }
    let installed = &world.installed;
    let yes = keeps_store(
        world,
        world.store.memory(),
        tables,
        floor,
        installed.last(),
        installed.failed(),
    )?;
    Ok(yes)
}

/// Whether the store would be as it should be with these edits.
fn keeps_edits(
    world: &World,
    last: &InstalledEdit,
    failed: Option<&InstalledEdit>,
) -> Result<bool, AllocError>
    ensures { IfOk result (λ yes. (halted : Bool) → yes ≡ true → KeepsStore world.now world.now.store (record { last = last.now; failed = option_copied failed.entry; halted = halted })) }
{
    let store = &world.store;
    let yes = keeps_store(
        world,
        store.memory(),
        store.tables(),
        store.floor(),
        last,
        failed,
    )?;
    Ok(yes)
}

/// The segment stays, and the flushed number does not fall. A flush brings one table more, and a compaction keeps the flushed number.
fn follows(last: &InstalledEdit, edit: &InstalledEdit, compacts: bool) -> bool
    ensures flush { result ≡ true → compacts ≡ false → edit.now.tables ≡ last.now.tables + 1 }
    ensures compaction { result ≡ true → compacts ≡ true → edit.now.flushed ≡ last.now.flushed }
    ensures rises { result ≡ true → last.now.flushed ≤ edit.now.flushed }
    ensures segment { result ≡ true → edit.now.segment ≡ last.now.segment }
{
    if !is_segment(edit.segment, last.segment) {
        return false;
    }
    if compacts {
        return edit.flushed == last.flushed;
    }
    last.flushed <= edit.flushed && last.tables.checked_add(1) == Some(edit.tables)
}

/// Whether the edit may be installed.
pub(crate) fn may_install(
    world: &World,
    by: usize,
    edit: &InstalledEdit,
    compacts: bool,
) -> Result<bool, AllocError>
    ensures { (a : Actor) → IfOk result (λ yes. yes ≡ true → Needs world.now by a (step.install edit.now compacts)) }
{
    let installed = &world.installed;
    if !holds_tables(world, by) {
        return Ok(false);
    }
    if installed.is_halted() {
        return Ok(false);
    }
    if !follows(installed.last(), edit, compacts) {
        return Ok(false);
    }
    let yes = keeps_edits(world, edit, installed.failed())?;
    Ok(yes)
}

/// Whether the edit names the log's next segment, and flushes the whole history.
fn names_next(world: &World, by: usize, edit: &InstalledEdit) -> bool
    ensures { result ≡ true → NamesNext world.now by edit.now }
{
    if !holds_write(world, by) {
        return false;
    }
    if world.writes.is_closed() {
        return false;
    }
    if world.writes.published() != edit.flushed {
        return false;
    }
    is_next_segment(world, edit.segment)
}

/// Whether the edit, if there is one, names the last one's segment, or the next one.
fn has_segment(world: &World, by: usize, edit: &Option<InstalledEdit>) -> bool
    ensures { result ≡ true → (failed : edits.InstalledEdit) → edit.now ≡ Some failed → NamesSegment world.now failed ⊎ NamesNext world.now by failed }
{
    match edit {
        Some(edit) => {
            if is_segment(edit.segment, world.installed.last().segment) {
                return true;
            }
            names_next(world, by, edit)
        }
        None => true,
    }
}

/// Whether the edit may be installed as one that names the log's next segment.
pub(crate) fn may_renew(world: &World, by: usize, edit: &InstalledEdit) -> Result<bool, AllocError>
    ensures { (a : Actor) → IfOk result (λ yes. yes ≡ true → Needs world.now by a (step.renew edit.now)) }
{
    let installed = &world.installed;
    if !holds_tables(world, by) {
        return Ok(false);
    }
    if installed.is_halted() {
        return Ok(false);
    }
    if !names_next(world, by, edit) {
        return Ok(false);
    }
    if installed.last().tables > edit.tables {
        return Ok(false);
    }
    let yes = keeps_edits(world, edit, installed.failed())?;
    Ok(yes)
}

fn keeps_failed(world: &World, edit: &Option<InstalledEdit>) -> Result<bool, AllocError>
    ensures { IfOk result (λ yes. yes ≡ true → KeepsStore world.now world.now.store (with_failed world.now.installed edit.now)) }
{
    let last = world.installed.last();
    match edit {
        Some(edit) => {
            let yes = keeps_edits(world, last, Some(edit))?;
            Ok(yes)
        }
        None => {
            let yes = keeps_edits(world, last, world.installed.failed())?;
            Ok(yes)
        }
    }
}

/// Whether the devices of the tables may fail, in the install of this edit or before one.
pub(crate) fn may_halt(
    world: &World,
    by: usize,
    edit: &Option<InstalledEdit>,
) -> Result<bool, AllocError>
    ensures { (a : Actor) → IfOk result (λ yes. yes ≡ true → Needs world.now by a (step.halt edit.now)) }
{
    if !holds_tables(world, by) {
        return Ok(false);
    }
    if world.installed.is_halted() {
        return Ok(false);
    }
    if !has_segment(world, by, edit) {
        return Ok(false);
    }
    let yes = keeps_failed(world, edit)?;
    Ok(yes)
}
