//! Whether versions and edits are as they should be.
ghost use Rattle.std.specs.Prelude.{◌≡◌, ◌↔◌, ◌<◌, ℕ, Bool, suc, true, length, Option, IfOk};
ghost use Rattle.std.specs.Option.{option_map, option_copied};
ghost use Rattle.wp_model.specs.declared.version.Version.{Version};
ghost use Rattle.wp_model.specs.Decision.{version_in, entry_version};
ghost use Rattle.wp_model.specs.Versions.{version_at};
ghost use Rattle.wp_core.specs.Entries.{next_of};
ghost use Rattle.wp_core.specs.Sound.Store.{IsStored};
ghost use Rattle.wp_machine_permits.specs.Each.{Each};
ghost use Rattle.wp_machine_permits.specs.VersionLists.{AreOf, AreNext, HasEntry, HasLater, AreVersions, AreEdits};

use crate::needs::edits::{is_any_covered, is_edit_covered, is_store_covered};
use crate::needs::pending::has_versions_of;
use crate::needs::versions::version_at;
use std::alloc::{AllocError, Global};
use wp_history::History;
use wp_machine::{InstalledEdit, Snapshots};
use wp_model::{Entry, Key, Seq, Value, Version};

/// What the entry has under the key.
fn version_in<'a>(entry: Option<&'a Entry>, key: &Key) -> Option<Option<&'a Value>>
    ensures { option_map option_copied result ≡ version_in (option_copied entry.entry) key.now }
{
    match entry? {
        Entry::Write(batch) | Entry::Prepare(_, batch) | Entry::Undo(_, batch) => batch.get(key),
        Entry::Commit(_) | Entry::Close(_) => None,
    }
}

fn is_of(history: &History, versions: &[Version], key: &Key, p: Seq) -> bool
    requires { history.now.base ≡ 0 }
    ensures { (result ≡ true) ↔ (entry_version history.now.entries p key.now ≡ version_at versions.now key.now p) }
{
    version_in(history.entry_at(p), key) == version_at(versions, key, p)
}

fn each_is_of(history: &History, versions: &[Version], listed: &[Version]) -> bool
    requires { history.now.base ≡ 0 }
    ensures { (result ≡ true) ↔ Each (λ (v : Version). entry_version history.now.entries v.number v.key ≡ version_at versions.now v.key v.number) listed.now }
{
    for version in listed {
        if !is_of(history, versions, &version.key, version.number) {
            return false;
        }
    }
    true
}

/// Whether each of the versions is that of its entry.
fn are_of(history: &History, versions: &[Version]) -> bool
    requires { history.now.base ≡ 0 }
    ensures { (result ≡ true) ↔ AreOf history.now.entries versions.now }
{
    each_is_of(history, versions, versions)
}

/// The first of the pending entries.
fn next_of(pending: &[Entry]) -> Option<&Entry>
    ensures { option_copied result ≡ next_of pending.now }
{
    pending.first()
}

fn is_next(last: Seq, pending: &[Entry], versions: &[Version], key: &Key, p: Seq) -> bool
    ensures { (result ≡ true) ↔ (last < p → (p ≡ suc last) × (version_in (next_of pending.now) key.now ≡ version_at versions.now key.now p)) }
{
    if p <= last {
        return true;
    }
    if p - last != 1 {
        return false;
    }
    version_in(next_of(pending), key) == version_at(versions, key, p)
}

fn each_is_next(last: Seq, pending: &[Entry], versions: &[Version], listed: &[Version]) -> bool
    ensures { (result ≡ true) ↔ Each (λ (v : Version). last < v.number → (v.number ≡ suc last) × (version_in (next_of pending.now) v.key ≡ version_at versions.now v.key v.number)) listed.now }
{
    for version in listed {
        if !is_next(last, pending, versions, &version.key, version.number) {
            return false;
        }
    }
    true
}

/// Whether what is above the history is the pending entry's.
fn are_next(history: &History, pending: &[Entry], versions: &[Version]) -> bool
    ensures { (result ≡ true) ↔ AreNext history.now.entries pending.now versions.now }
{
    each_is_next(history.published(), pending, versions, versions)
}

/// Whether what the entry with that number says of keys is there.
fn has_version(history: &History, memory: &[Version], p: Seq) -> bool
    requires { history.now.base ≡ 0 }
    ensures { (result ≡ true) ↔ HasEntry history.now.entries memory.now p }
{
    match history.entry_at(p) {
        Some(entry) => has_versions_of(memory, entry, p),
        None => true,
    }
}

/// Whether each version of the history's that is above `flushed` is there.
fn has_later(history: &History, flushed: Seq, memory: &[Version]) -> bool
    requires { history.now.base ≡ 0 }
    ensures { result ≡ true → HasLater history.now.entries flushed memory.now }
{
    let mut p = flushed;
    while p < history.published() {
        p += 1;
        if !has_version(history, memory, p) {
            return false;
        }
    }
    true
}

fn are_versions(
    history: &History,
    pending: &[Entry],
    memory: &[Version],
    tables: &[Version],
    flushed: Seq,
) -> bool
    requires { history.now.base ≡ 0 }
    ensures { result ≡ true → AreVersions history.now.entries pending.now memory.now tables.now flushed }
{
    if !are_next(history, pending, memory) {
        return false;
    }
    if !are_of(history, tables) {
        return false;
    }
    has_later(history, flushed, memory)
}

fn are_edits(
    history: &History,
    last: &InstalledEdit,
    failed: Option<&InstalledEdit>,
    alloc: Global,
) -> Result<bool, AllocError>
    requires { history.now.base ≡ 0 }
    ensures { IfOk result (λ yes. yes ≡ true → AreEdits history.now.entries last.now (option_copied failed.entry)) }
{
    if !is_edit_covered(history, last, alloc)? {
        return Ok(false);
    }
    let yes = is_any_covered(history, failed, alloc)?;
    Ok(yes)
}

/// Whether a store of this memory and these tables, with these edits, is as it should be.
pub(crate) fn is_stored(
    history: &History,
    pending: &[Entry],
    base: Seq,
    snapshots: &Snapshots,
    memory: &[Version],
    tables: &[Version],
    floor: Seq,
    last: &InstalledEdit,
    failed: Option<&InstalledEdit>,
    alloc: Global,
) -> Result<bool, AllocError>
    requires { history.now.base ≡ 0 }
    ensures { IfOk result (λ yes. (halted : Bool) → yes ≡ true
        → IsStored history.now.entries pending.now base snapshots.now (record { memory = memory.now; tables = tables.now; floor = floor })
        (record { last = last.now; failed = option_copied failed.entry; halted = halted })) }
{
    if base > last.flushed {
        return Ok(false);
    }
    if floor > history.published() {
        return Ok(false);
    }
    if !are_versions(history, pending, memory, tables, last.flushed) {
        return Ok(false);
    }
    if !are_edits(history, last, failed, alloc)? {
        return Ok(false);
    }
    let yes = is_store_covered(history, base, snapshots, memory, tables, floor, alloc)?;
    Ok(yes)
}
