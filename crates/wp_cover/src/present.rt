//! Versions that have to be there, and that have to be of the history.
ghost use Rattle.std.specs.Prelude.{◌≡◌, ◌↔◌, ◌≤◌, true, Some, map, IfOk};
ghost use Rattle.std.specs.Arc.{arc_value};
ghost use Rattle.std.specs.Option.{option_map, option_copied};
ghost use Rattle.wp_model.specs.History.{undecided};
ghost use Rattle.wp_model.specs.Versions.{AreInOrder};
ghost use Rattle.wp_table.specs.Borrowed.{seen};
ghost use Rattle.wp_table.specs.Table.{has_words};
ghost use Rattle.wp_merge.specs.Merge.{joined};
ghost use Rattle.wp_cover.specs.Present.{IsOwn, ArePart, IsPart, AreParts, AreAllPart, HasChanges, HasBatches, HasUndone, restored};
ghost use Rattle.wp_cover.specs.Sources.{all_of, AreFixed};

use crate::sources::{Sources, bytes_of, entry_version, is_fixed};
use std::alloc::{AllocError, Global};
use wp_history::History;
use wp_model::{Batch, Entry, Seq, Version, Versions};
use wp_table::{Table, VersionRef};

/// Whether both are the same version, or neither is one.
fn are_same(one: Option<Option<&[u8]>>, other: Option<Option<&[u8]>>) -> bool
    ensures { (result ≡ true) ↔ (option_map option_copied one.entry ≡ option_map option_copied other.entry) }
{
    one == other
}

/// Whether the version has a fixed number, or is that of its entry.
fn is_own(history: &History, version: &Version) -> bool
    ensures { (result ≡ true) ↔ IsOwn history.now version.now }
{
    if is_fixed(history, version.number) {
        return true;
    }
    let due = entry_version(history, version.number, version.key.bytes());
    are_same(due, Some(bytes_of(version.value.as_ref())))
}

/// Whether each version of the list is that.
fn is_list_part(history: &History, versions: &Versions) -> bool
    ensures part { (result ≡ true) ↔ ArePart history.now versions.now }
    ensures in_order { AreInOrder versions.now }
{
    for version in versions.as_slice() {
        if !is_own(history, version) {
            return false;
        }
    }
    true
}

/// Whether the version is that of its entry, or what counts in its place is.
fn is_part(
    alloc: Global,
    sources: &Sources<'_>,
    version: VersionRef<'_>,
) -> Result<bool, AllocError>
    requires words { has_words (seen version) ≡ true }
    requires flushed { sources.now.history.now.base ≤ sources.now.flushed }
    ensures { IfOk result (λ yes. (yes ≡ true) ↔ IsPart sources.now.history.now (all_of sources.now) (seen version.entry)) }
{
    if is_fixed(sources.history, version.number) {
        return Ok(true);
    }
    let due = entry_version(sources.history, version.number, version.key);
    if are_same(due, Some(version.value)) {
        return Ok(true);
    }
    let copy = version.copy(alloc)?;
    Ok(are_same(due, sources.find(&copy.key, copy.number)))
}

fn is_table_part(alloc: Global, sources: &Sources<'_>, table: &Table) -> Result<bool, AllocError>
    requires { sources.now.history.now.base ≤ sources.now.flushed }
    ensures { IfOk result (λ yes. (yes ≡ true) ↔ AreParts sources.now.history.now (all_of sources.now) table.now) }
{
    for version in table.all() {
        if !is_part(alloc, sources, version)? {
            return Ok(false);
        }
    }
    Ok(true)
}

fn are_tables_part(alloc: Global, sources: &Sources<'_>) -> Result<bool, AllocError>
    requires { sources.now.history.now.base ≤ sources.now.flushed }
    ensures { IfOk result (λ yes. (yes ≡ true) ↔ AreParts sources.now.history.now (all_of sources.now) (joined (map arc_value sources.now.tables.now))) }
{
    for table in sources.tables {
        if !is_table_part(alloc, sources, table)? {
            return Ok(false);
        }
    }
    Ok(true)
}

/// Whether each version that counts is that of its entry. Those of later entries are.
pub(crate) fn are_part(alloc: Global, sources: &Sources<'_>) -> Result<bool, AllocError>
    requires flushed { sources.now.history.now.base ≤ sources.now.flushed }
    requires fixed { AreFixed sources.now.history.now (all_of sources.now) }
    ensures { IfOk result (λ yes. (yes ≡ true) ↔ AreAllPart sources.now.history.now.entries (all_of sources.now)) }
{
    if !is_list_part(sources.history, sources.list) {
        return Ok(false);
    }
    are_tables_part(alloc, sources)
}

/// Whether the version of each change is there, with that number.
fn has_changes<'b>(sources: &'b Sources<'_>, number: Seq, batch: &'b Batch) -> bool
    requires { sources.now.history.now.base ≤ sources.now.flushed }
    ensures { (result ≡ true) ↔ HasChanges (all_of sources.now) number batch.now }
{
    for change in batch.changes() {
        if !are_same(
            sources.find(change.key(), number),
            Some(bytes_of(change.value())),
        ) {
            return false;
        }
    }
    true
}

/// Whether the versions of the undecided prepares are there.
pub(crate) fn has_undecided(sources: &Sources<'_>) -> bool
    requires { sources.now.history.now.base ≤ sources.now.flushed }
    ensures { (result ≡ true) ↔ HasBatches sources.now.history.now.entries (all_of sources.now) (undecided sources.now.history.now.entries) }
{
    for p in sources.history.undecided() {
        if !has_changes(sources, *p, sources.history.batch_at(*p)) {
            return false;
        }
    }
    true
}

/// What an undo restores.
fn restored(entry: &Entry) -> Option<&Batch>
    ensures { option_copied result ≡ restored entry.now }
{
    match entry {
        Entry::Undo(_, batch) => Some(batch),
        Entry::Write(_) | Entry::Prepare(_, _) | Entry::Commit(_) | Entry::Close(_) => None,
    }
}

/// Whether the versions of an undo that ends the history are there.
pub(crate) fn has_undone(sources: &Sources<'_>) -> bool
    requires { sources.now.history.now.base ≤ sources.now.flushed }
    ensures { (result ≡ true) ↔ HasUndone sources.now.history.now.entries (all_of sources.now) }
{
    let Some(entry) = sources.history.later().last() else {
        return true;
    };
    let Some(batch) = restored(entry) else {
        return true;
    };
    has_changes(sources, sources.history.published(), batch)
}
