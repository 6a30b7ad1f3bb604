//! Whether versions are an edit's, or cover a history.
ghost use Rattle.std.specs.Prelude.{◌≡◌, ◌↔◌, ◌∷◌, ◌++◌, Some, true, length, IfOk};
ghost use Rattle.std.specs.Option.{option_copied};
ghost use Rattle.wp_model.specs.Covered.{IsCovered};
ghost use Rattle.wp_core.specs.Sound.Store.{IsOfEdit};
ghost use Rattle.wp_core.specs.States.{live_numbers, up_to};
ghost use Rattle.wp_model.specs.Flushed.{InstalledEdit, later_versions, IsEditCovered};

use crate::needs::live::numbers;
use crate::needs::order::in_order;
use crate::needs::versions::{are_equal, joined, none_flushed, up_to};
use std::alloc::{AllocError, Global};
use wp_cover::covers;
use wp_history::History;
use wp_machine::{InstalledEdit, Snapshots, World, versions_of_next};
use wp_model::{Entry, Segment, Seq, Version};

/// Whether the store has just the last edit's tables, and no flushed version is in memory.
pub(crate) fn has_last_tables(world: &World) -> bool
    ensures { (result ≡ true) ↔ IsOfEdit world.now.store world.now.installed.last }
{
    let last = &world.installed.last;
    if !none_flushed(&world.store.memory, last.flushed) {
        return false;
    }
    are_equal(world.store.tables(), &last.versions)
}

/// Whether the segments are the same.
pub(crate) fn is_segment(one: Segment, other: Segment) -> bool
    ensures { (result ≡ true) ↔ (one ≡ other) }
{
    one.place == other.place && one.base == other.base
}

/// Whether it is the log's next segment.
pub(crate) fn is_next_segment(world: &World, segment: Segment) -> bool
    ensures { (result ≡ true) ↔ (world.now.writes.next ≡ Some segment) }
{
    match world.writes.next_segment() {
        Some(next) => is_segment(next, segment),
        None => false,
    }
}

fn are_covered(
    history: &History,
    list: &[Version],
    numbers: &[Seq],
    from: Seq,
    alloc: Global,
) -> Result<bool, AllocError>
    requires { history.now.base ≡ 0 }
    ensures { IfOk result (λ yes. yes ≡ true → IsCovered list.now history.now.entries numbers.now from) }
{
    let versions = in_order(list, alloc)?;
    let yes = covers(alloc, history, &versions, numbers, from)?;
    Ok(yes)
}

/// The versions of the entries after so many.
fn later_versions(entries: &[Entry], n: Seq, alloc: Global) -> Result<Vec<Version>, AllocError>
    ensures { IfOk result (λ later. later.items ≡ later_versions entries.now n) }
{
    let mut later = Vec::new(alloc);
    let mut i = n;
    while i < entries.len() as Seq {
        let mut versions = versions_of_next(i + 1, &entries[i as usize..], alloc)?;
        later.append(&mut versions)?;
        i += 1;
    }
    Ok(later)
}

/// Whether the edit's versions, with the later ones of the history, cover it at the edit's base and at its end.
pub(crate) fn is_edit_covered(
    history: &History,
    edit: &InstalledEdit,
    alloc: Global,
) -> Result<bool, AllocError>
    requires { history.now.base ≡ 0 }
    ensures { IfOk result (λ yes. yes ≡ true → IsEditCovered history.now.entries edit.now) }
{
    let base = edit.segment.base;
    if base > edit.flushed || edit.flushed > history.published() {
        return Ok(false);
    }
    let later = later_versions(history.later(), edit.flushed, alloc)?;
    let all = joined(&edit.versions, &later, alloc)?;
    let yes = are_covered(history, &all, &[base], history.published(), alloc)?;
    Ok(yes)
}

/// Whether the edit, if there is one, is covered.
pub(crate) fn is_any_covered(
    history: &History,
    edit: Option<&InstalledEdit>,
    alloc: Global,
) -> Result<bool, AllocError>
    requires { history.now.base ≡ 0 }
    ensures { IfOk result (λ yes. yes ≡ true → (some : InstalledEdit) → option_copied edit.entry ≡ Some some → IsEditCovered history.now.entries some) }
{
    match edit {
        Some(edit) => is_edit_covered(history, edit, alloc),
        None => Ok(true),
    }
}

/// Whether the versions in memory and in tables cover the history, at the base, at each live number and from the floor on.
pub(crate) fn is_store_covered(
    history: &History,
    base: Seq,
    snapshots: &Snapshots,
    memory: &[Version],
    tables: &[Version],
    floor: Seq,
    alloc: Global,
) -> Result<bool, AllocError>
    requires { history.now.base ≡ 0 }
    ensures { IfOk result (λ yes. yes ≡ true
        → IsCovered (up_to (length history.now.entries) (memory.now ++ tables.now)) history.now.entries (base ∷ live_numbers snapshots.now) floor) }
{
    let all = joined(memory, tables, alloc)?;
    let some = up_to(history.published(), &all, alloc)?;
    let mut live = numbers(snapshots, alloc)?;
    live.insert(0, base)?;
    let yes = are_covered(history, &some, &live, floor, alloc)?;
    Ok(yes)
}
