//! What is so of the pending entry.
ghost use Rattle.std.specs.Prelude.{◌≡◌, ◌↔◌, ℕ, suc, List, Option, Some, true, length, IfOk};
ghost use Rattle.wp_model.specs.Decision.{version_in};
ghost use Rattle.wp_model.specs.Versions.{version_at};
ghost use Rattle.wp_core.specs.Entries.{next_of};
ghost use Rattle.wp_core.specs.Sound.Views.{IsInMemory, IsNowhere};
ghost use Rattle.std.specs.FinSet as set;

use crate::needs::versions::{has_changes, none_at};
use std::alloc::AllocError;
use wp_machine::{PreparedSets, StoreState, WriteState};
use wp_model::{Entry, Seq, Version};

/// Whether what the entry says of keys is there, with that number.
pub(crate) fn has_versions_of(memory: &[Version], entry: &Entry, n: Seq) -> bool
    ensures { (result ≡ true) ↔ ((key : List ℕ) (value : Option (List ℕ)) → version_in (Some entry.now) key ≡ Some value → version_at memory.now key n ≡ Some value) }
{
    match entry {
        Entry::Write(batch) => has_changes(memory, n, batch),
        Entry::Prepare(_, batch) => has_changes(memory, n, batch),
        Entry::Undo(_, batch) => has_changes(memory, n, batch),
        Entry::Commit(_) | Entry::Close(_) => true,
    }
}

/// Whether what the first of the pending entries says of keys is there, with that number.
fn has_pending(memory: &[Version], pending: &[Entry], n: Seq) -> bool
    ensures { (result ≡ true) ↔ ((key : List ℕ) (value : Option (List ℕ)) → version_in (next_of pending.now) key ≡ Some value → version_at memory.now key n ≡ Some value) }
{
    match pending.first() {
        Some(entry) => has_versions_of(memory, entry, n),
        None => true,
    }
}

/// Whether the versions of the pending entry are in memory.
pub(crate) fn is_in_memory(writes: &WriteState, store: &StoreState) -> Result<bool, AllocError>
    ensures { IfOk result (λ yes. (yes ≡ true) ↔ IsInMemory writes.now store.now) }
{
    let n = writes.next_number()?;
    Ok(has_pending(&store.memory, &writes.pending, n))
}

/// Whether memory has no version with the number of the pending entry.
pub(crate) fn is_nowhere(writes: &WriteState, store: &StoreState) -> Result<bool, AllocError>
    ensures { IfOk result (λ yes. (yes ≡ true) ↔ IsNowhere writes.now store.now) }
{
    let n = writes.next_number()?;
    Ok(none_at(&store.memory, n))
}

/// Whether the number of the pending entry is in the heap.
pub(crate) fn is_in_heap(writes: &WriteState, prepared: &PreparedSets) -> Result<bool, AllocError>
    ensures { IfOk result (λ yes. yes ≡ set.contains prepared.now.heap (suc (length writes.now.history))) }
{
    Ok(prepared.is_in_heap(writes.next_number()?))
}
