//! The versions that no table has, in memory.
ghost use Rattle.std.specs.Prelude.{◌≡◌, ◌≤◌, length, IfOk, OnOk};
ghost use Rattle.wp_model.specs.Flushed.{later_versions};
ghost use Rattle.wp_model.specs.Legal.{IsLegal, changes_in};
ghost use Rattle.wp_model.specs.Versions.{AreInOrder};
ghost use Rattle.wp_memtable.specs.Memtable.{HasChanges};
ghost use Rattle.wp_merge.specs.Merge.{sorted_of};

use std::alloc::{AllocError, Global};
use wp_history::History;
use wp_memtable::Memtable;
use wp_model::{Entry, Seq};

/// Puts the versions of the entry with that number into memory.
fn insert_entry(memory: &mut Memtable, number: Seq, entry: &Entry) -> Result<(), AllocError>
    requires { AreInOrder memory.old }
    ensures { OnOk result (HasChanges number (changes_in entry.now) memory.old memory.new) }
{
    match entry {
        Entry::Write(batch) | Entry::Prepare(_, batch) | Entry::Undo(_, batch) => {
            memory.insert(number, batch)
        }
        Entry::Commit(_) | Entry::Close(_) => Ok(()),
    }
}

/// The versions of the entries above the flushed number, in memory. That number is not below the base.
pub(crate) fn later_memory(
    alloc: Global,
    history: &History,
    flushed: Seq,
) -> Result<Memtable, AllocError>
    requires from { history.now.base ≤ flushed }
    requires within { flushed ≤ length history.now.entries }
    ensures memory { IfOk result (λ memory. memory ≡ sorted_of (later_versions history.now.entries flushed)) }
    ensures legal { IsLegal history.now.entries }
{
    let later = history.later();
    let base = history.base();
    let mut memory = Memtable::new(alloc);
    for n in flushed..history.published() {
        insert_entry(&mut memory, n + 1, &later[(n - base) as usize])?;
    }
    Ok(memory)
}
