//! The versions of entries.
ghost use Rattle.std.specs.Prelude.{◌≡◌, suc, IfOk};
ghost use Rattle.wp_model.specs.Legal.{changes_in};
ghost use Rattle.wp_model.specs.Flushed.{versions_under, later_versions};
ghost use Rattle.wp_machine.specs.Machine.{without_number, versions_of_next};

use std::alloc::{AllocError, Global};
use wp_model::{Change, Entry, Seq, Version, copy_value};

/// What the entry with that number leaves under the keys of these changes.
fn versions_under(n: Seq, changes: &[Change], alloc: Global) -> Result<Vec<Version>, AllocError>
    ensures { IfOk result (λ versions. versions.items ≡ versions_under n changes.now) }
{
    let mut versions = Vec::with_capacity(alloc, changes.len())?;
    for change in changes {
        versions.push(Version {
            key: change.key().copy(alloc)?,
            number: n,
            value: copy_value(change.value(), alloc)?,
        })?;
    }
    Ok(versions)
}

/// The versions of the entry with that number.
fn versions_of(n: Seq, entry: &Entry, alloc: Global) -> Result<Vec<Version>, AllocError>
    ensures { IfOk result (λ versions. versions.items ≡ versions_under n (changes_in entry.now)) }
{
    match entry {
        Entry::Write(batch) | Entry::Prepare(_, batch) | Entry::Undo(_, batch) => {
            versions_under(n, batch.changes(), alloc)
        }
        Entry::Commit(_) | Entry::Close(_) => Ok(Vec::new(alloc)),
    }
}

pub fn versions_of_next(
    n: Seq,
    pending: &[Entry],
    alloc: Global,
) -> Result<Vec<Version>, AllocError>
    ensures { IfOk result (λ versions. versions.items ≡ versions_of_next n pending.now) }
{
    match pending.first() {
        Some(entry) => versions_of(n, entry, alloc),
        None => Ok(Vec::new(alloc)),
    }
}

/// The number of the entry at that place.
fn number_at(i: usize) -> Result<Seq, AllocError>
    ensures { IfOk result (λ n. n ≡ suc i) }
{
    (i as Seq).checked_add(1).ok_or(AllocError)
}

/// The versions of all entries, where the first has the number 1.
pub(crate) fn all_versions(entries: &[Entry], alloc: Global) -> Result<Vec<Version>, AllocError>
    ensures { IfOk result (λ versions. versions.items ≡ later_versions entries.now 0) }
{
    let mut versions = Vec::new(alloc);
    for (i, entry) in entries.iter().enumerate() {
        let n = number_at(i)?;
        let mut more = versions_of(n, entry, alloc)?;
        versions.append(&mut more)?;
    }
    Ok(versions)
}

pub(crate) fn take_number(versions: &mut Vec<Version>, n: Seq)
    ensures { versions.new.items ≡ without_number n versions.old.items }
{
    versions.retain(|version| version.number != n);
}
