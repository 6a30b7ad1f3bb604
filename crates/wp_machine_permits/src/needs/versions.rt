//! Lists of versions, in no order, some perhaps twice: of two of one key and number the first counts.
ghost use Rattle.std.specs.Prelude.{◌≡◌, ◌↔◌, ◌++◌, ◌==◌, ◌<◌, ◌≢◌, filter, true, Some, IfOk};
ghost use Rattle.std.specs.Option.{option_map, option_copied};
ghost use Rattle.wp_model.specs.declared.change.Change.{Change};
ghost use Rattle.wp_model.specs.declared.version.Version.{Version};
ghost use Rattle.wp_model.specs.Versions.{version_at};
ghost use Rattle.wp_model.specs.Batch.{key_of, change_to};
ghost use Rattle.wp_core.specs.States.{up_to};
ghost use Rattle.wp_core.specs.Sound.Store.{NoneFlushed};
ghost use Rattle.wp_machine_permits.specs.Each.{Each};
ghost use Rattle.wp_machine_permits.specs.VersionLists.{HasAll, AreSame, NoneAt, HasChanges};

use std::alloc::{AllocError, Global};
use wp_machine::copy_versions;
use wp_model::{Batch, Change, Key, Seq, Value, Version};

/// What the versions have under the key and the number.
pub(crate) fn version_at<'a>(
    versions: &'a [Version],
    key: &Key,
    number: Seq,
) -> Option<Option<&'a Value>>
    ensures { option_map option_copied result ≡ version_at versions.now key.now number }
{
    for version in versions {
        if &version.key == key && version.number == number {
            return Some(version.value.as_ref());
        }
    }
    None
}

fn is_among(version: &Version, versions: &[Version], others: &[Version]) -> bool
    ensures { (result ≡ true) ↔ (version_at others.now version.now.key version.now.number ≡ version_at versions.now version.now.key version.now.number) }
{
    version_at(others, &version.key, version.number)
        == version_at(versions, &version.key, version.number)
}

fn is_equal(version: &Version, other: &Version) -> bool
    ensures { (result ≡ true) ↔ (version.now ≡ other.now) }
{
    version.key == other.key && version.number == other.number && version.value == other.value
}

/// Whether both are the same list.
pub(crate) fn are_equal(versions: &[Version], others: &[Version]) -> bool
    ensures { (result ≡ true) ↔ (versions.now ≡ others.now) }
{
    if versions.len() != others.len() {
        return false;
    }
    for (i, version) in versions.iter().enumerate() {
        if !is_equal(version, &others[i]) {
            return false;
        }
    }
    true
}

fn each_is_among(listed: &[Version], versions: &[Version], others: &[Version]) -> bool
    ensures { (result ≡ true) ↔ Each (λ (v : Version). version_at others.now v.key v.number ≡ version_at versions.now v.key v.number) listed.now }
{
    for version in listed {
        if !is_among(version, versions, others) {
            return false;
        }
    }
    true
}

fn has_all(versions: &[Version], others: &[Version]) -> bool
    ensures { (result ≡ true) ↔ HasAll versions.now others.now }
{
    each_is_among(versions, versions, others)
}

/// Whether both have the same.
pub(crate) fn are_same(versions: &[Version], others: &[Version]) -> bool
    ensures { (result ≡ true) ↔ AreSame versions.now others.now }
{
    if !has_all(versions, others) {
        return false;
    }
    has_all(others, versions)
}

fn is_there(key: &Key, versions: &[Version], number: Seq, batch: &Batch) -> bool
    ensures { (result ≡ true) ↔ (version_at versions.now key.now number ≡ change_to batch.now key.now) }
{
    version_at(versions, key, number) == batch.get(key)
}

fn are_there(changes: &[Change], versions: &[Version], number: Seq, batch: &Batch) -> bool
    ensures { (result ≡ true) ↔ Each (λ (change : Change). version_at versions.now (key_of change) number ≡ change_to batch.now (key_of change)) changes.now }
{
    for change in changes {
        if !is_there(change.key(), versions, number, batch) {
            return false;
        }
    }
    true
}

/// Whether what the batch says of keys is there, with that number.
pub(crate) fn has_changes(versions: &[Version], number: Seq, batch: &Batch) -> bool
    ensures { (result ≡ true) ↔ HasChanges versions.now number batch.now }
{
    are_there(batch.changes(), versions, number, batch)
}

fn are_not_at(n: Seq, versions: &[Version]) -> bool
    ensures { (result ≡ true) ↔ Each (λ (v : Version). v.number ≢ n) versions.now }
{
    for version in versions {
        if version.number == n {
            return false;
        }
    }
    true
}

/// Whether none has the number.
pub(crate) fn none_at(versions: &[Version], n: Seq) -> bool
    ensures { (result ≡ true) ↔ NoneAt n versions.now }
{
    are_not_at(n, versions)
}

fn are_above(flushed: Seq, versions: &[Version]) -> bool
    ensures { (result ≡ true) ↔ Each (λ (v : Version). flushed < v.number) versions.now }
{
    for version in versions {
        if version.number <= flushed {
            return false;
        }
    }
    true
}

/// Whether the number of each is above `flushed`.
pub(crate) fn none_flushed(versions: &[Version], flushed: Seq) -> bool
    ensures { (result ≡ true) ↔ NoneFlushed versions.now flushed }
{
    are_above(flushed, versions)
}

/// Those with numbers up to `n`.
pub(crate) fn up_to(n: Seq, versions: &[Version], alloc: Global) -> Result<Vec<Version>, AllocError>
    ensures { IfOk result (λ some. some.items ≡ up_to n versions.now) }
{
    let mut some = Vec::new(alloc);
    for version in versions {
        if version.number <= n {
            some.push(version.copy(alloc)?)?;
        }
    }
    Ok(some)
}

/// Those with the number `n`.
pub(crate) fn only_at(
    n: Seq,
    versions: &[Version],
    alloc: Global,
) -> Result<Vec<Version>, AllocError>
    ensures { IfOk result (λ some. some.items ≡ filter (λ v. v.number == n) versions.now) }
{
    let mut some = Vec::new(alloc);
    for version in versions {
        if version.number == n {
            some.push(version.copy(alloc)?)?;
        }
    }
    Ok(some)
}

/// The first, and then the others.
pub(crate) fn joined(
    first: &[Version],
    others: &[Version],
    alloc: Global,
) -> Result<Vec<Version>, AllocError>
    ensures { IfOk result (λ both. both.items ≡ first.now ++ others.now) }
{
    let mut both = copy_versions(first, alloc)?;
    let mut last = copy_versions(others, alloc)?;
    both.append(&mut last)?;
    Ok(both)
}
