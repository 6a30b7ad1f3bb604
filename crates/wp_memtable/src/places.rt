//! How a batch's versions come into memory: first the room for all of them, then the versions; one alone by one search.
ghost use Rattle.std.specs.Prelude.{◌≡◌, ℕ, List, ◌+◌, ◌≤◌, ◌==◌, ◌&&◌, true, Some, IfOk, OnOk, OnErr, length, map, if◌then◌else◌};
ghost use Rattle.std.specs.Option.{option_copied, option_or};
ghost use Rattle.std.specs.Str.{bytes_eq};
ghost use Rattle.wp_model.specs.Batch.{change_to, value_of};
ghost use Rattle.wp_model.specs.Versions.{version_at};
ghost use Rattle.wp_memtable.specs.Memtable.{versions_in, AreWellOrdered, place_at, HavePlaces};

use crate::key_versions::KeyVersions;
use std::alloc::{AllocError, Global};
use std::collections::BTreeMap;
use wp_model::{Change, Key, Seq, Value, copy_value};

/// The values that the changes leave, or none for deletions.
fn copy_values(alloc: Global, changes: &[Change]) -> Result<Vec<Option<Value>>, AllocError>
    ensures { IfOk result (λ values. values.items ≡ map value_of changes.now) }
{
    let mut values = Vec::with_capacity(alloc, changes.len())?;
    for change in changes {
        values.push(copy_value(change.value(), alloc)?)?;
    }
    Ok(values)
}

/// Takes the memory for one version more of the key.
fn reserve(
    alloc: Global,
    places: &mut BTreeMap<Key, KeyVersions>,
    key: &Key,
) -> Result<(), AllocError>
    requires { AreWellOrdered places.old.entries }
    ensures place { OnOk result ((n : ℕ) → place_at places.new.entries key.now n ≡ true) }
    ensures others { OnOk result ((other : List ℕ) (n : ℕ) → place_at places.old.entries other n ≡ true → place_at places.new.entries other n ≡ true) }
    ensures same_versions { versions_in places.new.entries ≡ versions_in places.old.entries }
    ensures well_ordered { AreWellOrdered places.new.entries }
{
    if let Some(versions) = places.get_mut(key) {
        return versions.reserve(alloc);
    }
    let _ = key.bytes();
    places.insert(key.copy(alloc)?, KeyVersions::new())?;
    Ok(())
}

/// Takes the memory for one version more of each key that is changed.
fn reserve_all(
    alloc: Global,
    places: &mut BTreeMap<Key, KeyVersions>,
    changes: &[Change],
) -> Result<(), AllocError>
    requires { AreWellOrdered places.old.entries }
    ensures places { OnOk result ((n : ℕ) → HavePlaces places.new.entries changes.now n) }
    ensures same_versions { versions_in places.new.entries ≡ versions_in places.old.entries }
    ensures well_ordered { AreWellOrdered places.new.entries }
{
    for change in changes {
        reserve(alloc, places, change.key())?;
    }
    Ok(())
}

/// Puts a version under the key and `n`. Returns how many versions more there are.
fn put(places: &mut BTreeMap<Key, KeyVersions>, key: &Key, n: Seq, value: Option<Value>) -> usize
    requires place { place_at places.old.entries key.now n ≡ true }
    requires well_ordered { AreWellOrdered places.old.entries }
    ensures each { (other : List ℕ) (m : ℕ) → version_at (versions_in places.new.entries) other m ≡ (if bytes_eq key.now other && (m == n) then Some value else version_at (versions_in places.old.entries) other m) }
    ensures places { (other : List ℕ) → place_at places.old.entries other n ≡ true → place_at places.new.entries other n ≡ true }
    ensures count { length (versions_in places.new.entries) ≡ length (versions_in places.old.entries) + result }
    ensures most { result ≤ 1 }
    ensures well_ordered { AreWellOrdered places.new.entries }
{
    places.get_mut(key).unwrap().put(n, value)
}

/// Puts each change under `n`, in memory that was taken before, with the values that the changes leave. Returns
/// how many versions more there are.
fn put_all(
    places: &mut BTreeMap<Key, KeyVersions>,
    n: Seq,
    changes: &[Change],
    mut values: Vec<Option<Value>>,
) -> usize
    requires values { values.items ≡ map value_of changes.now }
    requires places { HavePlaces places.old.entries changes.now n }
    requires well_ordered { AreWellOrdered places.old.entries }
    ensures each { (key : List ℕ) (m : ℕ) → version_at (versions_in places.new.entries) key m ≡ (if m == n then option_or (change_to changes.now key) (version_at (versions_in places.old.entries) key m) else version_at (versions_in places.old.entries) key m) }
    ensures count { length (versions_in places.new.entries) ≡ length (versions_in places.old.entries) + result }
    ensures most { result ≤ length changes.now }
    ensures well_ordered { AreWellOrdered places.new.entries }
{
    let mut more = 0;
    while let Some(value) = values.pop() {
        more += put(places, changes[values.len()].key(), n, value);
    }
    more
}

/// Puts a version under the key and `n`, by one search, in memory that it takes. Returns how many versions more there are. A
/// refused call may keep memory that it took, and nothing else.
fn put_one(
    alloc: Global,
    places: &mut BTreeMap<Key, KeyVersions>,
    key: &Key,
    n: Seq,
    value: Option<&Value>,
) -> Result<usize, AllocError>
    requires { AreWellOrdered places.old.entries }
    ensures each { OnOk result ((other : List ℕ) (m : ℕ) → version_at (versions_in places.new.entries) other m ≡ (if bytes_eq key.now other && (m == n) then Some (option_copied value.entry) else version_at (versions_in places.old.entries) other m)) }
    ensures count { IfOk result (λ more. length (versions_in places.new.entries) ≡ length (versions_in places.old.entries) + more) }
    ensures most { IfOk result (λ more. more ≤ 1) }
    ensures err { OnErr result (versions_in places.new.entries ≡ versions_in places.old.entries) }
    ensures well_ordered { AreWellOrdered places.new.entries }
{
    let _ = key.bytes();
    let value = copy_value(value, alloc)?;
    let versions = places
        .entry(key.copy(alloc)?)?
        .or_insert(KeyVersions::new());
    versions.reserve(alloc)?;
    Ok(versions.put(n, value))
}

/// Puts each change under `n`, in memory that it takes: for several all of it before the first is put. Returns how many versions
/// more there are. A refused call may keep memory that it took, and nothing else.
pub(crate) fn put_changes(
    alloc: Global,
    places: &mut BTreeMap<Key, KeyVersions>,
    n: Seq,
    changes: &[Change],
) -> Result<usize, AllocError>
    requires { AreWellOrdered places.old.entries }
    ensures each { OnOk result ((key : List ℕ) (m : ℕ) → version_at (versions_in places.new.entries) key m ≡ (if m == n then option_or (change_to changes.now key) (version_at (versions_in places.old.entries) key m) else version_at (versions_in places.old.entries) key m)) }
    ensures count { IfOk result (λ more. length (versions_in places.new.entries) ≡ length (versions_in places.old.entries) + more) }
    ensures most { IfOk result (λ more. more ≤ length changes.now) }
    ensures err { OnErr result (versions_in places.new.entries ≡ versions_in places.old.entries) }
    ensures well_ordered { AreWellOrdered places.new.entries }
{
    if changes.len() == 1 {
        let change = &changes[0];
        return put_one(alloc, places, change.key(), n, change.value());
    }
    let values = copy_values(alloc, changes)?;
    reserve_all(alloc, places, changes)?;
    Ok(put_all(places, n, changes, values))
}
