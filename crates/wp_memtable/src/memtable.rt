ghost use Rattle.std.specs.Prelude.{◌≡◌, ◌++◌, ◌<◌, ◌^◌, true, [], ◌∷◌, length, IfOk, OnOk, OnErr, MatchResult};
ghost use Rattle.std.specs.List.{find, list_all, list_any};
ghost use Rattle.std.specs.Option.{option_copied, option_map};
ghost use Rattle.std.specs.Range.Bound.{bound_map};
ghost use Rattle.wp_model.specs.Rows.{next_version};
ghost use Rattle.wp_model.specs.Versions.{AreInOrder};
ghost use Rattle.wp_model.specs.Word.{is_key};
ghost use Rattle.wp_memtable.specs.Borrowed.{held};
ghost use Rattle.wp_memtable.specs.Bounds.{is_between, between};
ghost use Rattle.wp_memtable.specs.Memtable.{HasChanges, above, below, numbered_of, start_at, under, versions_in};

use crate::bounds::Bounds;
use crate::found::Found;
use crate::frozen::FrozenPart;
use crate::key_versions::KeyVersions;
use crate::places::put_changes;
use crate::version::MemoryVersion;
use std::alloc::{AllocError, Global};
use std::collections::BTreeMap;
use std::marker::Model;
use std::ops::Bound;
use std::sync::Arc;
use wp_model::{Batch, Key, Seq, Value, Version, Versions, copy_value};

/// The versions in memory, which the holder of the store turn changes.
pub struct Memtable {
    alloc: Global,
    places: BTreeMap<Key, KeyVersions>,
    /// How many versions there are.
    count: usize,
    /// None has a lesser number.
    least: Seq,
    /// None has a greater number.
    greatest: Seq,
}

impl Model for Memtable {
    ghost use Rattle.std.specs.Prelude.{◌≡◌, List, length};
    ghost use Rattle.wp_model.specs.declared.version.Version.{Version};
    ghost use Rattle.wp_memtable.specs.Bounds.{AreWithin};
    ghost use Rattle.wp_memtable.specs.Memtable.{versions_in, AreWellOrdered};

    ghost Value = { List Version };

    ghost view = { λ m. versions_in m.places.entries };

    ghost invariant = { λ m. AreWellOrdered m.places.entries × (m.count ≡ length (versions_in m.places.entries)) × AreWithin m.least m.greatest (versions_in m.places.entries) };
}

/// Copies the version to the end of the list, if its number lies between the bounds.
fn copy_between(
    alloc: Global,
    key: &Key,
    number: Seq,
    value: Option<&Value>,
    bounds: Bounds,
    list: &mut Vec<Version>,
) -> Result<(), AllocError>
    ensures { OnOk result (list.new.items ≡ list.old.items ++ between bounds (record { key = key.now; number = number; value = option_copied value.entry } ∷ [])) }
{
    if bounds.have(number) {
        list.push(Version {
            key: key.copy(alloc)?,
            number,
            value: copy_value(value, alloc)?,
        })?;
    }
    Ok(())
}

/// Copies the versions of a key with numbers between the bounds to the end of the list.
fn copy_under(
    alloc: Global,
    key: &Key,
    versions: &KeyVersions,
    bounds: Bounds,
    list: &mut Vec<Version>,
) -> Result<(), AllocError>
    ensures { OnOk result (list.new.items ≡ list.old.items ++ between bounds (under key.now versions.now.versions)) }
{
    let mut i = 0;
    while let Some((number, value)) = versions.get(i) {
        copy_between(alloc, key, *number, value.as_ref(), bounds, list)?;
        i += 1;
    }
    Ok(())
}

/// How many versions the keys have.
fn count_of(places: &BTreeMap<Key, KeyVersions>) -> usize
    requires { length (versions_in places.now.entries) < 2 ^ 64 }
    ensures { result ≡ length (versions_in places.now.entries) }
{
    let mut count = 0;
    for (_, versions) in places {
        count += versions.len();
    }
    count
}

fn start_at(key: &Key, above: bool) -> Bound<&Key>
    ensures { bound_map (λ k. k.now) result ≡ start_at above key.now }
{
    if above {
        return Bound::Excluded(key);
    }
    Bound::Included(key)
}

/// The newest version of the key with a number between the bounds.
fn newest_between<'a>(
    key: &'a Key,
    versions: &'a KeyVersions,
    bounds: Bounds,
) -> Option<MemoryVersion<'a>>
    ensures { option_map held result ≡ find (λ v. is_between bounds v.number) (under key.entry.now versions.entry.now.versions) }
{
    match Found::new(Some(versions), bounds).next() {
        Some((number, value)) => Some(MemoryVersion { key, number, value }),
        None => None,
    }
}

/// The newest version between the bounds of the first key that is above `key`, or, where `above` is false, not below it,
/// and that has one.
fn first_between<'a>(
    places: &'a BTreeMap<Key, KeyVersions>,
    key: &Key,
    above: bool,
    bounds: Bounds,
) -> Option<MemoryVersion<'a>>
    ensures { option_map held result ≡ next_version above key.now (between bounds (versions_in places.entry.now.entries)) }
{
    for (other, versions) in places.range((start_at(key, above), Bound::Unbounded)) {
        if let Some(version) = newest_between(other, versions, bounds) {
            return Some(version);
        }
    }
    None
}

impl Memtable {
    pub fn new(alloc: Global) -> Memtable
        ensures { result ≡ [] }
    {
        Memtable {
            alloc,
            places: BTreeMap::new(alloc),
            count: 0,
            least: Seq::MAX,
            greatest: 0,
        }
    }

    /// Puts a version under `n` for each change of the batch. A version of the same key and number is replaced. A
    /// refused call may keep memory that it took, and nothing else. A count at its type's end can't rise: that too
    /// is answered as want of memory, since no memory holds so many.
    pub fn insert(&mut self, n: Seq, batch: &Batch) -> Result<(), AllocError>
        ensures ok { OnOk result (HasChanges n batch.now self.old self.new) }
        ensures err { OnErr result (self.new ≡ self.old) }
    {
        let changes = batch.changes();
        self.count.checked_add(changes.len()).ok_or(AllocError)?;
        self.count += put_changes(self.alloc, &mut self.places, n, changes)?;
        self.least = self.least.min(n);
        self.greatest = self.greatest.max(n);
        Ok(())
    }

    /// Takes out each version with a number from `n` on, in a time that grows with the number of keys.
    pub fn remove_from(&mut self, n: Seq)
        ensures { self.new ≡ below n self.old }
    {
        self.places.retain(|_, versions| {
            versions.remove_from(n);
            versions.len() > 0
        });
        self.count = count_of(&self.places);
    }

    /// Takes out each version with a number up to `n`: at once where no version had one, else in a time that grows with the
    /// number of keys and of later versions.
    pub fn remove_up_to(&mut self, n: Seq)
        ensures { self.new ≡ above n self.old }
    {
        if n < self.least {
            return;
        }
        self.places.retain(|_, versions| {
            versions.remove_up_to(n);
            versions.len() > 0
        });
        self.count = count_of(&self.places);
    }

    /// The versions of the key, the newest first.
    pub fn versions(&self, key: &Key) -> Found<'_>
        ensures found { result ≡ numbered_of key.now self.now }
        ensures in_order { AreInOrder self.now }
    {
        self.versions_between(key, Bounds::none())
    }

    /// Those with numbers between the bounds.
    pub(crate) fn versions_between(&self, key: &Key, bounds: Bounds) -> Found<'_>
        ensures found { result ≡ numbered_of key.now (between bounds self.now) }
        ensures in_order { AreInOrder self.now }
    {
        Found::new(self.places.get(key), bounds)
    }

    /// The newest version of the least key that is above `key`, or, where `above` is false, not below it. It goes there at
    /// once, and then from key to key.
    pub fn next_version(&self, key: &Key, above: bool) -> Option<MemoryVersion<'_>>
        ensures found { option_map held result ≡ next_version above key.now self.now }
        ensures in_range { list_all (λ v. is_key v.key) self.now ≡ true }
        ensures in_order { AreInOrder self.now }
    {
        self.next_between(key, above, Bounds::none())
    }

    /// That of those with numbers between the bounds.
    pub(crate) fn next_between(
        &self,
        key: &Key,
        above: bool,
        bounds: Bounds,
    ) -> Option<MemoryVersion<'_>>
        ensures found { option_map held result ≡ next_version above key.now (between bounds self.now) }
        ensures in_range { list_all (λ v. is_key v.key) self.now ≡ true }
        ensures in_order { AreInOrder self.now }
    {
        first_between(&self.places, key, above, bounds)
    }

    /// A copy of all versions.
    pub fn all(&self) -> Result<Versions, AllocError>
        ensures all { IfOk result (λ versions. versions ≡ self.now) }
        ensures in_order { AreInOrder self.now }
    {
        self.all_between(Bounds::none())
    }

    /// A copy of those with numbers between the bounds.
    pub(crate) fn all_between(&self, bounds: Bounds) -> Result<Versions, AllocError>
        ensures all { IfOk result (λ versions. versions ≡ between bounds self.now) }
        ensures in_order { AreInOrder self.now }
    {
        let mut list = Vec::with_capacity(self.alloc, self.count)?;
        for (key, versions) in &self.places {
            copy_under(self.alloc, key, versions, bounds, &mut list)?;
        }
        Ok(Versions::of(list))
    }

    /// Whether a version has a number between the bounds.
    pub(crate) fn has_between(&self, bounds: Bounds) -> bool
        ensures { result ≡ list_any (λ v. is_between bounds v.number) self.now }
    {
        if !bounds.may_have(self.greatest) {
            return false;
        }
        for (_, versions) in &self.places {
            if versions.has_between(bounds) {
                return true;
            }
        }
        false
    }

    /// Memory that takes no more versions. It comes back where the memory to share it is wanting.
    pub fn freeze(self) -> Result<FrozenPart, Memtable>
        ensures { MatchResult result (λ part. part ≡ self) (λ memory. memory ≡ self) }
    {
        let alloc = self.alloc;
        match Arc::new(alloc, self) {
            Ok(part) => Ok(FrozenPart::of(part)),
            Err(failed) => Err(failed.value),
        }
    }

    /// How many versions there are.
    pub fn count(&self) -> usize
        ensures { result ≡ length self.now }
    {
        self.count
    }
}

// Written out, so that no crate above proves anew how all that it holds is let go.
impl Drop for Memtable {
    fn drop(self) {
        let Self {
            alloc: _alloc,
            places: _places,
            count: _count,
            least: _least,
            greatest: _greatest,
        } = self;
    }
}
