//! The next version of several parts, borrowed from the one that has it.
ghost use Rattle.std.specs.Prelude.{◌≡◌, ◌<◌, [], ◌∷◌, map, IfOk};
ghost use Rattle.std.specs.Arc.{arc_value};
ghost use Rattle.std.specs.List.{AllByRecursion};
ghost use Rattle.std.specs.Option.{option_map};
ghost use Rattle.wp_model.specs.Versions.{AreInOrder};
ghost use Rattle.wp_model.specs.Rows.{next_version};
ghost use Rattle.wp_memtable.specs.Borrowed.{held};
ghost use Rattle.wp_table.specs.Borrowed.{seen};
ghost use Rattle.wp_store.specs.Store.{least_version, least_next, AreWords, IsCopyable};

use std::alloc::{AllocError, Global};
use std::collections::VecDeque;
use std::marker::Brand;
use std::sync::Arc;
use std::sync::ledger::{Blank, Ledger};
use wp_memtable::{FrozenPart, MemoryVersion, Memtable};
use wp_model::{Key, Versions};
use wp_table::{Steps, Table, VersionRef};

/// The version that is borrowed from memory, as one of a table is.
fn as_of_table<'a>(version: Option<MemoryVersion<'a>>) -> Option<VersionRef<'a>>
    ensures seen { option_map seen result ≡ option_map held version.entry }
    ensures copied { IsCopyable result }
{
    let version = version?;
    Some(VersionRef {
        key: version.key.bytes(),
        number: version.number,
        value: match version.value {
            None => None,
            Some(value) => Some(value.bytes()),
        },
    })
}

/// The version that comes first, of those that there are. Of two of one key and number it is the first.
fn lesser<'a>(
    least: Option<VersionRef<'a>>,
    found: Option<VersionRef<'a>>,
) -> Option<VersionRef<'a>>
    requires least { IsCopyable least }
    requires found { IsCopyable found }
    ensures lesser { option_map seen result ≡ least_version (option_map seen least.entry) (option_map seen found.entry) }
    ensures copied { IsCopyable result }
{
    let Some(version) = least else {
        return found;
    };
    let Some(other) = found else {
        return Some(version);
    };
    if other.place_cmp(&version).is_lt() {
        Some(other)
    } else {
        Some(version)
    }
}

pub(crate) fn next_in_memory<'a>(
    memory: &'a Memtable,
    key: &Key,
    above: bool,
) -> Option<VersionRef<'a>>
    ensures found { option_map seen result ≡ next_version above key.now memory.entry.now }
    ensures copied { IsCopyable result }
    ensures in_order { AreInOrder memory.entry.now }
    ensures in_range { AreWords memory.entry.now }
{
    as_of_table(memory.next_version(key, above))
}

/// The lesser of that version and of the next one in each frozen part.
pub(crate) fn least_in_frozen<'a>(
    frozen: &'a VecDeque<FrozenPart>,
    key: &Key,
    above: bool,
    least: Option<VersionRef<'a>>,
) -> Option<VersionRef<'a>>
    requires { IsCopyable least }
    ensures found { option_map seen result ≡ least_next above key.now (option_map seen least.entry) frozen.entry.now.items }
    ensures copied { IsCopyable result }
    ensures in_order { AllByRecursion AreInOrder frozen.entry.now.items }
    ensures in_range { AllByRecursion AreWords frozen.entry.now.items }
{
    let mut so_far = least;
    for part in frozen {
        so_far = lesser(so_far, as_of_table(part.next_version(key, above)));
    }
    so_far
}

/// The next version in the table. The steps of the look-up are counted under the blank.
fn next_in_table<'a, L: Ledger>(
    table: &'a Table,
    key: &Key,
    above: bool,
    blank: Blank,
) -> Option<VersionRef<'a>>
    requires name { blank.name ≡ L.name }
    requires parts { blank.parts ≡ L.parts }
    requires some { 0 < blank.parts }
    ensures found { option_map seen result ≡ next_version above key.now table.entry.now }
    ensures copied { IsCopyable result }
    ensures in_order { AreInOrder table.entry.now }
    ensures in_range { AreWords table.entry.now }
{
    let mut steps = Steps::<L>::new(blank);
    table.next_version(key, above, &mut steps)
}

/// The lesser of that version and of the next one in each table.
pub(crate) fn least_in_tables<'a>(
    tables: &'a VecDeque<Arc<Table>>,
    key: &Key,
    above: bool,
    least: Option<VersionRef<'a>>,
) -> Option<VersionRef<'a>>
    requires { IsCopyable least }
    ensures found { option_map seen result ≡ least_next above key.now (option_map seen least.entry) (map arc_value tables.entry.now.items) }
    ensures copied { IsCopyable result }
    ensures in_order { AllByRecursion AreInOrder (map arc_value tables.entry.now.items) }
    ensures in_range { AllByRecursion AreWords (map arc_value tables.entry.now.items) }
{
    let mut so_far = least;
    for table in tables {
        let found = next_in_table::<Brand>(table, key, above, Blank::new(1));
        so_far = lesser(so_far, found);
    }
    so_far
}

/// A copy of the version's key, and one of the version alone.
pub(crate) fn copied_with_key(
    alloc: Global,
    version: Option<VersionRef<'_>>,
) -> Result<Option<(Key, Versions)>, AllocError>
    requires { IsCopyable version }
    ensures { IfOk result (λ copy. copy ≡ option_map (λ v. (v.key, v ∷ [])) (option_map seen version.entry)) }
{
    let Some(version) = version else {
        return Ok(None);
    };
    let copy = version.copy(alloc)?;
    let key = copy.key.copy(alloc)?;
    let mut list = Vec::with_capacity(alloc, 1)?;
    list.push(copy)?;
    Ok(Some((key, Versions::of(list))))
}
