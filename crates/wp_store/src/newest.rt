//! The newest versions of one key in one part.
ghost use Rattle.std.specs.Prelude.{◌≡◌, ◌<◌, take, IfOk};
ghost use Rattle.std.specs.Option.{option_copied};
ghost use Rattle.wp_model.specs.Versions.{AreInOrder};
ghost use Rattle.wp_memtable.specs.Memtable.{under};
ghost use Rattle.wp_store.specs.Store.{newest_of};

use std::alloc::{AllocError, Global};
use std::sync::ledger::{Blank, Ledger};
use wp_memtable::{Found, FrozenPart, Memtable};
use wp_model::{Key, Seq, Value, Version, Versions, copy_value};
use wp_table::{Steps, Table};

/// A version of the key, with a copy of this value or none.
fn copied_version(
    alloc: Global,
    key: &Key,
    number: Seq,
    value: Option<&Value>,
) -> Result<Version, AllocError>
    ensures { IfOk result (λ version. version ≡ record { key = key.now; number = number; value = option_copied value.entry }) }
{
    Ok(Version {
        key: key.copy(alloc)?,
        number,
        value: copy_value(value, alloc)?,
    })
}

/// A copy of at most `n` of the versions that were found under the key.
fn copied(alloc: Global, key: &Key, found: Found<'_>, n: usize) -> Result<Versions, AllocError>
    requires { AreInOrder (under key.now found) }
    ensures { IfOk result (λ versions. versions ≡ take n (under key.now found.entry)) }
{
    let mut list = Vec::new(alloc);
    for (number, value) in found.take(n) {
        list.push(copied_version(alloc, key, number, value)?)?;
    }
    Ok(Versions::of(list))
}

/// A copy of at most `n` versions.
pub(crate) fn newest_in_memory(
    alloc: Global,
    memory: &Memtable,
    key: &Key,
    n: usize,
) -> Result<Versions, AllocError>
    ensures newest { IfOk result (λ versions. versions ≡ newest_of n key.now memory.now) }
    ensures in_order { AreInOrder memory.now }
{
    copied(alloc, key, memory.versions(key), n)
}

/// A copy of at most `n` versions.
pub(crate) fn newest_in_frozen(
    alloc: Global,
    part: &FrozenPart,
    key: &Key,
    n: usize,
) -> Result<Versions, AllocError>
    ensures newest { IfOk result (λ versions. versions ≡ newest_of n key.now part.now) }
    ensures in_order { AreInOrder part.now }
{
    copied(alloc, key, part.versions(key), n)
}

/// A copy of at most `n` versions. The steps of the look-up are counted under the blank.
pub(crate) fn newest_in_table<L: Ledger>(
    alloc: Global,
    table: &Table,
    key: &Key,
    n: usize,
    blank: Blank,
) -> Result<Versions, AllocError>
    requires name { blank.name ≡ L.name }
    requires parts { blank.parts ≡ L.parts }
    requires some { 0 < blank.parts }
    ensures newest { IfOk result (λ versions. versions ≡ newest_of n key.now table.now) }
    ensures in_order { AreInOrder table.now }
{
    let mut steps = Steps::<L>::new(blank);
    let mut list = Vec::new(alloc);
    for version in table.versions(key, &mut steps).take(n) {
        list.push(version.copy(alloc)?)?;
    }
    Ok(Versions::of(list))
}
