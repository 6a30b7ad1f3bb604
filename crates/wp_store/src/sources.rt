//! Lists of several parts, and what they are as one.
ghost use Rattle.std.specs.Prelude.{◌≡◌, ◌++◌, map, IfOk, OnOk};
ghost use Rattle.std.specs.Arc.{arc_value};
ghost use Rattle.std.specs.List.{AllByRecursion};
ghost use Rattle.wp_model.specs.Versions.{AreInOrder};
ghost use Rattle.wp_merge.specs.Merge.{AreMerged};
ghost use Rattle.wp_store.specs.Store.{newest_of};

use crate::newest::{newest_in_frozen, newest_in_table};
use std::alloc::{AllocError, Global};
use std::collections::VecDeque;
use std::marker::Brand;
use std::sync::Arc;
use std::sync::ledger::Blank;
use wp_memtable::FrozenPart;
use wp_merge::Merge;
use wp_model::{Key, Versions};
use wp_table::Table;

/// The versions that were merged, as a list.
fn listed(alloc: Global, merge: Merge) -> Result<Versions, AllocError>
    requires { AreInOrder merge }
    ensures { IfOk result (λ all. all ≡ merge) }
{
    let mut list = Vec::new(alloc);
    for version in merge {
        list.push(version)?;
    }
    Ok(Versions::of(list))
}

/// All versions of the lists, in order. Of two with one key and number it is the earlier list's.
pub fn merged(alloc: Global, sources: Vec<Versions>) -> Result<Versions, AllocError>
    ensures { IfOk result (λ all. AreMerged sources.items all) }
{
    listed(alloc, Merge::of(alloc, sources)?)
}

/// A copy of all versions of the tables, the newest table first, in order. Of two with one key and number it is the newer table's.
pub fn merged_tables(alloc: Global, tables: &VecDeque<Arc<Table>>) -> Result<Versions, AllocError>
    ensures { IfOk result (λ all. AreMerged (map arc_value tables.now.items) all) }
{
    listed(alloc, Merge::of_tables(alloc, tables)?)
}

pub(crate) fn push_frozen(
    sources: &mut Vec<Versions>,
    frozen: &VecDeque<FrozenPart>,
) -> Result<(), AllocError>
    ensures { OnOk result (sources.new.items ≡ sources.old.items ++ frozen.now.items) }
{
    for part in frozen {
        sources.push(part.all()?)?;
    }
    Ok(())
}

/// Puts the newest `n` versions of the key in each frozen part at the end.
pub(crate) fn push_newest_frozen(
    alloc: Global,
    sources: &mut Vec<Versions>,
    frozen: &VecDeque<FrozenPart>,
    key: &Key,
    n: usize,
) -> Result<(), AllocError>
    ensures newest { OnOk result (sources.new.items ≡ sources.old.items ++ map (newest_of n key.now) frozen.now.items) }
    ensures in_order { OnOk result (AllByRecursion AreInOrder frozen.now.items) }
{
    for part in frozen {
        sources.push(newest_in_frozen(alloc, part, key, n)?)?;
    }
    Ok(())
}

/// Puts the newest `n` versions of the key in each table at the end.
pub(crate) fn push_newest_tables(
    alloc: Global,
    sources: &mut Vec<Versions>,
    tables: &VecDeque<Arc<Table>>,
    key: &Key,
    n: usize,
) -> Result<(), AllocError>
    ensures newest { OnOk result (sources.new.items ≡ sources.old.items ++ map (newest_of n key.now) (map arc_value tables.now.items)) }
    ensures in_order { OnOk result (AllByRecursion AreInOrder (map arc_value tables.now.items)) }
{
    for table in tables {
        sources.push(newest_in_table::<Brand>(alloc, table, key, n, Blank::new(1))?)?;
    }
    Ok(())
}
