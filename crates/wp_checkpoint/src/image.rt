//! What is written of a copy, put together in memory.
ghost use Rattle.std.specs.Prelude.{◌≡◌, true, map, IfOk};
ghost use Rattle.std.specs.List.{list_all};
ghost use Rattle.std.specs.List.Sorted.{IsStrictlySortedBy};
ghost use Rattle.std.specs.Map.{keys_of};
ghost use Rattle.wp_model.specs.Batch.{key_cmp};
ghost use Rattle.wp_cuts.specs.Kept.{carried_versions};
ghost use Rattle.wp_cuts.specs.LegalCut.{AreNumbered, IsOrderlyCut};
ghost use Rattle.wp_merge.specs.Merge.{sorted_of};
ghost use Rattle.wp_table.specs.Table.{is_numbered};
ghost use Rattle.wp_checkpoint.specs.Copy.{MayAllBeCopied, copied_base, copied_cut, copied_versions, version_of};
ghost use Rattle.wp_checkpoint.specs.Image.{AreMadeOf, IsImageOf, IsTableOf, edit_of};

use crate::copying::Copied;
use crate::rows::Rows;
use std::alloc::{AllocError, Global};
use wp_build::build;
use wp_entry::Base;
use wp_gatelog::WholeLog;
use wp_manifest::{Edit, whole};
use wp_memtable::Memtable;
use wp_model::{Carried, Row, Seq, Version, Versions};
use wp_store::merged;
use wp_table::Built;
use wp_wal::NewSegment;

/// The bytes of the three devices, where there is a table, and what they are said to be.
#[derive(Drop)]
pub(crate) struct Image {
    pub copied: Copied,
    pub table: Option<Built>,
    pub log: NewSegment,
    pub manifest: WholeLog,
}

fn version_of(row: Row) -> Version
    ensures { result ≡ version_of row }
{
    let Row { key, number, value } = row;
    let value = Some(value);
    Version { key, number, value }
}

/// The versions of the rows that are left.
fn row_versions<R: Rows>(alloc: Global, rows: &mut R) -> Result<Versions, AllocError>
    requires ascend { IsStrictlySortedBy key_cmp (keys_of (R.left rows.old)) }
    ensures made { IfOk result (AreMadeOf (R.left rows.old) (R.gives rows.old) (map version_of)) }
    ensures later { R.later rows.old rows.new }
{
    let mut versions = Vec::new(alloc);
    while let Some(row) = rows.next()? {
        versions.push(version_of(row))?;
    }
    Ok(Versions::of(versions))
}

/// The versions of the prepares.
fn prepared_versions(alloc: Global, at: Seq, carried: &[Carried]) -> Result<Versions, AllocError>
    requires { AreNumbered (copied_cut at carried.now) }
    ensures { IfOk result (λ versions. versions ≡ sorted_of (carried_versions carried.now)) }
{
    let mut memory = Memtable::new(alloc);
    for prepare in carried {
        memory.insert(prepare.number, &prepare.batch)?;
    }
    memory.all()
}

/// The versions of the copy.
fn all_versions<R: Rows>(
    alloc: Global,
    rows: &mut R,
    at: Seq,
    carried: &[Carried],
) -> Result<Versions, AllocError>
    requires ascend { IsStrictlySortedBy key_cmp (keys_of (R.left rows.old)) }
    requires numbered { AreNumbered (copied_cut at carried.now) }
    ensures made { IfOk result (AreMadeOf (R.left rows.old) (R.gives rows.old) (λ given. copied_versions given carried.now)) }
    ensures later { R.later rows.old rows.new }
{
    let rows = row_versions(alloc, rows)?;
    let prepared = prepared_versions(alloc, at, carried)?;
    merged(alloc, vec![in alloc; rows, prepared]?)
}

/// The table of the versions, if there are any.
fn table_of(alloc: Global, id: u32, versions: &Versions) -> Result<Option<Built>, AllocError>
    requires { list_all is_numbered versions.now ≡ true }
    ensures { IfOk result (IsTableOf id versions.now) }
{
    if versions.as_slice().is_empty() {
        return Ok(None);
    }
    Ok(Some(build(alloc, id, versions)?))
}

fn copy_of(alloc: Global, prepare: &Carried) -> Result<Carried, AllocError>
    ensures { IfOk result (λ copy. copy ≡ prepare.now) }
{
    Ok(Carried {
        number: prepare.number,
        name: prepare.name.copy(alloc)?,
        batch: prepare.batch.copy(alloc)?,
    })
}

fn base_of(alloc: Global, at: Seq, carried: &[Carried]) -> Result<Base, AllocError>
    ensures { IfOk result (λ base. base ≡ copied_base at carried.now) }
{
    let mut copies = Vec::with_capacity(alloc, carried.len())?;
    for prepare in carried {
        copies.push(copy_of(alloc, prepare)?)?;
    }
    Ok(Base {
        number: at,
        carried: copies,
    })
}

/// The edit that names the table, at the beginning of its device.
fn edit_of(alloc: Global, at: Seq, table: &Option<Built>) -> Result<Edit, AllocError>
    ensures { IfOk result (λ edit. edit ≡ edit_of at table.now) }
{
    let mut tables = Vec::new(alloc);
    if let Some(table) = table {
        tables.push((0, table.bytes().len() as u64))?;
    }
    Ok(Edit {
        flushed: at,
        place: Some(0),
        tables,
    })
}

/// Takes all the memory that the copy needs.
pub(crate) fn image_of<R: Rows>(
    alloc: Global,
    rows: &mut R,
    carried: &[Carried],
    at: Seq,
    id: u32,
) -> Result<Image, AllocError>
    requires cut { IsOrderlyCut (copied_cut at carried.now) }
    requires rows { MayAllBeCopied at carried.now (R.left rows.old) (R.gives rows.old) }
    ensures image { IfOk result (IsImageOf id at (R.left rows.old) (R.gives rows.old) carried.now) }
    ensures later { R.later rows.old rows.new }
{
    let versions = all_versions(alloc, rows, at, carried)?;
    let table = table_of(alloc, id, &versions)?;
    let log = NewSegment::of(alloc, id, &base_of(alloc, at, carried)?)?;
    let manifest = whole(alloc, id, &edit_of(alloc, at, &table)?)?;
    let copied = Copied {
        at,
        versions: versions.as_slice().len() as u64,
        carried: carried.len() as u64,
    };
    Ok(Image {
        copied,
        table,
        log,
        manifest,
    })
}
