//! The spelling of a table, part by part.
ghost use Rattle.std.specs.Prelude.{◌≡◌, ℕ, ◌≤◌, true, [], ◌∷◌, ◌++◌, length, OnOk, IfOk};
ghost use Rattle.std.specs.List.{flat_map, list_all};
ghost use Rattle.std.specs.Int.{w64, to_be_bytes};
ghost use Rattle.std.specs.Option.{option_copied};
ghost use Rattle.wp_fields.specs.declared.format.Format.TheVariants.{Two};
ghost use Rattle.wp_table.specs.Table.{stored_bytes, version_bytes, block_bytes, is_numbered, is_flushed, is_stored, has_words, blocks_of, places_from, head_bytes, written_bytes, SpellsTable};
ghost use Rattle.wp_table.specs.Walk.{stored_versions, IsIndexed};

use std::alloc::{AllocError, Global};
use wp_encoding::{push_value, push_word};
use wp_fields::{Format, push_piece, push_u8, push_u16, push_u32, push_u64};
use wp_model::{Value, Version, Versions};
use wp_table::{BLOCK, Built, DELETION, MAGIC, PUT, blocks_for};

fn push_head(out: &mut Vec<u8>, id: u32, count: u64) -> Result<(), AllocError>
    ensures { OnOk result (out.new.items ≡ out.old.items ++ head_bytes Two id count) }
{
    push_piece(out, &MAGIC)?;
    push_u8(out, Format::Two.byte())?;
    push_u32(out, id)?;
    push_u64(out, count)?;
    push_u64(out, blocks_for(count))
}

fn push_stored(out: &mut Vec<u8>, value: Option<&Value>) -> Result<(), AllocError>
    ensures pushed { OnOk result (out.new.items ≡ out.old.items ++ stored_bytes (option_copied value.entry)) }
    ensures in_range { OnOk result (is_stored (option_copied value.entry) ≡ true) }
{
    match value {
        None => push_u8(out, DELETION),
        Some(value) => {
            push_u8(out, PUT)?;
            push_value(out, value)
        }
    }
}

fn push_version(out: &mut Vec<u8>, version: &Version) -> Result<(), AllocError>
    ensures pushed { OnOk result (out.new.items ≡ out.old.items ++ version_bytes Two version.now) }
    ensures in_range { OnOk result (has_words version.now ≡ true) }
{
    push_word(out, &version.key)?;
    push_u64(out, version.number)?;
    push_stored(out, version.value.as_ref())
}

fn push_block(out: &mut Vec<u8>, block: &[Version]) -> Result<(), AllocError>
    requires { length block.now ≤ BLOCK }
    ensures pushed { OnOk result (out.new.items ≡ out.old.items ++ block_bytes Two block.now) }
    ensures in_range { OnOk result (list_all has_words block.now ≡ true) }
{
    push_u16(out, block.len() as u16)?;
    for version in block {
        push_version(out, version)?;
    }
    Ok(())
}

/// Puts the blocks at the end, and where each begins behind the other places.
fn push_blocks(
    out: &mut Vec<u8>,
    places: &mut Vec<u64>,
    versions: &[Version],
) -> Result<(), AllocError>
    ensures pushed { OnOk result (out.new.items ≡ out.old.items ++ flat_map (block_bytes Two) (blocks_of versions.now)) }
    ensures placed { OnOk result (places.new.items ++ length out.new.items ∷ [] ≡ places.old.items ++ places_from Two (length out.old.items) (blocks_of versions.now)) }
    ensures in_range { OnOk result (list_all has_words versions.now ≡ true) }
{
    for block in versions.chunks(BLOCK as usize) {
        places.push(out.len() as u64)?;
        push_block(out, block)?;
    }
    Ok(())
}

fn push_places(out: &mut Vec<u8>, places: &[u64]) -> Result<(), AllocError>
    ensures { OnOk result (out.new.items ≡ out.old.items ++ flat_map (to_be_bytes w64) places.now) }
{
    for place in places {
        push_u64(out, *place)?;
    }
    Ok(())
}

/// The one spelling of the table that the versions are, and where its blocks begin.
fn spell(alloc: Global, id: u32, versions: &Versions) -> Result<(Vec<u8>, Vec<u64>), AllocError>
    requires some { 1 ≤ length versions.now }
    requires numbered { list_all is_numbered versions.now ≡ true }
    ensures bytes { IfOk result (λ spelled. spelled.0.items ≡ written_bytes id versions.now) }
    ensures stored { IfOk result (λ spelled. stored_versions Two spelled.0.items (length versions.now) ≡ versions.now) }
    ensures indexed { IfOk result (λ spelled. IsIndexed Two spelled.0.items (length versions.now) spelled.1.items) }
    ensures table { OnOk result ((flushed : ℕ) → list_all (is_flushed flushed) versions.now ≡ true → SpellsTable id flushed versions.now (written_bytes id versions.now)) }
{
    let versions = versions.as_slice();
    let mut out = Vec::new(alloc);
    let mut places = Vec::with_capacity(alloc, blocks_for(versions.len() as u64) as usize)?;
    push_head(&mut out, id, versions.len() as u64)?;
    push_blocks(&mut out, &mut places, versions)?;
    let end = out.len() as u64;
    push_places(&mut out, &places)?;
    push_u64(&mut out, end)?;
    out.shrink_to_fit();
    Ok((out, places))
}

/// The table that the versions are, for the store with that id, in its one spelling in the second version of the format.
/// Their numbers are below 2^56.
pub fn build(alloc: Global, id: u32, versions: &Versions) -> Result<Built, AllocError>
    requires some { 1 ≤ length versions.now }
    requires numbered { list_all is_numbered versions.now ≡ true }
    ensures bytes { IfOk result (λ built. built.bytes ≡ written_bytes id versions.now) }
    ensures versions { IfOk result (λ built. built.versions ≡ versions.now) }
    ensures table { OnOk result ((flushed : ℕ) → list_all (is_flushed flushed) versions.now ≡ true → SpellsTable id flushed versions.now (written_bytes id versions.now)) }
{
    let (bytes, index) = spell(alloc, id, versions)?;
    Built::of(alloc, bytes, versions.as_slice().len() as u64, index)
}
