ghost use Rattle.std.specs.Prelude.{◌≡◌, ◌-◌, [], List, length, None, IfOk, IfErr, IfSome, Ok, Err};
ghost use Rattle.std.specs.Option.{option_copied, option_map};
ghost use Rattle.wp_model.specs.declared.version.Version.{Version};
ghost use Rattle.wp_fields.specs.Reading.{Gives};
ghost use Rattle.wp_table.specs.declared.error.TableError.{TableError};
ghost use Rattle.wp_table.specs.Borrowed.{seen};
ghost use Rattle.wp_table.specs.Errors.{table_fault};
ghost use Rattle.wp_table.specs.Faults.{IsTableFault};
ghost use Rattle.wp_table.specs.Table.{block_count, SpellsTable};
ghost use Rattle.wp_table.specs.Reading.{format_at, after_id, count_at, head_at, flushed_number_at, stored_at, is_after, next_place_at, next_version_at, after_place, after_places, table_at};
ghost use Rattle.wp_table.specs.Judging.{last_after, last_of_block, places_after, table_judged};
ghost use Rattle.wp_table.specs.Walk.{stored_versions, IsIndexed};

use crate::error::TableError;
use crate::layout::{BLOCK, DELETION, MAGIC, PUT, blocks_for};
use crate::version::VersionRef;
use std::alloc::Global;
use wp_encoding::{read_value_bytes, read_word_bytes};
use wp_fields::{Fields, Format};
use wp_model::{MOST_KEY_BYTES, Seq};

/// The version of the format, after the magic.
#[tactic(auto, unfolding(crate::specs::Reading::format_at))]
fn format(fields: &mut Fields<'_>) -> Result<Format, TableError>
    ensures { Gives table_fault (λ format. (format, fields.new)) result (format_at fields.old) }
{
    let magic = fields.piece(MAGIC.len()).ok_or(TableError::Short)?;
    if magic != MAGIC.as_slice() {
        return Err(TableError::Head);
    }
    let byte = fields.u8().ok_or(TableError::Short)?;
    Format::of(byte).ok_or(TableError::Head)
}

#[tactic(auto, unfolding(crate::specs::Reading::after_id))]
fn store_id(fields: &mut Fields<'_>, id: u32) -> Result<(), TableError>
    ensures { Gives table_fault (λ _. fields.new) result (after_id id fields.old) }
{
    let found = fields.u32().ok_or(TableError::Short)?;
    if found != id {
        return Err(TableError::Stranger(found));
    }
    Ok(())
}

/// The number of versions.
#[tactic(auto, unfolding(crate::specs::Reading::count_at))]
fn count(fields: &mut Fields<'_>) -> Result<u64, TableError>
    ensures { Gives table_fault (λ count. (count, fields.new)) result (count_at fields.old) }
{
    let count = fields.u64().ok_or(TableError::Short)?;
    if count == 0 {
        return Err(TableError::Count);
    }
    let blocks = fields.u64().ok_or(TableError::Short)?;
    if blocks != blocks_for(count) {
        return Err(TableError::Count);
    }
    Ok(count)
}

#[tactic(auto, unfolding(crate::specs::Reading::head_at))]
fn head(fields: &mut Fields<'_>, id: u32) -> Result<(Format, u64), TableError>
    ensures { Gives table_fault (λ head. (head, fields.new)) result (head_at id fields.old) }
{
    let format = format(fields)?;
    store_id(fields, id)?;
    let count = count(fields)?;
    Ok((format, count))
}

#[tactic(auto, unfolding(crate::specs::Reading::flushed_number_at))]
fn flushed_number(fields: &mut Fields<'_>, format: Format, flushed: Seq) -> Result<Seq, TableError>
    ensures { Gives table_fault (λ number. (number, fields.new)) result (flushed_number_at format flushed fields.old) }
{
    let number = fields.number(format).ok_or(TableError::Short)?;
    if number == 0 || number > flushed {
        return Err(TableError::Number);
    }
    Ok(number)
}

/// What a version leaves under its key: a value, or none.
#[tactic(auto, unfolding(crate::specs::Reading::stored_at))]
fn stored<'a>(fields: &mut Fields<'a>) -> Result<Option<&'a [u8]>, TableError>
    ensures { Gives table_fault (λ value. (option_copied value, fields.new)) result (stored_at fields.old) }
{
    match fields.u8().ok_or(TableError::Short)? {
        DELETION => Ok(None),
        PUT => Ok(Some(read_value_bytes(fields)?)),
        _ => Err(TableError::Word),
    }
}

fn is_after(last: Option<VersionRef<'_>>, version: &VersionRef<'_>) -> bool
    ensures { result ≡ is_after (option_map seen last.entry) (seen version.now) }
{
    match last {
        None => true,
        Some(last) => last.place_cmp(version).is_lt(),
    }
}

/// The version after the last one, whose value is still to be read.
#[tactic(auto, unfolding(crate::specs::Reading::next_place_at))]
fn next_place<'a>(
    fields: &mut Fields<'a>,
    format: Format,
    flushed: Seq,
    last: Option<VersionRef<'a>>,
) -> Result<VersionRef<'a>, TableError>
    ensures { Gives table_fault (λ version. (seen version, fields.new)) result (next_place_at format flushed (option_map seen last.entry) fields.old) }
{
    let key = read_word_bytes(fields, MOST_KEY_BYTES)?;
    let number = flushed_number(fields, format, flushed)?;
    let version = VersionRef {
        key,
        number,
        value: None,
    };
    if !is_after(last, &version) {
        return Err(TableError::Order);
    }
    Ok(version)
}

#[tactic(auto, unfolding(crate::specs::Reading::next_version_at))]
fn next_version<'a>(
    fields: &mut Fields<'a>,
    format: Format,
    flushed: Seq,
    last: Option<VersionRef<'a>>,
) -> Result<VersionRef<'a>, TableError>
    ensures { Gives table_fault (λ version. (seen version, fields.new)) result (next_version_at format flushed (option_map seen last.entry) fields.old) }
{
    let VersionRef { key, number, .. } = next_place(fields, format, flushed, last)?;
    let value = stored(fields)?;
    Ok(VersionRef { key, number, value })
}

/// The last version after so many more.
fn last_after<'a>(
    fields: &mut Fields<'a>,
    format: Format,
    count: u64,
    flushed: Seq,
    before: Option<VersionRef<'a>>,
) -> Result<Option<VersionRef<'a>>, TableError>
    ensures { Gives table_fault (λ last. (option_map seen last, fields.new)) result (last_after format count flushed (option_map seen before.entry) fields.old) }
{
    let mut last = before;
    for _ in 0..count {
        last = Some(next_version(fields, format, flushed, last)?);
    }
    Ok(last)
}

/// The last version after those of a block that is to have so many.
#[tactic(auto, unfolding(crate::specs::Judging::last_of_block))]
fn last_of_block<'a>(
    fields: &mut Fields<'a>,
    format: Format,
    count: u64,
    flushed: Seq,
    last: Option<VersionRef<'a>>,
) -> Result<Option<VersionRef<'a>>, TableError>
    ensures { Gives table_fault (λ last. (option_map seen last, fields.new)) result (last_of_block format count flushed (option_map seen last.entry) fields.old) }
{
    let found = u64::from(fields.u16().ok_or(TableError::Short)?);
    if found != count {
        return Err(TableError::Count);
    }
    last_after(fields, format, count, flushed, last)
}

/// Where the next field is in a table of `size` bytes.
fn place_of(fields: &Fields<'_>, size: usize) -> u64
    ensures { result ≡ size - length fields.now }
{
    size.saturating_sub(fields.left()) as u64
}

/// Judges all blocks: the places where they begin. A table has eight bytes in its index for each, so that no more memory is
/// taken for them than the bytes', whatever the head says.
fn all_blocks(
    alloc: Global,
    fields: &mut Fields<'_>,
    format: Format,
    size: usize,
    flushed: Seq,
    count: u64,
) -> Result<Vec<u64>, TableError>
    ensures { Gives table_fault (λ places. (places.items, fields.new)) result (places_after format (block_count count) size flushed count None [] fields.old) }
{
    let blocks = blocks_for(count);
    let mut places = Vec::with_capacity(alloc, blocks.min((size / 8) as u64) as usize)?;
    let mut last = None;
    let mut left = count;
    for _ in 0..blocks {
        let in_block = left.min(BLOCK);
        places.push(place_of(fields, size))?;
        last = last_of_block(fields, format, in_block, flushed, last)?;
        left -= in_block;
    }
    Ok(places)
}

#[tactic(auto, unfolding(crate::specs::Reading::after_place))]
fn same_place(fields: &mut Fields<'_>, place: u64) -> Result<(), TableError>
    ensures { Gives table_fault (λ _. fields.new) result (after_place place fields.old) }
{
    let found = fields.u64().ok_or(TableError::Short)?;
    if found != place {
        return Err(TableError::Index);
    }
    Ok(())
}

/// The index has these places.
fn same_places(fields: &mut Fields<'_>, places: &[u64]) -> Result<(), TableError>
    ensures { Gives table_fault (λ _. fields.new) result (after_places places.now fields.old) }
{
    for place in places {
        same_place(fields, *place)?;
    }
    Ok(())
}

#[tactic(auto, unfolding(crate::specs::Judging::table_judged))]
fn table(
    alloc: Global,
    bytes: &[u8],
    id: u32,
    flushed: Seq,
) -> Result<(Format, u64, Vec<u64>), TableError>
    ensures { Gives table_fault (λ read. (read.0, read.1, read.2.items)) result (table_judged id flushed bytes.now) }
{
    let mut fields = Fields::of(bytes);
    let (format, count) = head(&mut fields, id)?;
    let places = all_blocks(alloc, &mut fields, format, bytes.len(), flushed, count)?;
    let end = place_of(&fields, bytes.len());
    same_places(&mut fields, &places)?;
    same_place(&mut fields, end)?;
    if fields.left() != 0 {
        return Err(TableError::Extra);
    }
    Ok((format, count, places))
}

/// Judges the bytes of a table in one pass, for the first fault from the left: the version of its format, how many versions
/// it has, and the places where its blocks begin.
pub(crate) fn judge(
    alloc: Global,
    bytes: &[u8],
    id: u32,
    flushed: Seq,
) -> Result<(Format, u64, Vec<u64>), TableError>
    ensures found { IfOk result (λ read. SpellsTable id flushed (stored_versions read.0 bytes.now read.1) bytes.now) }
    ensures only { (written : List Version) → SpellsTable id flushed written bytes.now
        → Gives table_fault (λ read. stored_versions read.0 bytes.now read.1) result (Ok written) }
    ensures refused { IfErr result (λ error. IfSome (table_fault error) (λ fault. IsTableFault id flushed bytes.now fault)) }
    ensures each_fault { (fault : TableError) → IsTableFault id flushed bytes.now fault
        → Gives table_fault (λ read. stored_versions read.0 bytes.now read.1) result (Err fault) }
    ensures exact { Gives table_fault (λ read. stored_versions read.0 bytes.now read.1) result (table_at id flushed bytes.now) }
    ensures indexed { IfOk result (λ read. IsIndexed read.0 bytes.now read.1 read.2.items) }
{
    table(alloc, bytes, id, flushed)
}
