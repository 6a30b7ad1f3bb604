//! Reading the edits that records spell.

ghost use Rattle.std.specs.Prelude.{◌≡◌, ◌≤◌, ◌*◌, length, IfOk, IfErr};
ghost use Rattle.wp_manifest.specs.Edit.{ArePlaces, places_bytes};
ghost use Rattle.wp_manifest.specs.Reading.{IsLastOf, MarkedRead, FrontRead, CountsRead, IsTableRead, EditRead, IsEditCause};

use crate::edit::{Edit, MARK};
use crate::error::ManifestError;
use std::alloc::{AllocError, Global};
use wp_fields::Fields;
use wp_gatelog::StoredRecord;
use wp_model::Seq;

/// How many bytes a table has in an edit.
const PLACE_BYTES: u64 = 16;

/// The numbers at the front of an edit.
#[derive(Drop)]
struct Front {
    flushed: Seq,
    place: Option<u64>,
    /// How many tables it has.
    count: u64,
}

/// The numbers behind the mark of the second form.
fn marked_front(fields: &mut Fields<'_>) -> Option<Front>
    ensures { MarkedRead fields.old fields.new result }
{
    let flushed = fields.u64()?;
    let place = Some(fields.u64()?);
    let count = fields.u64()?;
    Some(Front {
        flushed,
        place,
        count,
    })
}

fn front_of(fields: &mut Fields<'_>) -> Option<Front>
    ensures { FrontRead fields.old fields.new result }
{
    let flushed = fields.u32()?;
    let count = fields.u32()?;
    if flushed == 0 && count == MARK {
        return marked_front(fields);
    }
    Some(Front {
        flushed: Seq::from(flushed),
        place: None,
        count: u64::from(count),
    })
}

/// The numbers at the front of an edit, if the bytes after them are those of so many tables.
fn counts_of(fields: &mut Fields<'_>) -> Option<Front>
    ensures { CountsRead fields.old fields.new result }
{
    let front = front_of(fields)?;
    if front.count > front.flushed {
        return None;
    }
    let left = fields.left() as u64;
    if left % PLACE_BYTES != 0 || left / PLACE_BYTES != front.count {
        return None;
    }
    Some(front)
}

/// The place and the length of a table.
fn read_place(fields: &mut Fields<'_>) -> Option<(u64, u64)>
    requires { 16 ≤ length fields.old }
    ensures { IsTableRead fields.old fields.new result }
{
    let place = fields.u64()?;
    let len = fields.u64()?;
    Some((place, len))
}

/// So many tables.
fn read_places(
    alloc: Global,
    fields: &mut Fields<'_>,
    count: u64,
) -> Result<Vec<(u64, u64)>, AllocError>
    requires { length fields.old ≡ count * 16 }
    ensures spelling { IfOk result (λ tables. fields.old ≡ places_bytes tables.items) }
    ensures count { IfOk result (λ tables. length tables.items ≡ count) }
    ensures places { IfOk result (λ tables. ArePlaces tables.items) }
{
    let mut tables = Vec::new(alloc);
    for _ in 0..count {
        let Some(table) = read_place(fields) else {
            unreachable!()
        };
        tables.push(table)?;
    }
    Ok(tables)
}

/// The edit that the bytes are, or none.
fn read_edit(alloc: Global, bytes: &[u8]) -> Result<Option<Edit>, AllocError>
    ensures { IfOk result (λ edit. EditRead bytes.now edit) }
{
    let mut fields = Fields::of(bytes);
    let Some(front) = counts_of(&mut fields) else {
        return Ok(None);
    };
    let tables = read_places(alloc, &mut fields, front.count)?;
    Ok(Some(Edit {
        flushed: front.flushed,
        place: front.place,
        tables,
    }))
}

/// The last of the edits that the records are, or no edit where there is no record.
pub fn last_edit(alloc: Global, records: &[StoredRecord]) -> Result<Edit, ManifestError>
    ensures ok { IfOk result (IsLastOf records.now) }
    ensures err { IfErr result (IsEditCause records.now) }
{
    let mut last = Edit::none(alloc);
    for (i, record) in records.iter().enumerate() {
        match read_edit(alloc, record.bytes())? {
            Some(edit) => last = edit,
            None => return Err(ManifestError::BadEdit { index: i as u64 }),
        }
    }
    Ok(last)
}
