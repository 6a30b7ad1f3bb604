//! Edits as bytes.

ghost use Rattle.std.specs.Prelude.{◌≡◌, ◌<◌, ◌≤◌, ◌^◌, ◌++◌, length, true, is_some, Some, IfOk, OnOk};
ghost use Rattle.wp_manifest.specs.Edit.{ArePlaces, IsEdit, IsFront, edit_bytes, front_bytes, place_bytes, places_bytes};

use crate::edit::{Edit, MARK};
use std::alloc::{AllocError, Global};
use wp_fields::{push_u32, push_u64};
use wp_gatelog::Frame;
use wp_model::Seq;

fn push_place(out: &mut Vec<u8>, table: &(u64, u64)) -> Result<(), AllocError>
    ensures pushed { OnOk result (out.new.items ≡ out.old.items ++ place_bytes table.now) }
    ensures in_range { (table.now.0 < 2 ^ 64) × (table.now.1 < 2 ^ 64) }
{
    let (place, len) = *table;
    push_u64(out, place)?;
    push_u64(out, len)?;
    Ok(())
}

fn push_places(out: &mut Vec<u8>, tables: &[(u64, u64)]) -> Result<(), AllocError>
    ensures pushed { OnOk result (out.new.items ≡ out.old.items ++ places_bytes tables.now) }
    ensures in_range { OnOk result (ArePlaces tables.now) }
{
    for table in tables {
        push_place(out, table)?;
    }
    Ok(())
}

/// Puts the numbers at the front of an edit of the second form at the end.
fn push_front(out: &mut Vec<u8>, flushed: Seq, place: u64, count: u64) -> Result<(), AllocError>
    ensures pushed { OnOk result (out.new.items ≡ out.old.items ++ front_bytes (Some place) flushed count) }
    ensures front { IsFront (Some place) flushed count }
{
    push_u32(out, 0)?;
    push_u32(out, MARK)?;
    push_u64(out, flushed)?;
    push_u64(out, place)?;
    push_u64(out, count)?;
    Ok(())
}

/// Puts the edit's bytes at the end, in the second form.
fn push_edit(out: &mut Vec<u8>, edit: &Edit) -> Result<(), AllocError>
    requires place { is_some edit.now.place ≡ true }
    requires count { length edit.now.tables ≤ edit.now.flushed }
    ensures pushed { OnOk result (out.new.items ≡ out.old.items ++ edit_bytes edit.now) }
    ensures edit { OnOk result (IsEdit edit.now) }
{
    let Some(place) = edit.place else {
        unreachable!()
    };
    push_front(out, edit.flushed, place, edit.tables.len() as u64)?;
    push_places(out, &edit.tables)?;
    Ok(())
}

/// The record that the edit is, as it is written.
pub(crate) fn frame_edit(alloc: Global, edit: &Edit) -> Result<Frame, AllocError>
    requires place { is_some edit.now.place ≡ true }
    requires count { length edit.now.tables ≤ edit.now.flushed }
    ensures spelling { IfOk result (λ frame. frame ≡ edit_bytes edit.now) }
    ensures edit { IfOk result (λ _. IsEdit edit.now) }
{
    let mut room = Frame::room(alloc)?;
    push_edit(&mut room, edit)?;
    let frame = Frame::of(room)?;
    Ok(frame)
}
