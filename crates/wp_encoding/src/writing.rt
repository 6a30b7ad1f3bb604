ghost use Rattle.std.specs.Prelude.{◌≡◌, ◌≤◌, true, ◌++◌, OnOk};
ghost use Rattle.wp_model.specs.declared.word.TheConstants.{MOST_KEY_BYTES};
ghost use Rattle.wp_model.specs.Word.{is_word, is_value};
ghost use Rattle.wp_encoding.specs.Encoding.{word_bytes, value_bytes, change_bytes, batch_bytes, is_change, are_changes};

use crate::layout::{DELETION, PUT};
use std::alloc::AllocError;
use wp_fields::{push_piece, push_u8, push_u16};
use wp_model::{Batch, Change, Value, Word};

/// Puts a key or a name at the end.
pub fn push_word<const MOST: usize>(out: &mut Vec<u8>, word: &Word<MOST>) -> Result<(), AllocError>
    requires { MOST ≤ MOST_KEY_BYTES }
    ensures pushed { OnOk result (out.new.items ≡ out.old.items ++ word_bytes word.now) }
    ensures in_range { is_word MOST word.now ≡ true }
{
    let bytes = word.bytes();
    push_u8(out, bytes.len() as u8)?;
    push_piece(out, bytes)
}

/// Puts the value at the end.
pub fn push_value(out: &mut Vec<u8>, value: &Value) -> Result<(), AllocError>
    ensures pushed { OnOk result (out.new.items ≡ out.old.items ++ value_bytes value.now) }
    ensures in_range { is_value value.now ≡ true }
{
    let bytes = value.bytes();
    push_u16(out, bytes.len() as u16)?;
    push_piece(out, bytes)
}

fn push_change(out: &mut Vec<u8>, change: &Change) -> Result<(), AllocError>
    ensures pushed { OnOk result (out.new.items ≡ out.old.items ++ change_bytes change.now) }
    ensures in_range { OnOk result (is_change change.now ≡ true) }
{
    match change {
        Change::Del(key) => {
            push_u8(out, DELETION)?;
            push_word(out, key)
        }
        Change::Put(key, value) => {
            push_u8(out, PUT)?;
            push_word(out, key)?;
            push_value(out, value)
        }
    }
}

/// Puts the batch at the end.
pub fn push_batch(out: &mut Vec<u8>, batch: &Batch) -> Result<(), AllocError>
    ensures pushed { OnOk result (out.new.items ≡ out.old.items ++ batch_bytes batch.now) }
    ensures in_range { OnOk result (are_changes batch.now ≡ true) }
{
    let changes = batch.changes();
    push_u8(out, changes.len() as u8)?;
    for change in changes {
        push_change(out, change)?;
    }
    Ok(())
}
