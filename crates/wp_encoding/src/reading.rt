ghost use Rattle.std.specs.Prelude.{◌≡◌, [], ◌∷◌, ◌++◌, length, true, ◌<◌, ◌≤◌, IfOk, IfErr, OnOk};
ghost use Rattle.std.specs.List.{list_all};
ghost use Rattle.wp_model.specs.Batch.{key_of, is_batch};
ghost use Rattle.wp_model.specs.Word.{is_word, is_word_byte, is_value};
ghost use Rattle.wp_fields.specs.Reading.{Gives};
ghost use Rattle.wp_encoding.specs.Errors.{encoding_fault};
ghost use Rattle.wp_encoding.specs.Reading.{text_at, word_field_at, value_field_at, is_above_last, next_key_at, next_change_at, changes_after, batch_field_at};

use crate::error::EncodingError;
use crate::layout::{DELETION, PUT};
use std::alloc::Global;
use wp_fields::Fields;
use wp_model::{Batch, Change, Key, MOST_KEYS, MOST_VALUE_BYTES, SetError, Value, Word, WordError};

fn are_word_bytes(bytes: &[u8]) -> bool
    ensures { result ≡ list_all is_word_byte bytes.now }
{
    bytes.iter().all(|b| *b >= b'!' && *b <= b'~')
}

/// The text of `len` bytes, which has to be a word of at most `most`.
#[tactic(auto, unfolding(crate::specs::Reading::text_at))]
fn text<'a>(fields: &mut Fields<'a>, most: usize, len: usize) -> Result<&'a [u8], EncodingError>
    ensures read { Gives encoding_fault (λ text. (text.now, fields.new)) result (text_at most len fields.old) }
    ensures word { IfOk result (λ text. is_word most text.now ≡ true) }
{
    if len == 0 || len > most {
        return Err(EncodingError::Word);
    }
    let text = fields.piece(len).ok_or(EncodingError::Short)?;
    if !are_word_bytes(text) {
        return Err(EncodingError::Word);
    }
    Ok(text)
}

/// The bytes of the key or the name of at most `most` bytes, after its one byte length.
#[tactic(auto, unfolding(crate::specs::Reading::word_field_at))]
pub fn read_word_bytes<'a>(fields: &mut Fields<'a>, most: usize) -> Result<&'a [u8], EncodingError>
    ensures read { Gives encoding_fault (λ word. (word.now, fields.new)) result (word_field_at most fields.old) }
    ensures word { IfOk result (λ word. is_word most word.now ≡ true) }
{
    let len = fields.u8().ok_or(EncodingError::Short)?;
    text(fields, most, len as usize)
}

/// The bytes of the value, after its two bytes length.
#[tactic(auto, unfolding(crate::specs::Reading::value_field_at))]
pub fn read_value_bytes<'a>(fields: &mut Fields<'a>) -> Result<&'a [u8], EncodingError>
    ensures read { Gives encoding_fault (λ value. (value.now, fields.new)) result (value_field_at fields.old) }
    ensures word { IfOk result (λ value. is_value value.now ≡ true) }
{
    let len = fields.u16().ok_or(EncodingError::Short)?;
    text(fields, MOST_VALUE_BYTES, len as usize)
}

/// The word that the bytes are.
fn word_of<const MOST: usize>(alloc: Global, bytes: &[u8]) -> Result<Word<MOST>, EncodingError>
    requires { is_word MOST bytes.now ≡ true }
    ensures word { IfOk result (λ word. word ≡ bytes.now) }
    ensures memory { IfErr result (λ error. error ≡ EncodingError.Memory) }
{
    match Word::read(alloc, bytes) {
        Ok(word) => Ok(word),
        Err(WordError::Memory) => Err(EncodingError::Memory),
        Err(WordError::BadWord) => unreachable!(),
    }
}

/// The key or the name of at most `MOST` bytes, after its one byte length.
pub fn read_word<const MOST: usize>(
    alloc: Global,
    fields: &mut Fields<'_>,
) -> Result<Word<MOST>, EncodingError>
    ensures { Gives encoding_fault (λ word. (word, fields.new)) result (word_field_at MOST fields.old) }
{
    let bytes = read_word_bytes(fields, MOST)?;
    word_of(alloc, bytes)
}

/// The value, after its two bytes length.
pub fn read_value(alloc: Global, fields: &mut Fields<'_>) -> Result<Value, EncodingError>
    ensures { Gives encoding_fault (λ value. (value, fields.new)) result (value_field_at fields.old) }
{
    let bytes = read_value_bytes(fields)?;
    word_of(alloc, bytes)
}

fn is_above_last(batch: &Batch, key: &Key) -> bool
    ensures { result ≡ is_above_last batch.now key.now }
{
    match batch.changes() {
        [] => true,
        [.., last] => last.key() < key,
    }
}

#[tactic(auto, unfolding(crate::specs::Reading::next_key_at))]
fn next_key(alloc: Global, fields: &mut Fields<'_>, batch: &Batch) -> Result<Key, EncodingError>
    ensures read { Gives encoding_fault (λ key. (key, fields.new)) result (next_key_at batch.now fields.old) }
    ensures above { IfOk result (λ key. is_above_last batch.now key ≡ true) }
{
    let key = read_word(alloc, fields)?;
    if !is_above_last(batch, &key) {
        return Err(EncodingError::Word);
    }
    Ok(key)
}

#[tactic(auto, unfolding(crate::specs::Reading::next_change_at))]
fn next_change(
    alloc: Global,
    fields: &mut Fields<'_>,
    batch: &Batch,
) -> Result<Change, EncodingError>
    ensures read { Gives encoding_fault (λ change. (change, fields.new)) result (next_change_at batch.now fields.old) }
    ensures above { IfOk result (λ change. is_above_last batch.now (key_of change) ≡ true) }
{
    match fields.u8().ok_or(EncodingError::Short)? {
        DELETION => Ok(Change::Del(next_key(alloc, fields, batch)?)),
        PUT => {
            let key = next_key(alloc, fields, batch)?;
            Ok(Change::Put(key, read_value(alloc, fields)?))
        }
        other => Err(EncodingError::Kind(other)),
    }
}

/// Takes in a change to a key above all others.
fn append(batch: &mut Batch, change: Change) -> Result<(), EncodingError>
    requires batch { is_batch batch.old ≡ true }
    requires room { length batch.old < MOST_KEYS }
    requires above { is_above_last batch.old (key_of change) ≡ true }
    ensures appended { OnOk result (batch.new ≡ batch.old ++ change ∷ []) }
    ensures memory { IfErr result (λ error. error ≡ EncodingError.Memory) }
    ensures batch { is_batch batch.new ≡ true }
{
    match batch.set(change) {
        Ok(()) => Ok(()),
        Err(SetError::Memory) => Err(EncodingError::Memory),
        Err(SetError::TooMany) => unreachable!(),
    }
}

fn changes(alloc: Global, fields: &mut Fields<'_>, count: u8) -> Result<Batch, EncodingError>
    requires { count ≤ MOST_KEYS }
    ensures { Gives encoding_fault (λ batch. (batch, fields.new)) result (changes_after count [] fields.old) }
{
    let mut batch = Batch::new(alloc);
    for _ in 0..count {
        let change = next_change(alloc, fields, &batch)?;
        append(&mut batch, change)?;
    }
    Ok(batch)
}

/// The batch, after its one byte count.
#[tactic(auto, unfolding(crate::specs::Reading::batch_field_at))]
pub fn read_batch(alloc: Global, fields: &mut Fields<'_>) -> Result<Batch, EncodingError>
    ensures { Gives encoding_fault (λ batch. (batch, fields.new)) result (batch_field_at fields.old) }
{
    let count = fields.u8().ok_or(EncodingError::Short)?;
    if count as usize > MOST_KEYS {
        return Err(EncodingError::Word);
    }
    changes(alloc, fields, count)
}
