//! The words of a made script. Those of different clients differ.
ghost use Rattle.std.specs.Prelude.{◌≡◌, ◌<◌, true, IfOk};
ghost use Rattle.wp_model.specs.Word.{is_word};
ghost use Rattle.wp_make.specs.Generator.{client_word, key_word, txn_word, value_word};

use std::alloc::{AllocError, Global};
use wp_model::{Key, Name, Value, Word, WordError};

/// The word of bytes that are one.
fn word<const MOST: usize>(alloc: Global, bytes: &[u8]) -> Result<Word<MOST>, AllocError>
    requires { is_word MOST bytes.now ≡ true }
    ensures { IfOk result (λ word. word ≡ bytes.now) }
{
    match Word::read(alloc, bytes) {
        Ok(word) => Ok(word),
        Err(WordError::Memory) => Err(AllocError),
        Err(WordError::BadWord) => unreachable!(),
    }
}

pub(crate) fn client_name(alloc: Global, client: u32) -> Result<Name, AllocError>
    ensures { IfOk result (λ name. name ≡ client_word client) }
{
    let text = format!(in alloc; "c{client}")?;
    word(alloc, text.as_bytes())
}

pub(crate) fn txn_name(alloc: Global, client: u32, begins: u32) -> Result<Name, AllocError>
    ensures { IfOk result (λ name. name ≡ txn_word client begins) }
{
    let text = format!(in alloc; "c{client}t{begins}")?;
    word(alloc, text.as_bytes())
}

pub(crate) fn client_key(alloc: Global, client: u32, key: u64) -> Result<Key, AllocError>
    ensures { IfOk result (λ word. word ≡ key_word client key) }
{
    let text = format!(in alloc; "c{client}k{key}")?;
    word(alloc, text.as_bytes())
}

pub(crate) fn numbered_value(alloc: Global, value: u64) -> Result<Value, AllocError>
    ensures { IfOk result (λ word. word ≡ value_word value) }
{
    let text = format!(in alloc; "v{value}")?;
    word(alloc, text.as_bytes())
}
