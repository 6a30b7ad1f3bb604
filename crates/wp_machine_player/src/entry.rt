//! Entries, and what they are made of.
use crate::step::first_word;
use crate::trouble::{Tried, Trouble, number};
use std::alloc::Global;
use wp_model::{Batch, Change, Entry, Word};

/// The key, value or name that a word is.
pub(crate) fn word_of<const MOST: usize>(alloc: Global, word: &str) -> Tried<Word<MOST>> {
    match Word::read(alloc, word.as_bytes()) {
        Ok(word) => Ok(word),
        Err(_) => Err(Trouble::Unclear),
    }
}

/// Reads `KEY VALUE`: the batch that puts it.
pub(crate) fn batch_of(alloc: Global, words: &str) -> Tried<Batch> {
    let (key, value) = first_word(words);
    let key = word_of(alloc, key)?;
    let value = word_of(alloc, value)?;
    Ok(Batch::of(alloc, Change::Put(key, value))?)
}

/// Reads `write KEY VALUE`, `prepare NAME KEY VALUE` or `commit NUMBER`.
pub(crate) fn entry_of(alloc: Global, words: &str) -> Tried<Entry> {
    let (verb, rest) = first_word(words);
    match verb {
        "write" => Ok(Entry::Write(batch_of(alloc, rest)?)),
        "prepare" => {
            let (name, change) = first_word(rest);
            let batch = batch_of(alloc, change)?;
            Ok(Entry::Prepare(word_of(alloc, name)?, batch))
        }
        "commit" => Ok(Entry::Commit(number(rest)?)),
        _ => Err(Trouble::Unclear),
    }
}
