ghost use Rattle.std.specs.Prelude.{◌≡◌, true, IfOk};
ghost use Rattle.std.specs.Option.{option_copied};
ghost use Rattle.wp_model.specs.Versions.{version_cmp};
ghost use Rattle.wp_model.specs.Word.{is_word};
ghost use Rattle.wp_table.specs.Borrowed.{seen};
ghost use Rattle.wp_table.specs.Table.{has_words, is_stored};

use std::alloc::{AllocError, Global};
use std::cmp::Ordering;
use wp_model::{Seq, Value, Version, Word, WordError};

/// A version in a table, borrowed from its bytes.
#[derive(Clone, Copy)]
pub struct VersionRef<'a> {
    /// The bytes of the key.
    pub key: &'a [u8],
    /// The number of the entry that wrote it.
    pub number: Seq,
    /// The bytes of the value, or `None` for a deletion.
    pub value: Option<&'a [u8]>,
}

/// A copy of the word that the bytes are.
fn copy_word<const MOST: usize>(alloc: Global, bytes: &[u8]) -> Result<Word<MOST>, AllocError>
    requires { is_word MOST bytes.now ≡ true }
    ensures { IfOk result (λ word. word ≡ bytes.now) }
{
    match Word::read(alloc, bytes) {
        Ok(word) => Ok(word),
        Err(WordError::Memory) => Err(AllocError),
        Err(WordError::BadWord) => unreachable!(),
    }
}

/// A copy of the value, or none.
fn copy_value(alloc: Global, value: Option<&[u8]>) -> Result<Option<Value>, AllocError>
    requires { is_stored (option_copied value) ≡ true }
    ensures { IfOk result (λ copy. copy ≡ option_copied value.entry) }
{
    match value {
        Some(value) => Ok(Some(copy_word(alloc, value)?)),
        None => Ok(None),
    }
}

impl<'a> VersionRef<'a> {
    /// The version, borrowed.
    pub fn of(version: &'a Version) -> VersionRef<'a>
        ensures { seen result ≡ version.entry.now }
    {
        VersionRef {
            key: version.key.bytes(),
            number: version.number,
            value: match &version.value {
                None => None,
                Some(value) => Some(value.bytes()),
            },
        }
    }

    /// How the two compare: by key, of one key the greater number first. Their values don't count.
    pub fn place_cmp(&self, other: &VersionRef<'_>) -> Ordering
        ensures { result ≡ version_cmp (seen self.now) (seen other.now) }
    {
        self.key.cmp(other.key).then(other.number.cmp(&self.number))
    }

    /// The same version in memory of its own.
    pub fn copy(&self, alloc: Global) -> Result<Version, AllocError>
        requires { has_words (seen self.now) ≡ true }
        ensures { IfOk result (λ version. version ≡ seen self.now) }
    {
        Ok(Version {
            key: copy_word(alloc, self.key)?,
            number: self.number,
            value: copy_value(alloc, self.value)?,
        })
    }
}
