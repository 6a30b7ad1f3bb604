ghost use Rattle.std.specs.Prelude.{◌≡◌, ◌==◌, ◌↔◌, true, false, IfOk, IsErrOf, refl};
ghost use Rattle.std.specs.List.{list_all};
ghost use Rattle.std.specs.Ordering.{nat_cmp, as_partial_cmp};
ghost use Rattle.std.specs.Cmp.{partial_order_from_own_ties};
ghost use Rattle.std.specs.Cmp.Lexicographic.{slice_cmp, pointwise};
ghost use Rattle.std.specs.Cmp.Rules.{comparing};
ghost use Rattle.std.proofs.Common.{rules};
ghost use Rattle.wp_model.specs.Word.{is_word, is_word_byte};
ghost use Rattle.wp_model.specs.declared.word.WordError.TheVariants.{Memory};

use crate::word_bytes::WordBytes;
use std::alloc::{AllocError, Global};
use std::cmp::Ordering;
use std::fmt;
use std::marker::Model;

/// Why bytes could not be read as a word.
#[derive(Clone, Copy)]
pub enum WordError {
    /// Out of memory.
    Memory,
    /// There are none or too many, or one of them is outside `!` to `~`.
    BadWord,
}

impl From<AllocError> for WordError {
    ghost from_gives = { λ _ e. e ≡ Memory };

    fn from(_e: AllocError) -> WordError {
        WordError::Memory
    }
}

/// 1 to `MOST` bytes, each printable ASCII other than the space: from `!` (0x21) to `~` (0x7E).
pub struct Word<const MOST: usize> {
    bytes: WordBytes,
}

/// How many bytes a key has at most.
pub const MOST_KEY_BYTES: usize = 64;

/// How many bytes a value has at most.
pub const MOST_VALUE_BYTES: usize = 256;

/// How many bytes a name has at most.
pub const MOST_NAME_BYTES: usize = 32;

/// A key.
pub type Key = Word<MOST_KEY_BYTES>;

/// A value.
pub type Value = Word<MOST_VALUE_BYTES>;

/// The name of a transaction, a client, a snapshot or a label.
pub type Name = Word<MOST_NAME_BYTES>;

impl<const MOST: usize> Model for Word<MOST> {
    ghost use Rattle.std.specs.Prelude.{◌≡◌, ℕ, List, true};
    ghost use Rattle.wp_model.specs.Word.{is_word};
    ghost use Rattle.wp_model.specs.WordBytes.{bytes_in, Fits};

    ghost Value = { List ℕ };

    ghost view = { λ w. bytes_in w.bytes };

    ghost invariant = { λ w. (is_word MOST (bytes_in w.bytes) ≡ true) × Fits w.bytes };
}

fn are_word_bytes(bytes: &[u8]) -> bool
    ensures { result ≡ list_all is_word_byte bytes.now }
{
    bytes.iter().all(|b| *b >= b'!' && *b <= b'~')
}

fn is_word_of(bytes: &[u8], most: usize) -> bool
    ensures { result ≡ is_word most bytes.now }
{
    if bytes.is_empty() {
        return false;
    }
    if bytes.len() > most {
        return false;
    }
    are_word_bytes(bytes)
}

impl<const MOST: usize> Word<MOST> {
    /// The word that the bytes are.
    pub fn read(alloc: Global, bytes: &[u8]) -> Result<Self, WordError>
        ensures word { IfOk result (λ word. word ≡ bytes.now) }
        ensures bad_word { IsErrOf result WordError.BadWord ↔ (is_word MOST bytes.now ≡ false) }
    {
        if !is_word_of(bytes, MOST) {
            return Err(WordError::BadWord);
        }
        Ok(Word {
            bytes: WordBytes::of(alloc, bytes)?,
        })
    }

    /// The bytes of the word.
    pub fn bytes(&self) -> &[u8]
        ensures value { result.now ≡ self.now }
        ensures in_range { is_word MOST self.now ≡ true }
    {
        self.bytes.as_slice()
    }

    /// The same word once more.
    pub fn copy(&self, alloc: Global) -> Result<Self, AllocError>
        ensures { IfOk result (λ word. word ≡ self.now) }
    {
        Ok(Word {
            bytes: WordBytes::of(alloc, self.bytes())?,
        })
    }
}

impl<const MOST: usize> PartialEq for Word<MOST> {
    ghost eq = { pointwise ◌==◌ };

    ghost laws = { Prim.search (comparing, rules) };

    fn eq(&self, other: &Word<MOST>) -> bool {
        self.bytes() == other.bytes()
    }
}

impl<const MOST: usize> Eq for Word<MOST> {
    ghost laws = { Prim.search (comparing, rules) };
}

impl<const MOST: usize> PartialOrd for Word<MOST> {
    ghost partial_cmp = { as_partial_cmp (slice_cmp nat_cmp) };

    ghost laws = { partial_order_from_own_ties (Prim.search (comparing, rules)) (Prim.search (comparing, rules)) };

    fn partial_cmp(&self, other: &Word<MOST>) -> Option<Ordering> {
        Some(self.cmp(other))
    }
}

/// The order of the first bytes that differ, or of the lengths. For a few bytes that is shorter than the order of slices or of iterators.
fn order(a: &[u8], b: &[u8]) -> Ordering
    ensures { result ≡ slice_cmp nat_cmp a.now b.now }
{
    let mut i = 0;
    while i < a.len() && i < b.len() {
        if a[i] != b[i] {
            return a[i].cmp(&b[i]);
        }
        i += 1;
    }
    a.len().cmp(&b.len())
}

/// Words are ordered byte by byte, a word before its extensions.
impl<const MOST: usize> Ord for Word<MOST> {
    ghost cmp = { slice_cmp nat_cmp };

    ghost total = { Prim.search (comparing, rules) };

    ghost matches_partial_cmp = { λ x y. refl };

    ghost matches_eq = { Prim.search (comparing, rules) };

    fn cmp(&self, other: &Word<MOST>) -> Ordering {
        order(self.bytes(), other.bytes())
    }
}

impl<const MOST: usize> fmt::Debug for Word<MOST> {
    fn fmt<W: fmt::Write>(&self, f: &mut fmt::Formatter<W>) -> fmt::Result {
        self.bytes().fmt(f)
    }
}

// Written out, so that no crate above proves anew how all that it holds is let go.
impl<const MOST: usize> Drop for Word<MOST> {
    fn drop(self) {
        let Self { bytes: _bytes } = self;
    }
}
