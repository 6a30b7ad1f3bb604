ghost use Rattle.std.specs.Prelude.{◌≡◌};
ghost use Rattle.wp_encoding.specs.Errors.{encoding_error};

use wp_model::WordError;

/// Why bytes could not be read: the first fault from the left.
#[derive(Clone, Copy)]
pub enum EncodingError {
    /// Out of memory.
    Memory,
    /// The bytes end before a field does.
    Short,
    /// A change begins with that byte, which is neither 00 nor 01.
    Kind(u8),
    /// A length, a count or a byte of a word is out of range, or a key is not above the one before it.
    Word,
}

impl From<WordError> for EncodingError {
    ghost from_gives = { λ e error. error ≡ encoding_error e };

    fn from(e: WordError) -> EncodingError {
        match e {
            WordError::Memory => EncodingError::Memory,
            WordError::BadWord => EncodingError::Word,
        }
    }
}
