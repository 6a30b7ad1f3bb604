ghost use Rattle.std.specs.Prelude.{◌≡◌};
ghost use Rattle.wp_entry.specs.Errors.{record_error};
ghost use Rattle.wp_entry.specs.declared.error.RecordError.TheVariants.{Memory};

use std::alloc::{AllocError, AllocFailed};
use wp_encoding::EncodingError;

/// Why bytes could not be read as a record: the first fault from the left.
#[derive(Debug, Drop, thiserror::Error)]
pub enum RecordError {
    #[error("out of memory")]
    Memory,
    /// The bytes end before a field does.
    #[error("short")]
    Short,
    /// The record's number is not the one that is due.
    #[error("number {found} {due}")]
    BadNumber { found: u64, due: u64 },
    /// No record is of that kind, or a change begins with that byte, which is neither 00 nor 01.
    #[error("kind {0}")]
    BadKind(u8),
    /// A length, a count or a byte of a word is out of range, a key is not above the one before it, a number is none
    /// of an earlier entry, or is past the last that an entry may have, or there is no number for the entry after an
    /// Undo or for the last of a group.
    #[error("word")]
    BadWord,
    /// So many bytes follow the record.
    #[error("extra {0}")]
    Extra(usize),
}

impl From<AllocError> for RecordError {
    ghost from_gives = { λ _ e. e ≡ Memory };

    fn from(_e: AllocError) -> RecordError {
        RecordError::Memory
    }
}

impl<T: Drop> From<AllocFailed<T>> for RecordError {
    ghost from_gives = { λ _ e. e ≡ Memory };

    fn from(_e: AllocFailed<T>) -> RecordError {
        RecordError::Memory
    }
}

impl From<EncodingError> for RecordError {
    ghost from_gives = { λ e error. error ≡ record_error e };

    fn from(e: EncodingError) -> RecordError {
        match e {
            EncodingError::Memory => RecordError::Memory,
            EncodingError::Short => RecordError::Short,
            EncodingError::Kind(byte) => RecordError::BadKind(byte),
            EncodingError::Word => RecordError::BadWord,
        }
    }
}
