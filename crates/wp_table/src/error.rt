ghost use Rattle.std.specs.Prelude.{◌≡◌};
ghost use Rattle.wp_table.specs.Errors.{table_error};
ghost use Rattle.wp_table.specs.declared.error.TableError.TheVariants.{Memory};

use std::alloc::{AllocError, AllocFailed};
use wp_encoding::EncodingError;

/// Why bytes could not be read as a table: the first fault from the left.
#[derive(Debug, Drop, thiserror::Error)]
pub enum TableError {
    #[error("out of memory")]
    Memory,
    /// The bytes end before a field does.
    #[error("short")]
    Short,
    /// The magic or the number of the format is another.
    #[error("head")]
    Head,
    /// The table is of the store with this id.
    #[error("stranger {0}")]
    Stranger(u32),
    /// There are no versions, the blocks are not as many as these take, or a block's count is not as it has to be.
    #[error("count")]
    Count,
    /// A key or a value is out of range, or the byte after a number is neither 00 nor 01.
    #[error("word")]
    Word,
    /// A number is 0, or above the flushed one.
    #[error("number")]
    Number,
    /// A version is not after the one before it.
    #[error("order")]
    Order,
    /// A place is not where a block begins, or the last one not where the index begins.
    #[error("index")]
    Index,
    /// Bytes follow the table.
    #[error("extra")]
    Extra,
}

impl From<AllocError> for TableError {
    ghost from_gives = { λ _ e. e ≡ Memory };

    fn from(_e: AllocError) -> TableError {
        TableError::Memory
    }
}

impl<T: Drop> From<AllocFailed<T>> for TableError {
    ghost from_gives = { λ _ e. e ≡ Memory };

    fn from(_e: AllocFailed<T>) -> TableError {
        TableError::Memory
    }
}

impl From<EncodingError> for TableError {
    ghost from_gives = { λ e error. error ≡ table_error e };

    fn from(e: EncodingError) -> TableError {
        match e {
            EncodingError::Memory => TableError::Memory,
            EncodingError::Short => TableError::Short,
            EncodingError::Kind(_) | EncodingError::Word => TableError::Word,
        }
    }
}
