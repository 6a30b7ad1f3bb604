//! Refusals.
ghost use Rattle.std.specs.Prelude.{◌≡◌};
ghost use Rattle.wp_wal.specs.Errors.{wal_error_of};
ghost use Rattle.wp_wal.specs.declared.error.WalError.TheVariants.{Memory};

use std::alloc::AllocError;
use wp_entry::RecordError;
use wp_gatelog::LogError;
use wp_model::Seq;

/// Why a log could not be opened.
#[derive(Drop)]
pub enum WalError {
    /// Out of memory.
    Memory,
    /// The device failed.
    DiskFault,
    /// The head is cut, or has another magic or a version that is not read; or no log is there, where one is to be.
    BadHead,
    /// The record with this index, from 0 on, is cut; or none is, and it is the first that is no record at its number.
    BadRecord { index: u64, why: RecordError },
    /// The entry with this number is the first that may not come after those before it.
    Illegal { number: Seq },
}

impl From<AllocError> for WalError {
    ghost from_gives = { λ _ e. e ≡ Memory };

    fn from(_refused: AllocError) -> WalError {
        WalError::Memory
    }
}

impl From<LogError> for WalError {
    ghost from_gives = { λ refused e. e ≡ wal_error_of refused };

    fn from(refused: LogError) -> WalError {
        match refused {
            LogError::Memory => WalError::Memory,
            LogError::DiskFault => WalError::DiskFault,
            LogError::BadHead => WalError::BadHead,
            LogError::Cut { index, .. } => WalError::BadRecord {
                index,
                why: RecordError::Short,
            },
        }
    }
}
