//! Refusals.

ghost use Rattle.std.specs.Prelude.{◌≡◌};
ghost use Rattle.wp_gatelog.specs.declared.error.LogError.TheVariants.{DiskFault, Memory};

use std::alloc::{AllocError, AllocFailed};
use wp_outside::Failed;

/// Why a log could not be opened.
#[derive(Clone, Copy)]
pub enum LogError {
    Memory,
    DiskFault,

    /// The head is cut, or has another magic or a version that is not read; or no log was made at a place above 0.
    BadHead,

    /// After an open gate the record with this index, from 0 on, or the gate after it is not there whole. The id is the
    /// one in the head.
    Cut { index: u64, id: u32 },
}

/// A refusal that hands the disk back.
#[derive(Drop)]
pub struct DiskRefused<D, E> {
    pub disk: D,
    pub why: E,
}

impl From<AllocError> for LogError {
    ghost from_gives = { λ _ e. e ≡ Memory };

    fn from(_refused: AllocError) -> LogError {
        LogError::Memory
    }
}

impl<T: Drop> From<AllocFailed<T>> for LogError {
    ghost from_gives = { λ _ e. e ≡ Memory };

    fn from(_refused: AllocFailed<T>) -> LogError {
        LogError::Memory
    }
}

impl From<Failed> for LogError {
    ghost from_gives = { λ _ e. e ≡ DiskFault };

    fn from(_failed: Failed) -> LogError {
        LogError::DiskFault
    }
}
