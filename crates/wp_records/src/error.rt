ghost use Rattle.std.specs.Prelude.{◌≡◌};
ghost use Rattle.wp_records.specs.declared.error.WriteError.TheVariants.{Memory};

use std::alloc::AllocError;

/// Why a record was not put into the history.
#[derive(Clone, Copy)]
pub enum WriteError {
    /// Memory was wanting, before the record's log call.
    Memory,
    /// The log's device failed in the record's log call. No other will be made.
    LogFault,
}

impl From<AllocError> for WriteError {
    ghost from_gives = { λ _ e. e ≡ Memory };

    fn from(_e: AllocError) -> WriteError {
        WriteError::Memory
    }
}
