//! Why a store was not opened, with the devices that are handed back.
use crate::bad::Bad;
use std::alloc::{AllocError, AllocFailed};
use wp_outside::{Device, Disks};

/// Why a store was not opened.
#[derive(Drop)]
pub enum OpenError {
    /// Out of memory.
    Memory,
    /// The device failed.
    OpenFault(Device),
    /// What was read is outside the formats.
    Contents(Bad),
}

impl From<AllocError> for OpenError {
    ghost use Rattle.std.specs.Prelude.{◌≡◌};
    ghost use Rattle.wp_refused.specs.declared.error.OpenError.TheVariants as open_error;

    ghost from_gives = { λ _ e. e ≡ open_error.Memory };

    fn from(_refused: AllocError) -> OpenError {
        OpenError::Memory
    }
}

impl<T: Drop> From<AllocFailed<T>> for OpenError {
    ghost use Rattle.std.specs.Prelude.{◌≡◌};
    ghost use Rattle.wp_refused.specs.declared.error.OpenError.TheVariants as open_error;

    ghost from_gives = { λ _ e. e ≡ open_error.Memory };

    fn from(_refused: AllocFailed<T>) -> OpenError {
        OpenError::Memory
    }
}

/// A refusal that hands the devices back.
#[derive(Drop)]
pub struct OpenRefused<D> {
    pub disks: Disks<D>,
    pub why: OpenError,
}
