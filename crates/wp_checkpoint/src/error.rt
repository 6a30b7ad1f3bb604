//! Why a copy was refused.
ghost use Rattle.std.specs.Prelude.{◌≡◌};
ghost use Rattle.wp_checkpoint.specs.declared.error.CopyError.TheVariants as copy_error;

use std::alloc::AllocError;
use wp_outside::{Device, Disks};

/// Why a copy was not made.
#[derive(Clone, Copy)]
pub enum CopyError {
    /// Out of memory. The target is as it was, and empty: the copy may be tried again.
    Memory,
    /// That device of the target is not empty: the first one in the order log, manifest, tables. The target is as it was.
    CopyHeld(Device),
    /// That device of the target failed.
    CopyFault(Device),
}

impl From<AllocError> for CopyError {
    ghost from_gives = { λ _ e. e ≡ copy_error.Memory };

    fn from(_refused: AllocError) -> CopyError {
        CopyError::Memory
    }
}

/// A refusal that hands the target back.
#[derive(Drop)]
pub struct CopyRefused<E> {
    pub target: Disks<E>,
    pub why: CopyError,
}
