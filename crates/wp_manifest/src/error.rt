//! Refusals.

ghost use Rattle.std.specs.Prelude.{◌≡◌};
ghost use Rattle.wp_manifest.specs.declared.error.ManifestError.TheVariants as manifest;

use std::alloc::AllocError;

/// Why a manifest could not be opened.
#[derive(Clone, Copy)]
pub enum ManifestError {
    /// Out of memory.
    Memory,
    /// The device failed.
    DiskFault,
    /// The head is cut, or has another magic or another version.
    BadHead,
    /// The record with this index, from 0 on, is cut; or none is, and it is the first that is no edit.
    BadEdit { index: u64 },
}

impl From<AllocError> for ManifestError {
    ghost from_gives = { λ _ e. e ≡ manifest.Memory };

    fn from(_refused: AllocError) -> ManifestError {
        ManifestError::Memory
    }
}
