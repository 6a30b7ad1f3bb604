ghost use Rattle.std.specs.Prelude.{◌≡◌};
ghost use Rattle.wp_maint.specs.declared.error.MaintError.TheVariants.{Memory};

use std::alloc::AllocError;
use wp_model::Seq;

/// Why a flush or a compaction made nothing.
#[derive(Clone, Copy)]
pub enum MaintError {
    /// No device was called.
    Memory,
    /// No version stands in memory, or there are fewer than two tables.
    Nothing,
    /// The manifest's device or the tables' failed. None of them will be called again.
    TableFault,
    /// One of them failed before. The last edit flushed the entries up to this number.
    TablesStopped(Seq),
}

impl From<AllocError> for MaintError {
    ghost from_gives = { λ _ e. e ≡ Memory };

    fn from(_e: AllocError) -> MaintError {
        MaintError::Memory
    }
}
