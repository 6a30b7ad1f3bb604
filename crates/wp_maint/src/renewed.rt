ghost use Rattle.std.specs.Prelude.{◌≡◌};
ghost use Rattle.wp_maint.specs.declared.renewed.RenewError.TheVariants.{Memory};

use std::alloc::AllocError;
use wp_model::Seq;

/// What a renewal made.
#[derive(Clone, Copy)]
pub struct Renewed {
    /// The published number: the log's base from now on.
    pub at: Seq,
    /// How many prepares were undecided there, which the log carries.
    pub carried: u64,
}

/// Why the log was not renewed. The refusals but `Memory` are in the order in which they are looked for; that one comes behind `Nothing`.
/// Up to `Nothing` no device was called.
#[derive(Clone, Copy)]
pub enum RenewError {
    /// No device was called. The store is as it was.
    Memory,
    /// A device of the tables failed before. The last edit flushed the entries up to this number.
    TablesStopped(Seq),
    /// The log was closed before, at this published number.
    Stopped(Seq),
    /// The log has this base already.
    Nothing,
    /// The manifest's device or the tables' failed. None of the three will be called again.
    TableFault,
    /// The log's device failed. It will not be called again; the tables and the manifest go on.
    LogFault,
}

impl From<AllocError> for RenewError {
    ghost from_gives = { λ _ e. e ≡ Memory };

    fn from(_e: AllocError) -> RenewError {
        RenewError::Memory
    }
}
