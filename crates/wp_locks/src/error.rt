ghost use Rattle.std.specs.Prelude.{◌≡◌};
ghost use Rattle.wp_locks.specs.declared.error.LockError.TheVariants.{Memory};

use std::alloc::{AllocError, AllocFailed};
use wp_model::{Holder, Name};

/// Why a name or a key was not given.
#[derive(Drop)]
pub enum LockError {
    /// Out of memory.
    Memory,
    /// The name is live.
    Taken(Name),
    /// The name is not live.
    Unknown(Name),
    /// A client has the name.
    InUse(Name),
    /// The key is held, by this one.
    Busy(Holder),
}

/// What was handed in with a name that was not given: the client, and in `why` the name.
#[derive(Drop)]
pub struct TakeRefused {
    pub client: Name,
    pub why: LockError,
}

impl From<AllocError> for LockError {
    ghost from_gives = { λ _ e. e ≡ Memory };

    fn from(_e: AllocError) -> LockError {
        LockError::Memory
    }
}

impl<T: Drop> From<AllocFailed<T>> for LockError {
    ghost from_gives = { λ _ e. e ≡ Memory };

    fn from(_e: AllocFailed<T>) -> LockError {
        LockError::Memory
    }
}
