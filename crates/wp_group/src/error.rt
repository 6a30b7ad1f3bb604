ghost use Rattle.std.specs.Prelude.{◌≡◌};
ghost use Rattle.wp_group.specs.declared.error.GroupError.TheVariants.{Memory};

use std::alloc::AllocError;
use wp_model::Seq;

/// Why numbers are no group.
#[derive(Debug, Drop, thiserror::Error)]
pub enum GroupError {
    #[error("out of memory")]
    Memory,
    /// The two have one place in the commit cache; no number before `second` shares the place of an earlier one.
    #[error("crowded {first} {second}")]
    Crowded { first: Seq, second: Seq },
}

impl From<AllocError> for GroupError {
    ghost from_gives = { λ _ e. e ≡ Memory };

    fn from(_e: AllocError) -> GroupError {
        GroupError::Memory
    }
}
