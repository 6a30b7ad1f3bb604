//! The live snapshots.
ghost use Rattle.std.specs.Prelude.{◌≡◌, ℕ, map, IfOk, is_some};
ghost use Rattle.std.specs.FinMap as finite;
ghost use Rattle.wp_model.specs.Snapshots as snaps;
ghost use Rattle.wp_model.specs.Covered.{is_among};

use std::alloc::{AllocError, Global};
use wp_machine::{LiveSnapshot, Snapshots};
use wp_model::Seq;

fn numbers_of(pairs: &[(Seq, LiveSnapshot)], alloc: Global) -> Result<Vec<Seq>, AllocError>
    ensures { IfOk result (λ numbers. numbers.items ≡ map (λ (pair : ℕ × snaps.LiveSnapshot). pair.0) pairs.now) }
{
    let mut numbers = Vec::with_capacity(alloc, pairs.len())?;
    for pair in pairs {
        numbers.push(pair.0)?;
    }
    Ok(numbers)
}

/// The live numbers, some perhaps twice.
pub(crate) fn numbers(snapshots: &Snapshots, alloc: Global) -> Result<Vec<Seq>, AllocError>
    ensures { IfOk result (λ numbers. (n : ℕ) → is_among numbers.items n ≡ is_some (finite.get snapshots.now n)) }
{
    let numbers = numbers_of(&snapshots.live, alloc)?;
    Ok(numbers)
}
