ghost use Rattle.std.specs.Prelude.{◌≡◌, [], ◌∷◌, ◌++◌, IfOk};
ghost use Rattle.wp_keep.specs.Keep.{is_committed, retained_of};

use crate::commits::Commits;
use crate::pair::Pair;
use crate::remaining::remaining;
use crate::staying::staying;
use std::alloc::{AllocError, Global};
use wp_model::{Seq, Versions};

/// The versions that stay once no reader without a snapshot goes below the floor. Each of them is moved, and none copied. `committed`
/// has the pair of each number that is committed, at least up to the floor. The base at which the log was opened and the one that it has
/// count as snapshots, since what an opening finds below them it finds in tables alone.
pub fn keep(
    alloc: Global,
    versions: Versions,
    committed: &[Pair],
    mut snapshots: Vec<Seq>,
    opened: Seq,
    installed: Seq,
    floor: Seq,
) -> Result<Versions, AllocError>
    ensures retained { IfOk result (λ retained. retained ≡ retained_of (is_committed committed.now) versions (snapshots.items ++ opened ∷ installed ∷ []) floor) }
{
    snapshots.push(opened)?;
    snapshots.push(installed)?;
    keep_at(alloc, versions, committed, &snapshots, floor)
}

fn keep_at(
    alloc: Global,
    versions: Versions,
    committed: &[Pair],
    snapshots: &[Seq],
    floor: Seq,
) -> Result<Versions, AllocError>
    ensures retained { IfOk result (λ retained. retained ≡ retained_of (is_committed committed.now) versions snapshots.now floor) }
{
    let commits = Commits::of(alloc, committed)?;
    let stay = staying(alloc, versions.as_slice(), &commits, snapshots, floor)?;
    let retained = remaining(alloc, versions.into_vec(), &stay, &commits, floor)?;
    Ok(Versions::of(retained))
}
