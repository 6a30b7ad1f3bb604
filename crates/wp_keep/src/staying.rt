ghost use Rattle.std.specs.Prelude.{◌≡◌, ◌&&◌, not, Some, map, IfOk};
ghost use Rattle.std.specs.List.{list_any};
ghost use Rattle.wp_model.specs.Versions.{AreInOrder};
ghost use Rattle.wp_keep.specs.Keep.{is_needed, by_commits, stays};
ghost use Rattle.wp_model.specs.Decision.{is_by};

use crate::commits::Commits;
use crate::newer::{Newer, commit_above, note};
use std::alloc::{AllocError, Global};
use wp_model::{Seq, Version};

/// Whether a version that is committed by `commit` is the newest one at n, where `newer` is the least number by which a
/// newer one of its key is.
fn is_newest(commit: Seq, newer: Option<Seq>, n: Seq) -> bool
    ensures { result ≡ (is_by (Some commit) n && not (is_by newer n)) }
{
    if commit > n {
        return false;
    }
    match newer {
        Some(other) => n < other,
        None => true,
    }
}

/// Whether it is the newest one at one of the snapshots.
fn is_newest_at_any(commit: Seq, newer: Option<Seq>, snapshots: &[Seq]) -> bool
    ensures { result ≡ list_any (λ n. is_by (Some commit) n && not (is_by newer n)) snapshots.now }
{
    snapshots
        .iter()
        .any(|snapshot| is_newest(commit, newer, *snapshot))
}

fn is_needed(commit: Option<Seq>, newer: Option<Seq>, snapshots: &[Seq], floor: Seq) -> bool
    ensures { result ≡ is_needed (is_by commit) (is_by newer) snapshots.now floor }
{
    let Some(commit) = commit else {
        return true;
    };
    if floor < commit || is_newest(commit, newer, floor) {
        return true;
    }
    is_newest_at_any(commit, newer, snapshots)
}

/// Which of the versions are not committed at the floor, or are the newest of their key there or at a snapshot.
pub(crate) fn staying(
    alloc: Global,
    versions: &[Version],
    commits: &Commits,
    snapshots: &[Seq],
    floor: Seq,
) -> Result<Vec<bool>, AllocError>
    requires { AreInOrder versions.now }
    ensures { IfOk result (λ stay. stay.items ≡ map (stays (by_commits commits.now) versions.now snapshots.now floor) versions.now) }
{
    let mut stay = Vec::with_capacity(alloc, versions.len())?;
    let mut newer = None;
    for version in versions {
        let commit = commits.commit_of(version.number);
        let above = commit_above(&newer, &version.key);
        stay.push(is_needed(commit, above, snapshots, floor))?;
        newer = note(newer, &version.key, commit);
    }
    Ok(stay)
}
