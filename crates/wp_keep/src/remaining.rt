ghost use Rattle.std.specs.Prelude.{◌≡◌, ◌≤◌, ◌||◌, ◌&&◌, not, ◌++◌, ◌∷◌, [], length, IfOk, OnOk, reverse, if◌then◌else◌};
ghost use Rattle.wp_model.specs.Versions.{AreInOrder};
ghost use Rattle.wp_keep.specs.Chosen.{chosen};
ghost use Rattle.wp_keep.specs.Keep.{by_commits, is_fixed_deletion, remaining};
ghost use Rattle.wp_keep.specs.Newer.{starts_with_key};

use crate::commits::Commits;
use std::alloc::{AllocError, Global};
use wp_model::{Key, Seq, Version};

fn is_fixed_deletion(version: &Version, commits: &Commits, floor: Seq) -> bool
    ensures { result ≡ is_fixed_deletion (by_commits commits.now) floor version.now }
{
    if version.value.is_some() {
        return false;
    }
    match commits.commit_of(version.number) {
        Some(commit) => commit <= floor,
        None => false,
    }
}

/// Whether the last of the versions is of the key.
fn ends_with_key(versions: &[Version], key: &Key) -> bool
    ensures { result ≡ starts_with_key (reverse versions.now) key.now }
{
    match versions.last() {
        Some(last) => last.key == *key,
        None => false,
    }
}

/// Puts a version, if it stays, after those that remain, the last of which is next to it, where it remains too.
fn push_lasting(
    retained: &mut Vec<Version>,
    version: Version,
    stays: bool,
    commits: &Commits,
    floor: Seq,
) -> Result<(), AllocError>
    ensures { OnOk result (retained.new.items ≡ (if stays && (not (is_fixed_deletion (by_commits commits.now) floor version) || starts_with_key (reverse retained.old.items) version.key) then retained.old.items ++ version ∷ [] else retained.old.items)) }
{
    if !stays {
        return Ok(());
    }
    if is_fixed_deletion(&version, commits, floor) && !ends_with_key(retained, &version.key) {
        return Ok(());
    }
    retained.push(version)?;
    Ok(())
}

/// Of the versions that stay leaves out the deletions that are committed at the floor and have nothing else of their key after them.
/// Each version is moved.
pub(crate) fn remaining(
    alloc: Global,
    mut versions: Vec<Version>,
    stay: &[bool],
    commits: &Commits,
    floor: Seq,
) -> Result<Vec<Version>, AllocError>
    requires each { length versions.items ≤ length stay.now }
    requires in_order { AreInOrder (chosen versions.items stay.now) }
    ensures { IfOk result (λ retained. retained.items ≡ remaining (by_commits commits.now) (chosen versions.items stay.now) floor) }
{
    let mut retained = Vec::new(alloc);
    while let Some(version) = versions.pop() {
        let last = versions.len();
        push_lasting(&mut retained, version, stay[last], commits, floor)?;
    }
    retained.reverse();
    Ok(retained)
}
