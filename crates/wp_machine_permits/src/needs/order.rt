//! Versions in order, from a list in no order.
ghost use Rattle.std.specs.Prelude.{◌≡◌, [], ◌∷◌, map, IfOk};
ghost use Rattle.wp_model.specs.declared.version.Version.{Version};
ghost use Rattle.wp_model.specs.Versions.{AreInOrder};
ghost use Rattle.wp_model.specs.Covered.{IsCovered};
ghost use Rattle.wp_machine_permits.specs.VersionLists.{AreSame};

use std::alloc::{AllocError, Global};
use wp_merge::Merge;
use wp_model::{Version, Versions};

fn single(version: Version, alloc: Global) -> Result<Versions, AllocError>
    ensures { IfOk result (λ versions. versions ≡ version ∷ []) }
{
    let mut list = Vec::with_capacity(alloc, 1)?;
    list.push(version)?;
    Ok(Versions::of(list))
}

fn singles(list: &[Version], alloc: Global) -> Result<Vec<Versions>, AllocError>
    ensures { IfOk result (λ singles. singles.items ≡ map (λ (v : Version). v ∷ []) list.now) }
{
    let mut singles = Vec::with_capacity(alloc, list.len())?;
    for version in list {
        singles.push(single(version.copy(alloc)?, alloc)?)?;
    }
    Ok(singles)
}

fn listed(mut merge: Merge, alloc: Global) -> Result<Vec<Version>, AllocError>
    ensures { IfOk result (λ list. list.items ≡ merge) }
{
    let mut list = Vec::new(alloc);
    while let Some(version) = merge.next() {
        list.push(version)?;
    }
    Ok(list)
}

/// The same versions, in order.
pub(crate) fn in_order(list: &[Version], alloc: Global) -> Result<Versions, AllocError>
    ensures { IfOk result (λ versions. AreSame list.now versions) }
{
    let merge = Merge::of(alloc, singles(list, alloc)?)?;
    let versions = listed(merge, alloc)?;
    Ok(Versions::of(versions))
}
