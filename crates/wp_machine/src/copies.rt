ghost use Rattle.std.specs.Prelude.{◌≡◌, IfOk};

use std::alloc::{AllocError, Global};
use wp_model::{Entry, Version};

pub(crate) fn copy_entries(entries: &[Entry], alloc: Global) -> Result<Vec<Entry>, AllocError>
    ensures { IfOk result (λ copy. copy.items ≡ entries.now) }
{
    let mut copy = Vec::with_capacity(alloc, entries.len())?;
    for entry in entries {
        copy.push(entry.copy(alloc)?)?;
    }
    Ok(copy)
}

pub fn copy_versions(versions: &[Version], alloc: Global) -> Result<Vec<Version>, AllocError>
    ensures { IfOk result (λ copy. copy.items ≡ versions.now) }
{
    let mut copy = Vec::with_capacity(alloc, versions.len())?;
    for version in versions {
        copy.push(version.copy(alloc)?)?;
    }
    Ok(copy)
}
