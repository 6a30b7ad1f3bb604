ghost use Rattle.std.specs.Prelude.{◌≡◌, ◌++◌, IfOk, OnOk};
ghost use Rattle.wp_merge.specs.Merge.{AreMerged};

use crate::sources::{merged, push_frozen};
use std::alloc::{AllocError, Global};
use std::collections::VecDeque;
use std::marker::Model;
use wp_memtable::FrozenPart;
use wp_model::Versions;

/// The frozen parts of a store, the newest first, as they were when they were shared: whatever the store takes out of them since, these
/// have still. The memory of a part is freed with its last holder.
#[derive(Drop)]
pub struct FrozenParts {
    alloc: Global,
    parts: VecDeque<FrozenPart>,
}

impl Model for FrozenParts {
    ghost use Rattle.std.specs.Prelude.{List};
    ghost use Rattle.wp_model.specs.declared.version.Version.{Version};

    ghost Value = { List (List Version) };

    ghost view = { λ f. f.parts.items };
}

/// Shares each part, and puts it at the end.
fn push_shares(
    shared: &mut VecDeque<FrozenPart>,
    parts: &VecDeque<FrozenPart>,
) -> Result<(), AllocError>
    ensures { OnOk result (shared.new.items ≡ shared.old.items ++ parts.now.items) }
{
    for part in parts {
        shared.push_back(part.share()?)?;
    }
    Ok(())
}

impl FrozenParts {
    pub(crate) fn of(alloc: Global, parts: &VecDeque<FrozenPart>) -> Result<FrozenParts, AllocError>
        ensures { IfOk result (λ shared. shared ≡ parts.now.items) }
    {
        let mut shared = VecDeque::with_capacity(alloc, parts.len())?;
        push_shares(&mut shared, parts)?;
        Ok(FrozenParts {
            alloc,
            parts: shared,
        })
    }

    /// A copy of all their versions, in order. Of two with one key and number it is the newer part's.
    pub fn merged(&self) -> Result<Versions, AllocError>
        ensures { IfOk result (λ all. AreMerged self.now all) }
    {
        let mut sources = Vec::new(self.alloc);
        push_frozen(&mut sources, &self.parts)?;
        merged(self.alloc, sources)
    }
}
