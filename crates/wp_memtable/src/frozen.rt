ghost use Rattle.std.specs.Prelude.{◌≡◌, ◌==◌, true, length, IfOk};
ghost use Rattle.std.specs.Arc.{arc_value};
ghost use Rattle.std.specs.List.{list_all};
ghost use Rattle.std.specs.Option.{option_map};
ghost use Rattle.wp_model.specs.Rows.{next_version};
ghost use Rattle.wp_model.specs.Versions.{AreInOrder};
ghost use Rattle.wp_model.specs.Word.{is_key};
ghost use Rattle.wp_memtable.specs.Borrowed.{held};
ghost use Rattle.wp_memtable.specs.Memtable.{above, below, numbered_of};

use crate::bounds::Bounds;
use crate::found::Found;
use crate::memtable::Memtable;
use crate::version::MemoryVersion;
use std::alloc::AllocError;
use std::marker::Model;
use std::sync::Arc;
use wp_model::{Key, Seq, Versions};

/// A part of memory that takes no more versions, which several hold at once. Each holder sees its versions between bounds of its
/// own: what one takes out, the others see still. So to take some out takes no memory, and a time that doesn't grow with the part.
pub struct FrozenPart {
    part: Arc<Memtable>,
    bounds: Bounds,
}

impl Model for FrozenPart {
    ghost use Rattle.std.specs.Prelude.{List};
    ghost use Rattle.std.specs.Arc.{arc_value};
    ghost use Rattle.wp_model.specs.declared.version.Version.{Version};
    ghost use Rattle.wp_memtable.specs.Bounds.{between};

    ghost Value = { List Version };

    ghost view = { λ f. between f.bounds (arc_value f.part) };
}

impl FrozenPart {
    /// All of this part.
    pub(crate) fn of(part: Arc<Memtable>) -> FrozenPart
        ensures { result ≡ arc_value part }
    {
        FrozenPart {
            part,
            bounds: Bounds::none(),
        }
    }

    /// The same versions, for another holder.
    pub fn share(&self) -> Result<FrozenPart, AllocError>
        ensures { IfOk result (λ shared. shared ≡ self.now) }
    {
        Ok(FrozenPart {
            part: Arc::clone(&self.part)?,
            bounds: self.bounds,
        })
    }

    /// The versions of the key, the newest first.
    pub fn versions(&self, key: &Key) -> Found<'_>
        ensures found { result ≡ numbered_of key.now self.now }
        ensures in_order { AreInOrder self.now }
    {
        self.part.versions_between(key, self.bounds)
    }

    /// The newest version of the least key that is above `key`, or, where `above` is false, not below it.
    pub fn next_version(&self, key: &Key, above: bool) -> Option<MemoryVersion<'_>>
        ensures found { option_map held result ≡ next_version above key.now self.now }
        ensures in_range { list_all (λ v. is_key v.key) self.now ≡ true }
        ensures in_order { AreInOrder self.now }
    {
        self.part.next_between(key, above, self.bounds)
    }

    /// A copy of all versions.
    pub fn all(&self) -> Result<Versions, AllocError>
        ensures all { IfOk result (λ versions. versions ≡ self.now) }
        ensures in_order { AreInOrder self.now }
    {
        self.part.all_between(self.bounds)
    }

    /// Takes out each version with a number up to `n`.
    pub fn remove_up_to(&mut self, n: Seq)
        ensures { self.new ≡ above n self.old }
    {
        self.bounds.raise(n);
    }

    /// Takes out each version with a number from `n` on.
    pub fn remove_from(&mut self, n: Seq)
        ensures { self.new ≡ below n self.old }
    {
        self.bounds.lower(n);
    }

    /// Whether no version is left. It looks at one version, where all or none are seen.
    pub fn is_empty(&self) -> bool
        ensures { result ≡ (length self.now == 0) }
    {
        !self.part.has_between(self.bounds)
    }
}

// Written out, so that no crate above proves anew how all that it holds is let go.
impl Drop for FrozenPart {
    fn drop(self) {
        let Self {
            part: _part,
            bounds: _bounds,
        } = self;
    }
}
