ghost use Rattle.std.specs.Prelude.{◌≡◌, IfOk};
ghost use Rattle.std.specs.Option.{option_copied};
ghost use Rattle.wp_model.specs.Versions.{version_cmp};

use crate::{Key, Seq, Value};
use std::alloc::{AllocError, Global};
use std::cmp::Ordering;

/// What an entry left under a key.
#[derive(Drop)]
pub struct Version {
    pub key: Key,
    /// The number of the entry.
    pub number: Seq,
    /// The value, or `None` where the entry deleted the key.
    pub value: Option<Value>,
}

/// The value, or none, once more.
pub fn copy_value(value: Option<&Value>, alloc: Global) -> Result<Option<Value>, AllocError>
    ensures { IfOk result (λ copy. copy ≡ option_copied value.entry) }
{
    match value {
        Some(value) => Ok(Some(value.copy(alloc)?)),
        None => Ok(None),
    }
}

impl Version {
    /// How the two compare: by key, of one key the greater number first. Their values don't count.
    pub fn place_cmp(&self, other: &Version) -> Ordering
        ensures { result ≡ version_cmp self.now other.now }
    {
        self.key
            .cmp(&other.key)
            .then(other.number.cmp(&self.number))
    }

    /// The same version once more.
    pub fn copy(&self, alloc: Global) -> Result<Version, AllocError>
        ensures { IfOk result (λ version. version ≡ self.now) }
    {
        Ok(Version {
            key: self.key.copy(alloc)?,
            number: self.number,
            value: copy_value(self.value.as_ref(), alloc)?,
        })
    }
}
