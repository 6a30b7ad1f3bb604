ghost use Rattle.std.specs.Prelude.{◌≡◌, IfOk};
ghost use Rattle.std.specs.Option.{option_copied};
ghost use Rattle.wp_model.specs.Batch.{key_of, value_of};

use crate::word::{Key, Value};
use std::alloc::{AllocError, Global};

/// What a transaction does to one key.
#[derive(Drop)]
pub enum Change {
    /// The key has the value from now on.
    Put(Key, Value),
    /// The key is missing from now on.
    Del(Key),
}

impl Change {
    /// The key that it changes.
    pub fn key(&self) -> &Key
        ensures { result.now ≡ key_of self.now }
    {
        match self {
            Change::Put(key, _) => key,
            Change::Del(key) => key,
        }
    }

    /// The value that it leaves under its key, or `None` for a deletion.
    pub fn value(&self) -> Option<&Value>
        ensures { option_copied result ≡ value_of self.now }
    {
        match self {
            Change::Put(_, value) => Some(value),
            Change::Del(_) => None,
        }
    }

    /// The same change once more.
    pub fn copy(&self, alloc: Global) -> Result<Change, AllocError>
        ensures { IfOk result (λ change. change ≡ self.now) }
    {
        match self {
            Change::Put(key, value) => Ok(Change::Put(key.copy(alloc)?, value.copy(alloc)?)),
            Change::Del(key) => Ok(Change::Del(key.copy(alloc)?)),
        }
    }
}
