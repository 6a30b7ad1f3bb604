//! The rows of a range of keys.
ghost use Rattle.std.specs.Prelude.{◌≡◌, [], ◌∷◌, ◌++◌, OnOk, OnErr};

use std::alloc::{AllocError, Global};
use std::marker::Model;
use wp_model::{Key, Value};

/// Keys with their values, in the order of the keys.
pub struct Pairs {
    items: Vec<(Key, Value)>,
}

impl Model for Pairs {
    ghost use Rattle.std.specs.Prelude.{List};
    ghost use Rattle.wp_model.specs.Rows.{Pair};

    ghost Value = { List Pair };

    ghost view = { λ p. p.items.items };
}

impl Pairs {
    /// None.
    pub fn none(alloc: Global) -> Pairs
        ensures { result ≡ [] }
    {
        Pairs {
            items: Vec::new(alloc),
        }
    }

    /// Adds a key with its value behind the others.
    pub fn push(&mut self, key: Key, value: Value) -> Result<(), AllocError>
        ensures ok { OnOk result (self.new ≡ self.old ++ (key, value) ∷ []) }
        ensures err { OnErr result (self.new ≡ self.old) }
    {
        self.items.push((key, value))?;
        Ok(())
    }

    pub fn as_slice(&self) -> &[(Key, Value)]
        ensures { result.now ≡ self.now }
    {
        &self.items
    }
}

// Written out, so that no crate above proves anew how all that it holds is let go.
impl Drop for Pairs {
    fn drop(self) {
        let Self { items: _items } = self;
    }
}
