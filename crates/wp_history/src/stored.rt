//! What the store has at a history's end, key by key.
ghost use Rattle.std.specs.Prelude.{ℕ, List, [], unwrap_or, Option, IfOk, OnOk};
ghost use Rattle.std.specs.Option.{option_map_or};
ghost use Rattle.wp_model.specs.Batch.{change_to, key_of, value_of};
ghost use Rattle.wp_model.specs.History.{newest};
ghost use Rattle.wp_history.specs.History.{HasBaseValues, IsStore, Leaves};

use crate::outline::Outline;
use std::alloc::{AllocError, Global};
use std::collections::BTreeMap;
use wp_model::{Batch, Change, Key, Value};

/// Leaves under the change's key what it has, or nothing where it deletes that.
fn leave(alloc: Global, store: &mut BTreeMap<Key, Value>, change: &Change) -> Result<(), AllocError>
    ensures { OnOk result (Leaves (key_of change.now) (value_of change.now) store.old store.new) }
{
    match change {
        Change::Put(key, value) => {
            store.insert(key.copy(alloc)?, value.copy(alloc)?)?;
            Ok(())
        }
        Change::Del(key) => {
            store.remove(key);
            Ok(())
        }
    }
}

/// Makes the changes, the last one first.
fn leave_all(
    alloc: Global,
    store: &mut BTreeMap<Key, Value>,
    changes: &[Change],
) -> Result<(), AllocError>
    ensures { OnOk result ((values : List ℕ → Option (List ℕ)) → IsStore values store.old
        → IsStore (λ key. unwrap_or (change_to changes.now key) (values key)) store.new) }
{
    let mut i = changes.len();
    while i > 0 {
        i -= 1;
        leave(alloc, store, &changes[i])?;
    }
    Ok(())
}

/// Makes the changes of a batch, if there is one.
fn leave_batch(
    alloc: Global,
    store: &mut BTreeMap<Key, Value>,
    batch: Option<&Batch>,
) -> Result<(), AllocError>
    ensures { OnOk result ((values : List ℕ → Option (List ℕ)) → IsStore values store.old
        → IsStore (λ key. unwrap_or (change_to (option_map_or (λ b. b.now) batch.entry []) key) (values key)) store.new) }
{
    match batch {
        Some(batch) => leave_all(alloc, store, batch.changes()),
        None => Ok(()),
    }
}

/// The same store once more.
fn copied(alloc: Global, store: &BTreeMap<Key, Value>) -> Result<BTreeMap<Key, Value>, AllocError>
    ensures { IfOk result (λ copy. (values : List ℕ → Option (List ℕ)) → IsStore values store.now → IsStore values copy) }
{
    let mut copy = BTreeMap::new(alloc);
    for (key, value) in store {
        copy.insert(key.copy(alloc)?, value.copy(alloc)?)?;
    }
    Ok(copy)
}

impl Outline {
    /// What the entries leave, where the map has what those up to the base leave.
    pub(crate) fn stored(
        &self,
        alloc: Global,
        base: &BTreeMap<Key, Value>,
    ) -> Result<BTreeMap<Key, Value>, AllocError>
        requires { HasBaseValues self.now base.now }
        ensures { IfOk result (IsStore (newest self.now.entries)) }
    {
        let mut store = copied(alloc, base)?;
        let later = self.later();
        for entry in later {
            leave_batch(alloc, &mut store, self.batch_of(entry))?;
        }
        Ok(store)
    }
}
