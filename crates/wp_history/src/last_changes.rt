//! Which entries changed keys last, above a number.
ghost use Rattle.std.specs.Prelude.{◌≡◌, ◌⊎◌, List, ℕ, [], None, Some, IfOk, IfSome, OnOk};
ghost use Rattle.std.specs.BTreeMap.{get};
ghost use Rattle.std.specs.Option.{option_map_or};
ghost use Rattle.wp_model.specs.Batch.{key_cmp};
ghost use Rattle.wp_history.specs.declared.last_changes.LastChanges.{LastChanges};
ghost use Rattle.wp_history.specs.History.{IsStore, Leaves};
ghost use Rattle.wp_history.specs.Holders.{Marks};

use std::alloc::{AllocError, Global};
use std::collections::BTreeMap;
use wp_model::{Batch, Change, Key, Seq};

/// Under each key that an entry above a number changes, the number of the last that does.
#[derive(Drop)]
pub struct LastChanges {
    alloc: Global,
    from: Seq,
    last: BTreeMap<Key, Seq>,
}

/// Puts the number under the key. A key that has one already takes no memory.
fn put_one(
    alloc: Global,
    last: &mut BTreeMap<Key, Seq>,
    key: &Key,
    number: Seq,
) -> Result<(), AllocError>
    ensures { OnOk result (Leaves key.now (Some number) last.old last.new) }
{
    if let Some(place) = last.get_mut(key) {
        *place = number;
        return Ok(());
    }
    last.insert(key.copy(alloc)?, number)?;
    Ok(())
}

/// Puts the number under the key of each of the changes.
fn put_under(
    alloc: Global,
    last: &mut BTreeMap<Key, Seq>,
    changes: &[Change],
    number: Seq,
) -> Result<(), AllocError>
    ensures { IfOk result (λ done. Marks (Some number) changes.now last.old last.new) }
{
    for change in changes {
        put_one(alloc, last, change.key(), number)?;
    }
    Ok(())
}

impl LastChanges {
    /// The number above which they are.
    pub(crate) fn from(&self) -> Seq
        ensures { result ≡ self.now.from }
    {
        self.from
    }

    /// The number of the last entry above that which changes the key, if there is one.
    pub(crate) fn of(&self, key: &Key) -> Option<Seq>
        ensures { result ≡ get key_cmp self.now.last key.now }
    {
        self.last.get(key).copied()
    }
}

/// These, or where there are none yet those above the number of the last entry.
pub(crate) fn begun(alloc: Global, changes: Option<LastChanges>, end: Seq) -> LastChanges
    ensures { (changes ≡ Some result) ⊎ ((result.from ≡ end) × IsStore (λ key. None) result.last) }
{
    match changes {
        Some(changes) => changes,
        None => LastChanges {
            alloc,
            from: end,
            last: BTreeMap::new(alloc),
        },
    }
}

/// Those with one more entry, which has that number and commits this batch, if one is given. None where there were none, or where memory
/// is wanting for its keys.
pub(crate) fn behind(
    changes: Option<LastChanges>,
    batch: Option<&Batch>,
    number: Seq,
) -> Option<LastChanges>
    ensures { IfSome result (λ behind. (before : LastChanges) × (changes ≡ Some before) × (behind.from ≡ before.from)
        × Marks (Some number) (option_map_or (λ b. b.now) batch.entry []) before.last behind.last) }
{
    let mut changes = changes?;
    if let Some(batch) = batch {
        if put_under(changes.alloc, &mut changes.last, batch.changes(), number).is_err() {
            return None;
        }
    }
    Some(changes)
}
