//! What the store has under a key, and which entry changed it last.
ghost use Rattle.std.specs.Prelude.{◌≡◌, ◌≤◌, [], length};
ghost use Rattle.std.specs.Option.{option_map, option_map_or, option_copied};
ghost use Rattle.wp_model.specs.Batch.{change_to};
ghost use Rattle.wp_model.specs.Changed.{conflict, IsUnchanged};
ghost use Rattle.wp_model.specs.History.{value_at, changes_of};
ghost use Rattle.wp_history.specs.History.{HasBaseValues};

use crate::outline::Outline;
use std::collections::BTreeMap;
use wp_model::{Batch, Entry, Key, Seq, Value};

impl Outline {
    /// The batch that an entry of the outline commits, if it commits one.
    pub(crate) fn batch_of<'a>(&'a self, entry: &'a Entry) -> Option<&'a Batch>
        ensures { option_map_or (λ batch. batch.now) result [] ≡ changes_of self.now.entries entry.now }
    {
        match entry {
            Entry::Write(batch) => Some(batch),
            Entry::Commit(p) => Some(self.prepare_at(*p)?.1),
            Entry::Prepare(_, _) | Entry::Undo(_, _) | Entry::Close(_) => None,
        }
    }

    /// What an entry of the outline makes of the key: nothing, or the value that it leaves there, or none.
    fn change_by<'a>(&'a self, entry: &'a Entry, key: &Key) -> Option<Option<&'a Value>>
        ensures { option_map option_copied result ≡ change_to (changes_of self.now.entries entry.now) key.now }
    {
        self.batch_of(entry)?.get(key)
    }

    /// What the first `n` entries leave under the key, from the base on, where the map has what those up to the base leave.
    pub(crate) fn value_at<'a>(
        &'a self,
        store: &'a BTreeMap<Key, Value>,
        key: &Key,
        n: Seq,
    ) -> Option<&'a Value>
        requires store { HasBaseValues self.now store.now }
        requires from { self.now.base ≤ n }
        requires within { n ≤ length self.now.entries }
        ensures { option_copied result ≡ value_at self.now.entries key.now n }
    {
        let later = self.later();
        let mut i = (n - self.base()) as usize;
        while i > 0 {
            i -= 1;
            if let Some(value) = self.change_by(&later[i], key) {
                return value;
            }
        }
        store.get(key)
    }

    /// The greatest number above n of an entry that changes the key, if there is one, where none above `to` does.
    pub(crate) fn changed_after(&self, key: &Key, n: Seq, to: Seq) -> Option<Seq>
        requires from { self.now.base ≤ n }
        requires above { self.now.base ≤ to }
        requires within { to ≤ length self.now.entries }
        requires unchanged { IsUnchanged self.now.entries key.now to }
        ensures { result ≡ conflict self.now.entries key.now n }
    {
        let later = self.later();
        let mut i = (to - self.base()) as usize;
        while self.base() + i as Seq > n {
            i -= 1;
            if let Some(_) = self.change_by(&later[i], key) {
                return Some(self.base() + i as Seq + 1);
            }
        }
        None
    }
}
