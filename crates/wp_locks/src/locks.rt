ghost use Rattle.std.specs.Prelude.{◌≡◌, map, IfOk, OnOk, OnErr};
ghost use Rattle.std.specs.FinMap as finite;
ghost use Rattle.std.specs.FinMap.{from_entries};
ghost use Rattle.wp_model.specs.Batch.{key_cmp, key_of};
ghost use Rattle.wp_locks.specs.Locks.{AreBeyond, Claims, TakesName, Locking, is_beyond, names_left, keys_without};
ghost use Rattle.wp_model.specs.LockState.{nothing_locked};
ghost use Rattle.wp_history_laws.specs.Opened.{AreOpened};

use crate::error::{LockError, TakeRefused};
use crate::left::{keys_of, names_of};
use std::alloc::{AllocError, Global};
use std::collections::BTreeMap;
use std::marker::Model;
use wp_history::History;
use wp_model::{Batch, Change, Holder, Key, Name, Seq};

/// The live names, the held keys and the board, which the holder of the locks turn changes.
pub struct Locks {
    alloc: Global,
    /// The live names, each with the client that has it, if one does.
    names: BTreeMap<Name, Option<Name>>,
    keys: BTreeMap<Key, Holder>,
    labels: BTreeMap<Name, Seq>,
}

impl Model for Locks {
    ghost use Rattle.wp_model.specs.LockState.{LockState, lock_state_code};
    ghost use Rattle.std.specs.FinMap as finite;

    ghost Value = { LockState };

    ghost coded = { lock_state_code };

    ghost view = { λ l. record { names = finite.from_entries l.names.entries; keys = finite.from_entries l.keys.entries; labels = finite.from_entries l.labels.entries } };
}

/// Frees the key of each of the changes.
fn free_keys(keys: &mut BTreeMap<Key, Holder>, changes: &[Change])
    ensures { from_entries {R = key_cmp} keys.new.entries ≡ keys_without (from_entries keys.old.entries) (map key_of changes.now) }
{
    for change in changes {
        keys.remove(change.key());
    }
}

/// Frees each of the keys.
fn free_each(keys: &mut BTreeMap<Key, Holder>, freed: &[Key])
    ensures { from_entries {R = key_cmp} keys.new.entries ≡ keys_without (from_entries keys.old.entries) freed.now }
{
    for key in freed {
        keys.remove(key);
    }
}

/// Whether the key, which this one holds, is held for the transaction of this name, and the batch does not change it.
fn is_beyond(key: &Key, holder: &Holder, name: &Name, batch: &Batch) -> bool
    ensures { result ≡ is_beyond name.now batch.now key.now holder.now }
{
    match holder {
        Holder::Txn(other) => other == name && batch.get(key).is_none(),
        Holder::Client(_) => false,
    }
}

impl Locks {
    pub fn new(alloc: Global) -> Locks
        ensures { result ≡ nothing_locked }
    {
        Locks {
            alloc,
            names: BTreeMap::new(alloc),
            keys: BTreeMap::new(alloc),
            labels: BTreeMap::new(alloc),
        }
    }

    /// The state at the opening of a store: the names of the prepares that the history leaves undecided are live
    /// and had by nobody, each of their keys is held by its transaction, and nothing is told.
    pub fn left_by(history: &History, alloc: Global) -> Result<Locks, AllocError>
        ensures { IfOk result (AreOpened history.now.entries) }
    {
        Ok(Locks {
            alloc,
            names: names_of(history, alloc)?,
            keys: keys_of(history, alloc)?,
            labels: BTreeMap::new(alloc),
        })
    }

    /// Makes a name live, for the client.
    pub fn claim_name(&mut self, name: Name, client: Name) -> Result<(), LockError>
        ensures { Claims self.old name client result self.new }
    {
        if self.names.contains_key(&name) {
            return Err(LockError::Taken(name));
        }
        self.names.insert(name, Some(client))?;
        Ok(())
    }

    /// Ends a name.
    pub fn free_name(&mut self, name: &Name)
        ensures { self.new ≡ record self.old { names = finite.remove self.old.names name.now } }
    {
        self.names.remove(name);
    }

    /// Takes a live name from its client. It stays live.
    pub fn leave_name(&mut self, name: &Name)
        ensures { self.new ≡ record self.old { names = names_left self.old.names name.now } }
    {
        if let Some(client) = self.names.get_mut(name) {
            *client = None;
        }
    }

    /// Gives a live name that no client has to the client.
    pub fn take_name(&mut self, name: Name, client: Name) -> Result<(), TakeRefused>
        ensures { TakesName self.old name client result self.new }
    {
        let Some(has) = self.names.get_mut(&name) else {
            return Err(TakeRefused {
                client,
                why: LockError::Unknown(name),
            });
        };
        if has.is_some() {
            return Err(TakeRefused {
                client,
                why: LockError::InUse(name),
            });
        }
        *has = Some(client);
        Ok(())
    }

    /// Gives the key to the holder. A transaction that holds it may lock it again.
    pub fn lock(&mut self, key: &Key, holder: Holder) -> Result<(), LockError>
        ensures { Locking self.old key.now holder result self.new }
    {
        if let Some(other) = self.keys.get(key) {
            if other.is_same_txn(&holder) {
                return Ok(());
            }
            return Err(LockError::Busy(other.copy(self.alloc)?));
        }
        self.keys.insert(key.copy(self.alloc)?, holder)?;
        Ok(())
    }

    /// Frees the key, whoever holds it.
    pub fn unlock(&mut self, key: &Key)
        ensures { self.new ≡ record self.old { keys = finite.remove self.old.keys key.now } }
    {
        self.keys.remove(key);
    }

    /// Frees the key of each of the changes, whoever holds it. Each takes a time that grows with the logarithm of the number of held
    /// keys.
    pub fn unlock_all(&mut self, changes: &[Change])
        ensures { self.new ≡ record self.old { keys = keys_without self.old.keys (map key_of changes.now) } }
    {
        free_keys(&mut self.keys, changes);
    }

    /// Frees each of the keys, whoever holds it, in the same time.
    pub fn unlock_keys(&mut self, keys: &[Key])
        ensures { self.new ≡ record self.old { keys = keys_without self.old.keys keys.now } }
    {
        free_each(&mut self.keys, keys);
    }

    /// The keys that are held for the transaction of this name and that the batch does not change, ascending. It passes over all held
    /// keys.
    pub fn keys_of(&self, name: &Name, batch: &Batch) -> Result<Vec<Key>, AllocError>
        ensures { IfOk result (λ keys. AreBeyond self.now name.now batch.now keys.items) }
    {
        let mut keys = Vec::new(self.alloc);
        for (key, holder) in &self.keys {
            if is_beyond(key, holder, name, batch) {
                keys.push(key.copy(self.alloc)?)?;
            }
        }
        Ok(keys)
    }

    /// Puts the number under the label, in place of an earlier one.
    pub fn tell(&mut self, label: Name, at: Seq) -> Result<(), AllocError>
        ensures ok { OnOk result (self.new ≡ record self.old { labels = finite.insert self.old.labels label at }) }
        ensures err { OnErr result (self.new ≡ self.old) }
    {
        self.labels.insert(label, at)?;
        Ok(())
    }

    /// The number that was told last under the label.
    pub fn told(&self, label: &Name) -> Option<Seq>
        ensures { result ≡ finite.get self.now.labels label.now }
    {
        self.labels.get(label).copied()
    }
}

// Written out, so that no crate above proves anew how all that it holds is let go.
impl Drop for Locks {
    fn drop(self) {
        let Self {
            alloc: _alloc,
            names: _names,
            keys: _keys,
            labels: _labels,
        } = self;
    }
}
