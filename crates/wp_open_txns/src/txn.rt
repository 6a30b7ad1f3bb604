ghost use Rattle.std.specs.Prelude.{◌≡◌, ◌+◌, ◌≤◌, ◌<◌, true, false, length};
ghost use Rattle.std.specs.Option.{option_copied};
ghost use Rattle.wp_model.specs.declared.batch.TheConstants.{MOST_KEYS};
ghost use Rattle.wp_model.specs.Batch.{is_batch};
ghost use Rattle.wp_model.specs.History.{is_changed};
ghost use Rattle.wp_model.specs.LockState.{is_among_keys};
ghost use Rattle.wp_open_txns.specs.Calls.{IsFull};
ghost use Rattle.wp_open_txns.specs.Txn.{has_key};

use std::marker::Model;
use wp_model::{Batch, Key, MOST_KEYS, Name, Seq};
use wp_read::Snapshot;

/// An open transaction: its name, the changes that it has so far, the keys that it locked without a change, and its pin. It has to be
/// spent.
pub struct OpenTxn {
    pub name: Name,
    pub batch: Batch,
    /// Each once; with the batch's at most as many as a batch may have.
    pub locked: Vec<Key>,
    /// None of its keys was changed by others since.
    pub pin: Option<Snapshot>,
}

impl Model for OpenTxn {
    ghost use Rattle.wp_open_txns.specs.Txn.{OpenState};

    ghost Value = { OpenState };

    ghost view = { λ t. record { name = t.name; batch = t.batch; locked = t.locked.items; pin = t.pin } };
}

impl OpenTxn {
    /// Its name, which is live.
    pub fn name(&self) -> &Name
        ensures { result.now ≡ self.now.name }
    {
        &self.name
    }

    /// Its changes so far. Their keys are locked for it.
    pub fn batch(&self) -> &Batch
        ensures { result.now ≡ self.now.batch }
    {
        &self.batch
    }

    /// The keys that it locked without a change.
    pub fn locked(&self) -> &[Key]
        ensures { result.now ≡ self.now.locked }
    {
        &self.locked
    }

    /// The snapshot since which none of its keys was changed by others, at which its values may be read.
    pub fn pinned(&self) -> Option<&Snapshot>
        ensures { option_copied result ≡ self.now.pin }
    {
        self.pin.as_ref()
    }

    pub(crate) fn has_change(&self, key: &Key) -> bool
        ensures { result ≡ is_changed self.now.batch key.now }
    {
        self.batch.get(key).is_some()
    }

    pub(crate) fn has_locked(&self, key: &Key) -> bool
        ensures { result ≡ is_among_keys self.now.locked key.now }
    {
        self.locked.contains(key)
    }

    pub(crate) fn has_key(&self, key: &Key) -> bool
        ensures { result ≡ has_key self.now.batch self.now.locked key.now }
    {
        self.has_change(key) || self.has_locked(key)
    }

    /// Whether it has as many keys as a batch may have, and this is none of them.
    pub(crate) fn has_no_room(&self, key: &Key) -> bool
        requires { length self.now.batch + length self.now.locked ≤ MOST_KEYS }
        ensures full { result ≡ true → IsFull self.now key.now }
        ensures room { result ≡ false → has_key self.now.batch self.now.locked key.now ≡ false → length self.now.batch + length self.now.locked < MOST_KEYS }
        ensures batch { is_batch self.now.batch ≡ true }
    {
        let keys = self.batch.changes().len() + self.locked.len();
        keys >= MOST_KEYS && !self.has_key(key)
    }
}

/// A prepared transaction that is not decided: its name, the number of its prepare, its changes, and the keys that it locked without a
/// change. It has to be spent.
pub struct PreparedTxn {
    pub name: Name,
    pub number: Seq,
    pub batch: Batch,
    pub locked: Vec<Key>,
}

impl Model for PreparedTxn {
    ghost use Rattle.wp_open_txns.specs.Txn.{PreparedState};

    ghost Value = { PreparedState };

    ghost view = { λ t. record { name = t.name; number = t.number; batch = t.batch; locked = t.locked.items } };
}

impl PreparedTxn {
    /// Its name, which is live.
    pub fn name(&self) -> &Name
        ensures { result.now ≡ self.now.name }
    {
        &self.name
    }

    /// The number of its prepare.
    pub fn number(&self) -> Seq
        ensures { result ≡ self.now.number }
    {
        self.number
    }

    /// Its changes. Their keys are locked for it.
    pub fn batch(&self) -> &Batch
        ensures { result.now ≡ self.now.batch }
    {
        &self.batch
    }

    /// The keys that it locked without a change.
    pub fn locked(&self) -> &[Key]
        ensures { result.now ≡ self.now.locked }
    {
        &self.locked
    }
}
