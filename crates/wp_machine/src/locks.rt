ghost use Rattle.std.specs.Prelude.{◌≡◌, ◌↔◌, true, Some, None, not, filter, map, IfOk, OnOk};
ghost use Rattle.std.specs.Option.{option_copied};
ghost use Rattle.std.specs.FinSet as set;
ghost use Rattle.std.specs.FinMap as finite;
ghost use Rattle.wp_model.specs.Batch.{key_cmp};
ghost use Rattle.wp_model.specs.declared.holder.Holder.TheVariants.{Txn};
ghost use Rattle.wp_core.specs.Changes.{with_name, with_key, without_key, without_transaction, with_label, is_held_by, keys_of_holder};
ghost use Rattle.wp_history_laws.proofs.Opened.{names_of, keys_of};

use crate::left::{keys_left, names_left};
use crate::lists::add_first;
use crate::pairs::{newest_under, take_named};
use std::alloc::{AllocError, Global};
use std::marker::Model;
use wp_history::History;
use wp_model::{Holder, Key, Name, Seq};

/// The live names, each with the client that has it, if one does; the held keys; and the labels. Each is a list whose
/// newest pair comes first: of two pairs of one name the first counts.
pub struct LockState {
    pub names: Vec<(Name, Option<Name>)>,
    pub keys: Vec<(Key, Holder)>,
    pub labels: Vec<(Name, Seq)>,
}

impl Model for LockState {
    ghost use Rattle.std.specs.FinMap as map;
    ghost use Rattle.wp_model.specs.LockState.{LockState, lock_state_code};

    ghost Value = { LockState };

    ghost coded = { lock_state_code };

    ghost view = { λ t. record { names = map.from_entries t.names.items; keys = map.from_entries t.keys.items; labels = map.from_entries t.labels.items } };
}

pub(crate) fn copy_client(client: &Option<Name>, alloc: Global) -> Result<Option<Name>, AllocError>
    ensures { IfOk result (λ copy. copy ≡ client.now) }
{
    match client {
        Some(client) => Ok(Some(client.copy(alloc)?)),
        None => Ok(None),
    }
}

fn take_key(keys: &mut Vec<(Key, Holder)>, key: &Key)
    ensures { finite.from_entries {R = key_cmp} keys.new.items ≡ finite.remove (finite.from_entries keys.old.items) key.now }
{
    keys.retain(|pair| &pair.0 != key);
}

/// The keys among these that the holder holds by the state.
fn held_keys(
    pairs: &[(Key, Holder)],
    table: &LockState,
    holder: &Holder,
    alloc: Global,
) -> Result<Vec<Key>, AllocError>
    ensures { IfOk result (λ keys. keys.items ≡ filter (is_held_by table.now holder.now) (map (λ e. e.0) pairs.now)) }
{
    let mut keys = Vec::new(alloc);
    for pair in pairs {
        if table.is_held_by(holder, &pair.0) {
            keys.push(pair.0.copy(alloc)?)?;
        }
    }
    Ok(keys)
}

/// Those of these whose keys the holder does not hold by the state.
fn other_keys(
    pairs: &[(Key, Holder)],
    table: &LockState,
    holder: &Holder,
    alloc: Global,
) -> Result<Vec<(Key, Holder)>, AllocError>
    ensures { IfOk result (λ keys. keys.items ≡ filter (λ e. not (is_held_by table.now holder.now e.0)) pairs.now) }
{
    let mut keys = Vec::new(alloc);
    for pair in pairs {
        if !table.is_held_by(holder, &pair.0) {
            keys.push((pair.0.copy(alloc)?, pair.1.copy(alloc)?))?;
        }
    }
    Ok(keys)
}

impl LockState {
    /// What a live name has: the client that has it, if one does. None where the name is not live.
    #[tactic(auto, using(crate::proofs::Maps::under_is_got))]
    pub fn name(&self, name: &Name) -> Option<&Option<Name>>
        ensures { option_copied result ≡ finite.get self.now.names name.now }
    {
        newest_under(&self.names, name)
    }

    /// Whether the name is live, and no client has it.
    pub fn is_left(&self, name: &Name) -> bool
        ensures { (result ≡ true) ↔ (finite.get self.now.names name.now ≡ Some None) }
    {
        match self.name(name) {
            Some(client) => client.is_none(),
            None => false,
        }
    }

    #[tactic(auto, using(crate::proofs::Maps::under_is_got))]
    pub fn holder(&self, key: &Key) -> Option<&Holder>
        ensures { option_copied result ≡ finite.get self.now.keys key.now }
    {
        newest_under(&self.keys, key)
    }

    /// The number that was told last under the label.
    #[tactic(auto, using(crate::proofs::Maps::under_is_got))]
    pub fn told(&self, label: &Name) -> Option<Seq>
        ensures { result ≡ finite.get self.now.labels label.now }
    {
        newest_under(&self.labels, label).copied()
    }

    pub fn put_name(
        &mut self,
        name: &Name,
        client: Option<Name>,
        alloc: Global,
    ) -> Result<(), AllocError>
        ensures { OnOk result (self.new ≡ with_name self.old name.now client) }
    {
        let name = name.copy(alloc)?;
        add_first(&mut self.names, (name, client))
    }

    pub fn put_key(&mut self, key: &Key, holder: Holder, alloc: Global) -> Result<(), AllocError>
        ensures { OnOk result (self.new ≡ with_key self.old key.now holder) }
    {
        let key = key.copy(alloc)?;
        add_first(&mut self.keys, (key, holder))
    }

    pub fn put_label(&mut self, label: &Name, n: Seq, alloc: Global) -> Result<(), AllocError>
        ensures { OnOk result (self.new ≡ with_label self.old label.now n) }
    {
        let label = label.copy(alloc)?;
        add_first(&mut self.labels, (label, n))
    }

    pub fn take_key(&mut self, key: &Key)
        ensures { self.new ≡ without_key self.old key.now }
    {
        take_key(&mut self.keys, key);
    }

    pub fn is_held_by(&self, holder: &Holder, key: &Key) -> bool
        ensures { result ≡ is_held_by self.now holder.now key.now }
    {
        match self.holder(key) {
            Some(other) => holder.is_same(other),
            None => false,
        }
    }

    /// The keys that the holder holds, some perhaps twice.
    #[tactic(auto, using(crate::proofs::NameMaps::keys_filtered))]
    pub fn keys_of(&self, holder: &Holder, alloc: Global) -> Result<Vec<Key>, AllocError>
        ensures { IfOk result (λ keys. set.from_list keys.items ≡ keys_of_holder self.now holder.now) }
    {
        held_keys(&self.keys, self, holder, alloc)
    }

    /// The keys with their holders, but for those of this holder.
    fn keys_but(&self, holder: &Holder, alloc: Global) -> Result<Vec<(Key, Holder)>, AllocError>
        ensures { IfOk result (λ keys. finite.from_entries keys.items ≡ finite.retain_keys self.now.keys (λ key. not (is_held_by self.now holder.now key))) }
    {
        let keys = other_keys(&self.keys, self, holder, alloc)?;
        Ok(keys)
    }

    /// The name goes, with each key that is held for it.
    pub fn free_transaction(&mut self, name: &Name, alloc: Global) -> Result<(), AllocError>
        ensures { OnOk result (self.new ≡ without_transaction self.old name.now) }
    {
        take_named(&mut self.names, name);
        self.keys = self.keys_but(&Holder::Txn(name.copy(alloc)?), alloc)?;
        Ok(())
    }
}

impl LockState {
    /// The undecided prepares of a history that is opened have their names live and their keys held.
    pub fn left_by(history: &History, alloc: Global) -> Result<LockState, AllocError>
        ensures { IfOk result (λ t. t ≡ record { names = finite.from_entries (names_of history.now.entries); keys = finite.from_entries (keys_of history.now.entries); labels = finite.empty }) }
    {
        Ok(LockState {
            names: names_left(history, alloc)?,
            keys: keys_left(history, alloc)?,
            labels: Vec::new(alloc),
        })
    }
}

// Written out, so that no crate above proves anew how all that it holds is let go.
impl Drop for LockState {
    fn drop(self) {
        let Self {
            names: _names,
            keys: _keys,
            labels: _labels,
        } = self;
    }
}
