//! Who has the names and the keys of prepares.
ghost use Rattle.std.specs.Prelude.{◌≡◌, ◌↔◌, ℕ, true, not, List, [], ◌∷◌, ◌++◌, None, Some, is_some, IfErr, IfOk};
ghost use Rattle.std.specs.BTreeMap.{get};
ghost use Rattle.std.specs.List.{list_any};
ghost use Rattle.wp_model.specs.declared.carried.Carried.{Carried};
ghost use Rattle.wp_model.specs.declared.entry.Entry.{Entry};
ghost use Rattle.wp_model.specs.Batch.{are_ascending, key_cmp, key_of};
ghost use Rattle.wp_model.specs.Legal.{IsOrderlyNext};
ghost use Rattle.wp_cuts.specs.Cut.{carried_of};
ghost use Rattle.wp_history.specs.Holders.{Holds, IsAmong, IsCollision, Marks, Takes, without};
ghost use Rattle.wp_history.specs.Outline.{cut_in};
ghost use Rattle.wp_history.specs.declared.holders.HoldersError.TheVariants.{Memory};

use crate::outline::Outline;
use std::alloc::{AllocError, Global};
use std::collections::BTreeMap;
use wp_model::{Batch, Carried, Change, Entry, Key, Name, Seq};

/// Under the name and under each key of prepares the number of the prepare that has it. No two of them have a name or a key together.
pub struct Holders {
    alloc: Global,
    names: BTreeMap<Name, Seq>,
    keys: BTreeMap<Key, Seq>,
}

/// Why prepares have no holders.
#[derive(Drop)]
pub enum HoldersError {
    /// Out of memory.
    Memory,
    /// The prepare with that number is the first that has a name or a key of one before it.
    Collision(Seq),
}

impl From<AllocError> for HoldersError {
    ghost from_gives = { λ _ e. e ≡ Memory };

    fn from(_e: AllocError) -> HoldersError {
        HoldersError::Memory
    }
}

/// Puts the number under the key of each of the changes, up to one that has a number already. It tells whether none had.
fn hold_keys(
    alloc: Global,
    keys: &mut BTreeMap<Key, Seq>,
    changes: &[Change],
    number: Seq,
) -> Result<bool, AllocError>
    requires { are_ascending changes.now ≡ true }
    ensures { IfOk result (λ free. (free ≡ not (list_any (λ change. is_some (get key_cmp keys.old (key_of change))) changes.now))
        × (free ≡ true → Marks (Some number) changes.now keys.old keys.new)) }
{
    for change in changes {
        let held = keys.insert(change.key().copy(alloc)?, number)?;
        if held.is_some() {
            return Ok(false);
        }
    }
    Ok(true)
}

/// Leaves nothing under the keys of the changes.
fn free_keys(keys: &mut BTreeMap<Key, Seq>, changes: &[Change])
    ensures { Marks None changes.now keys.old keys.new }
{
    for change in changes {
        keys.remove(change.key());
    }
}

impl Holders {
    /// Those of no prepares.
    pub fn new(alloc: Global) -> Holders
        ensures { Holds [] result }
    {
        Holders {
            alloc,
            names: BTreeMap::new(alloc),
            keys: BTreeMap::new(alloc),
        }
    }

    /// Those of these prepares. It takes the memory of their names and keys once more.
    pub fn of(alloc: Global, prepares: &[Carried]) -> Result<Holders, HoldersError>
        ensures ok { IfOk result (Holds prepares.now) }
        ensures err { IfErr result (IsCollision prepares.now) }
    {
        let mut holders = Holders::new(alloc);
        for x in prepares {
            let free = holders.take(x.number, &x.name, &x.batch)?;
            if !free {
                return Err(HoldersError::Collision(x.number));
            }
        }
        Ok(holders)
    }

    /// The number of the prepare that has the key.
    pub fn holder_of(&self, key: &Key) -> Option<Seq>
        ensures { result ≡ get key_cmp self.now.keys key.now }
    {
        self.keys.get(key).copied()
    }

    /// Whether one of the prepares has a key of the changes.
    fn have_a_key(&self, changes: &[Change]) -> bool
        ensures { result ≡ list_any (λ change. is_some (get key_cmp self.now.keys (key_of change))) changes.now }
    {
        changes
            .iter()
            .any(|change| self.keys.contains_key(change.key()))
    }

    /// One prepare more, if it has no name and no key of those before it. It tells whether that is so; else they hold nothing any more.
    fn take(&mut self, number: Seq, name: &Name, batch: &Batch) -> Result<bool, AllocError>
        ensures { IfOk result (λ free. (prepares : List Carried) → Holds prepares self.old
            → Takes prepares (record { number = number; name = name.now; batch = batch.now }) free self.new) }
    {
        let held = self.names.insert(name.copy(self.alloc)?, number)?;
        if held.is_some() {
            return Ok(false);
        }
        hold_keys(self.alloc, &mut self.keys, batch.changes(), number)
    }

    /// One prepare less, which has that name and that batch.
    fn remove(&mut self, name: &Name, batch: &Batch)
        ensures { (prepares : List Carried) (p : ℕ) → Holds prepares self.old → IsAmong prepares p name.now batch.now
            → Holds (without prepares p) self.new }
    {
        self.names.remove(name);
        free_keys(&mut self.keys, batch.changes());
    }
}

impl Outline {
    /// The holders of the prepares that were undecided at the base.
    pub fn carried_holders(&self, alloc: Global) -> Result<Holders, AllocError>
        ensures { IfOk result (Holds (cut_in self.now).carried) }
    {
        let _ = self.published();
        match Holders::of(alloc, self.carried()) {
            Ok(holders) => Ok(holders),
            Err(HoldersError::Memory) => Err(AllocError),
            // No two of them have a name or a key together.
            Err(HoldersError::Collision(_)) => unreachable!(),
        }
    }

    /// Whether the entry may follow those of the outline, but for what an undo restores. If it may, these holders of what is undecided
    /// are those behind it then; else they hold nothing any more.
    pub fn note(&self, holders: &mut Holders, entry: &Entry) -> Result<bool, AllocError>
        requires { Holds (carried_of self.now.entries) holders.old }
        ensures may { IfOk result (λ may. (may ≡ true) ↔ IsOrderlyNext self.now.entries entry.now) }
        ensures holds { IfOk result (λ may. may ≡ true → Holds (carried_of (self.now.entries ++ entry.now ∷ [])) holders.new) }
    {
        let _ = self.later();
        if !self.may_decide(entry) {
            return Ok(false);
        }
        match entry {
            Entry::Write(batch) => Ok(!holders.have_a_key(batch.changes())),
            Entry::Prepare(name, batch) => holders.take(self.published() + 1, name, batch),
            Entry::Commit(p) => {
                holders.remove(self.name_at(*p), self.batch_at(*p));
                Ok(true)
            }
            Entry::Close(p) => {
                holders.remove(self.name_at(*p), self.batch_at(*p));
                Ok(true)
            }
            Entry::Undo(_, _) => Ok(true),
        }
    }
}

// Written out, so that no crate above proves anew how all that it holds is let go.
impl Drop for Holders {
    fn drop(self) {
        let Self {
            alloc: _alloc,
            names: _names,
            keys: _keys,
        } = self;
    }
}
