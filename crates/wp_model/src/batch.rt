ghost use Rattle.std.specs.Prelude.{◌≡◌, ◌↔◌, true, [], ◌∷◌, length, IfOk, OnOk, OnErr, IsErrOf};
ghost use Rattle.std.specs.Option.{option_map, option_copied};
ghost use Rattle.wp_model.specs.declared.batch.SetError.TheVariants.{Memory};
ghost use Rattle.wp_model.specs.Batch.{key_of, change_to, with_change, are_ascending, is_batch};
ghost use Rattle.wp_model.specs.Place.{IsPlaceOf};

use crate::change::Change;
use crate::word::{Key, Value};
use std::alloc::{AllocError, AllocFailed, Global};
use std::cmp::Ordering;
use std::marker::Model;

/// How many keys one transaction may change.
pub const MOST_KEYS: usize = 64;

/// Why a change was not taken into a batch.
#[derive(Clone, Copy)]
pub enum SetError {
    /// Out of memory.
    Memory,
    /// 64 keys are changed already, and this one is none of them.
    TooMany,
}

impl From<AllocError> for SetError {
    ghost from_gives = { λ _ e. e ≡ Memory };

    fn from(_e: AllocError) -> SetError {
        SetError::Memory
    }
}

impl<T: Drop> From<AllocFailed<T>> for SetError {
    ghost from_gives = { λ _ e. e ≡ Memory };

    fn from(_e: AllocFailed<T>) -> SetError {
        SetError::Memory
    }
}

/// The changes of one transaction: at most 64, one for each key, in the order of the keys.
pub struct Batch {
    changes: Vec<Change>,
}

impl Model for Batch {
    ghost use Rattle.std.specs.Prelude.{◌≡◌, List, true};
    ghost use Rattle.wp_model.specs.declared.change.Change.{Change};
    ghost use Rattle.wp_model.specs.Batch.{is_batch};

    ghost Value = { List Change };

    ghost view = { λ b. b.changes.items };

    ghost invariant = { λ b. is_batch b.changes.items ≡ true };
}

/// Where a key's change is among changes whose keys ascend, or would be.
enum Place {
    /// Its change is there.
    At(usize),
    /// It has none, and it would be right before that place.
    Before(usize),
}

fn place_of(changes: &[Change], key: &Key) -> Place
    requires { are_ascending changes.now ≡ true }
    ensures { IsPlaceOf changes.now key.now result }
{
    for (i, change) in changes.iter().enumerate() {
        match key.cmp(change.key()) {
            Ordering::Less => return Place::Before(i),
            Ordering::Equal => return Place::At(i),
            Ordering::Greater => {}
        }
    }
    Place::Before(changes.len())
}

/// Takes room for one change more. The first one gets just that, since most batches have no other.
fn reserve_one(changes: &mut Vec<Change>) -> Result<(), AllocError>
    ensures { changes.new.items ≡ changes.old.items }
{
    if changes.is_empty() {
        return changes.reserve_exact(1);
    }
    changes.reserve(1)
}

impl Batch {
    /// A batch without changes.
    pub fn new(alloc: Global) -> Batch
        ensures { result ≡ [] }
    {
        Batch {
            changes: Vec::new(alloc),
        }
    }

    /// The batch of one change.
    pub fn of(alloc: Global, change: Change) -> Result<Batch, AllocError>
        ensures { IfOk result (λ batch. batch ≡ change ∷ []) }
    {
        let mut changes = Vec::with_capacity(alloc, 1)?;
        changes.push(change)?;
        Ok(Batch { changes })
    }

    /// Takes a change in, in place of an earlier one to its key: of a transaction's changes to a key the last
    /// counts.
    #[tactic(auto, using(crate::proofs::BatchLemmas::batch_changed, crate::proofs::BatchLemmas::batch_inserted))]
    pub fn set(&mut self, change: Change) -> Result<(), SetError>
        ensures ok { OnOk result (self.new ≡ with_change self.old change) }
        ensures batch { is_batch self.new ≡ true }
        ensures too_many { IsErrOf result SetError.TooMany
            ↔ ((length self.old ≡ MOST_KEYS) × (change_to self.old (key_of change) ≡ None)) }
        ensures err { OnErr result (self.new ≡ self.old) }
    {
        match place_of(&self.changes, change.key()) {
            Place::At(i) => {
                self.changes[i] = change;
                Ok(())
            }
            Place::Before(i) => {
                if self.changes.len() >= MOST_KEYS {
                    return Err(SetError::TooMany);
                }
                reserve_one(&mut self.changes)?;
                self.changes.insert(i, change)?;
                Ok(())
            }
        }
    }

    /// What the batch says of a key: `None` where it says nothing, else the value that it leaves there, or none for
    /// a deletion.
    pub fn get(&self, key: &Key) -> Option<Option<&Value>>
        ensures { option_map option_copied result ≡ change_to self.now key.now }
    {
        for change in &self.changes {
            if change.key() == key {
                return Some(change.value());
            }
        }
        None
    }

    /// The changes, in the order of their keys.
    pub fn changes(&self) -> &[Change]
        ensures value { result.now ≡ self.now }
        ensures batch { is_batch self.now ≡ true }
    {
        &self.changes
    }

    /// The same batch once more.
    pub fn copy(&self, alloc: Global) -> Result<Batch, AllocError>
        ensures { IfOk result (λ batch. batch ≡ self.now) }
    {
        let mut changes = Vec::with_capacity(alloc, self.changes.len())?;
        for change in &self.changes {
            changes.push(change.copy(alloc)?)?;
        }
        Ok(Batch { changes })
    }
}

// Written out, so that no crate above proves anew how all that it holds is let go.
impl Drop for Batch {
    fn drop(self) {
        let Self { changes: _changes } = self;
    }
}
