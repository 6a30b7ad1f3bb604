ghost use Rattle.std.specs.Prelude.{◌≡◌, true, IfOk};
ghost use Rattle.wp_model.specs.Batch.{are_ascending};
ghost use Rattle.wp_model.specs.Legal.{changes_in};

use crate::Seq;
use crate::batch::Batch;
use crate::change::Change;
use crate::word::Name;
use std::alloc::{AllocError, Global};

/// How many Commits share one record at most.
pub const MOST_COMMITS: usize = 16;

/// One entry of a history. The n-th has the number n, from 1 on.
#[derive(Drop)]
pub enum Entry {
    /// A transaction that was written at once: its batch is committed.
    Write(Batch),
    /// A transaction of this name was prepared: its keys are held, until it is decided.
    Prepare(Name, Batch),
    /// The prepare with this number is committed.
    Commit(Seq),
    /// The prepare with this number is rolled back: the batch holds what its keys had before it. Its `Close` follows.
    Undo(Seq, Batch),
    /// The prepare with this number was rolled back, and its keys are free again.
    Close(Seq),
}

impl Entry {
    /// The changes of the entry, committed or not, in the order of their keys.
    #[tactic(auto, using(crate::proofs::BatchLemmas::batch_ascends))]
    pub fn changes(&self) -> &[Change]
        ensures value { result.now ≡ changes_in self.now }
        ensures ascending { are_ascending (changes_in self.now) ≡ true }
    {
        match self {
            Entry::Write(batch) | Entry::Prepare(_, batch) | Entry::Undo(_, batch) => {
                batch.changes()
            }
            Entry::Commit(_) | Entry::Close(_) => &[],
        }
    }

    /// The same entry once more.
    pub fn copy(&self, alloc: Global) -> Result<Entry, AllocError>
        ensures { IfOk result (λ entry. entry ≡ self.now) }
    {
        Ok(match self {
            Entry::Write(batch) => Entry::Write(batch.copy(alloc)?),
            Entry::Prepare(name, batch) => Entry::Prepare(name.copy(alloc)?, batch.copy(alloc)?),
            Entry::Commit(p) => Entry::Commit(*p),
            Entry::Undo(p, batch) => Entry::Undo(*p, batch.copy(alloc)?),
            Entry::Close(p) => Entry::Close(*p),
        })
    }
}
