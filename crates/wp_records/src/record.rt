//! A record is its list of entries.
ghost use Rattle.std.specs.Prelude.{◌≡◌, ◌≤◌, [], ◌∷◌, map, length, IfOk};
ghost use Rattle.wp_model.specs.declared.entry.Entry.TheVariants.{Write, Prepare, Commit, Undo, Close};
ghost use Rattle.wp_model.specs.declared.entry.TheConstants.{MOST_COMMITS};
ghost use Rattle.wp_model.specs.Record.{IsOneRecord};

use std::alloc::{AllocError, Global};
use std::marker::Model;
use wp_model::{Batch, Change, Entry, Name, Seq};

/// The entries that one call of the log appends, with the memory that they take. Clauses see them as a list.
#[derive(Drop)]
pub struct Record {
    entries: Vec<Entry>,
}

impl Model for Record {
    ghost use Rattle.std.specs.Prelude.{List};
    ghost use Rattle.wp_model.specs.declared.entry.Entry.{Entry};
    ghost use Rattle.wp_model.specs.Record.{IsOneRecord};

    ghost Value = { List Entry };

    ghost view = { λ r. r.entries.items };

    ghost invariant = { λ r. IsOneRecord r.entries.items };
}

impl Record {
    fn of(alloc: Global, entry: Entry) -> Result<Record, AllocError>
        requires { IsOneRecord (entry ∷ []) }
        ensures { IfOk result (λ made. made ≡ entry ∷ []) }
    {
        let mut entries = Vec::with_capacity(alloc, 1)?;
        entries.push(entry)?;
        Ok(Record { entries })
    }

    /// A Write entry with these changes: committed at once.
    pub fn write(alloc: Global, batch: &Batch) -> Result<Record, AllocError>
        ensures { IfOk result (λ made. made ≡ Write batch.now ∷ []) }
    {
        Record::of(alloc, Entry::Write(batch.copy(alloc)?))
    }

    /// A Write entry with this change alone.
    pub fn write_one(alloc: Global, change: Change) -> Result<Record, AllocError>
        ensures { IfOk result (λ made. made ≡ Write (change ∷ []) ∷ []) }
    {
        Record::of(alloc, Entry::Write(Batch::of(alloc, change)?))
    }

    /// A Prepare entry of this name with these changes.
    pub fn prepare(alloc: Global, name: &Name, batch: &Batch) -> Result<Record, AllocError>
        ensures { IfOk result (λ made. made ≡ Prepare name.now batch.now ∷ []) }
    {
        Record::of(alloc, Entry::Prepare(name.copy(alloc)?, batch.copy(alloc)?))
    }

    /// The Commit entry of the prepare `p`.
    pub fn commit(alloc: Global, p: Seq) -> Result<Record, AllocError>
        ensures { IfOk result (λ made. made ≡ Commit p ∷ []) }
    {
        Record::of(alloc, Entry::Commit(p))
    }

    /// The Commit entries of these prepares, one behind another.
    pub fn commits(alloc: Global, numbers: &[Seq]) -> Result<Record, AllocError>
        requires some { 1 ≤ length numbers.now }
        requires few { length numbers.now ≤ MOST_COMMITS }
        ensures { IfOk result (λ made. made ≡ map (λ p. Commit p) numbers.now) }
    {
        let mut entries = Vec::with_capacity(alloc, numbers.len())?;
        for p in numbers {
            entries.push(Entry::Commit(*p))?;
        }
        Ok(Record { entries })
    }

    /// An Undo entry of the prepare `p`, with what its keys had before it, and its Close.
    pub fn roll_back(alloc: Global, p: Seq, prior: &Batch) -> Result<Record, AllocError>
        ensures { IfOk result (λ made. made ≡ Undo p prior.now ∷ Close p ∷ []) }
    {
        let mut entries = Vec::with_capacity(alloc, 2)?;
        entries.push(Entry::Undo(p, prior.copy(alloc)?))?;
        entries.push(Entry::Close(p))?;
        Ok(Record { entries })
    }

    /// How many entries it has.
    pub fn len(&self) -> usize
        ensures { result ≡ length self.now }
    {
        self.entries.len()
    }

    pub(crate) fn into_entries(self) -> Vec<Entry>
        ensures entries { result.items ≡ self }
        ensures one { IsOneRecord result.items }
    {
        let Record { entries } = self;
        entries
    }
}
