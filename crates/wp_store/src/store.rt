ghost use Rattle.std.specs.Prelude.{◌≡◌, ◌==◌, [], ◌∷◌, List, length, map, IfOk, OnOk, OnErr};
ghost use Rattle.std.specs.Arc.{arc_value};
ghost use Rattle.std.specs.List.{list_all};
ghost use Rattle.std.specs.Option.{option_map};
ghost use Rattle.wp_model.specs.declared.version.Version.{Version};
ghost use Rattle.wp_model.specs.Rows.{next_version};
ghost use Rattle.wp_memtable.specs.Memtable.{HasChanges, above, below};
ghost use Rattle.wp_merge.specs.Merge.{AreMerged};
ghost use Rattle.wp_store.specs.Store.{parts_of, is_flushed, parts_above, newest_of, AreWords};

use crate::frozen_parts::FrozenParts;
use crate::newest::newest_in_memory;
use crate::next_version::{copied_with_key, least_in_frozen, least_in_tables, next_in_memory};
use crate::sources::{merged, push_frozen, push_newest_frozen, push_newest_tables};
use std::alloc::{AllocError, Global};
use std::collections::VecDeque;
use std::marker::Model;
use std::mem;
use std::sync::Arc;
use wp_memtable::{FrozenPart, Memtable};
use wp_model::{Batch, Key, Seq, Versions};
use wp_table::Table;

/// The versions that are stored, which the holder of the store turn changes.
pub struct Store {
    alloc: Global,
    memory: Memtable,
    /// The newest first.
    frozen: VecDeque<FrozenPart>,
    /// The newest first.
    tables: VecDeque<Arc<Table>>,
}

impl Model for Store {
    ghost use Rattle.std.specs.Prelude.{map};
    ghost use Rattle.std.specs.Arc.{arc_value};
    ghost use Rattle.wp_store.specs.Store.{StoreParts};

    ghost Value = { StoreParts };

    ghost view = { λ s. record { memory = s.memory; frozen = s.frozen.items; tables = map arc_value s.tables.items } };
}

/// Whether no frozen part has a version.
fn are_empty(frozen: &VecDeque<FrozenPart>) -> bool
    ensures { result ≡ list_all (λ part. length part == 0) frozen.now.items }
{
    frozen.iter().all(|part| part.is_empty())
}

/// Takes each version with a number from `n` on out of the parts.
fn remove_from_all(parts: &mut VecDeque<FrozenPart>, n: Seq)
    ensures { parts.new.items ≡ map (below n) parts.old.items }
{
    for i in 0..parts.len() {
        parts[i].remove_from(n);
    }
}

impl Store {
    /// The store that an opening makes, of the versions that no table has and of the tables, the newest first.
    pub fn new(alloc: Global, memory: Memtable, tables: Vec<Arc<Table>>) -> Store
        ensures memory { result.memory ≡ memory }
        ensures frozen { result.frozen ≡ [] }
        ensures tables { result.tables ≡ map arc_value tables.items }
    {
        Store {
            alloc,
            memory,
            frozen: VecDeque::new(alloc),
            tables: VecDeque::from_vec(tables),
        }
    }

    /// Puts a version under `n` into memory for each change of the batch. A version of the same key and number that
    /// is there is replaced. A refused call may keep memory that it took, and nothing else.
    pub fn insert(&mut self, n: Seq, batch: &Batch) -> Result<(), AllocError>
        ensures ok { OnOk result (HasChanges n batch.now self.old.memory self.new.memory) }
        ensures err { OnErr result (self.new ≡ self.old) }
        ensures others { self.new ≡ record self.old { memory = self.new.memory } }
    {
        self.memory.insert(n, batch)
    }

    /// Takes each version with a number from `n` on out of memory and of the frozen parts.
    pub fn remove_from(&mut self, n: Seq)
        ensures { self.new ≡ record self.old { memory = below n self.old.memory; frozen = map (below n) self.old.frozen } }
    {
        self.memory.remove_from(n);
        remove_from_all(&mut self.frozen, n);
    }

    /// Takes each version with a number up to `n` out of memory and of the frozen parts, and drops the parts that have none
    /// then. Where what was flushed was frozen before, that takes no time that grows with the versions.
    pub fn remove_flushed(&mut self, n: Seq)
        ensures { self.new ≡ record self.old { memory = above n self.old.memory; frozen = parts_above n self.old.frozen } }
    {
        self.memory.remove_up_to(n);
        self.frozen.retain_mut(|part| {
            part.remove_up_to(n);
            !part.is_empty()
        });
    }

    /// The newest `n` versions of the key, of all parts merged. It goes to each part for this key alone, and copies at
    /// most `n` versions there. Where all is in memory nothing is merged.
    pub fn collect(&self, key: &Key, n: usize) -> Result<Versions, AllocError>
        ensures { IfOk result (λ found. (all : List Version) → AreMerged (parts_of self.now) all → found ≡ newest_of n key.now all) }
    {
        let newest = newest_in_memory(self.alloc, &self.memory, key, n)?;
        if self.frozen.is_empty() && self.tables.is_empty() {
            return Ok(newest);
        }
        let mut sources = Vec::new(self.alloc);
        sources.push(newest)?;
        push_newest_frozen(self.alloc, &mut sources, &self.frozen, key, n)?;
        push_newest_tables(self.alloc, &mut sources, &self.tables, key, n)?;
        let mut found = merged(self.alloc, sources)?.into_vec();
        found.truncate(n);
        Ok(Versions::of(found))
    }

    /// The least key of a version that is above `key`, or, where `above` is false, not below it, and the newest of its versions
    /// alone. It goes to each part for that version, and copies one of them.
    pub fn next_version(
        &self,
        key: &Key,
        above: bool,
    ) -> Result<Option<(Key, Versions)>, AllocError>
        ensures found { IfOk result (λ found. (all : List Version) → AreMerged (parts_of self.now) all → found ≡ option_map (λ v. (v.key, v ∷ [])) (next_version above key.now all)) }
        ensures in_range { (all : List Version) → AreMerged (parts_of self.now) all → AreWords all }
    {
        let in_memory = next_in_memory(&self.memory, key, above);
        let least = least_in_frozen(&self.frozen, key, above, in_memory);
        let found = least_in_tables(&self.tables, key, above, least);
        copied_with_key(self.alloc, found)
    }

    /// The frozen parts, for a flush to write.
    pub fn share_frozen(&self) -> Result<FrozenParts, AllocError>
        ensures { IfOk result (λ parts. parts ≡ self.now.frozen) }
    {
        FrozenParts::of(self.alloc, &self.frozen)
    }

    /// Makes what is in memory the first frozen part, and leaves memory empty. It copies no version.
    pub fn freeze(&mut self) -> Result<(), AllocError>
        ensures ok { OnOk result (self.new ≡ record self.old { memory = []; frozen = self.old.memory ∷ self.old.frozen }) }
        ensures err { OnErr result (self.new ≡ self.old) }
    {
        self.frozen.reserve(1)?;
        let memory = mem::replace(&mut self.memory, Memtable::new(self.alloc));
        match memory.freeze() {
            Ok(part) => {
                self.frozen.push_front(part).unwrap();
                Ok(())
            }
            Err(memory) => {
                self.memory = memory;
                Err(AllocError)
            }
        }
    }

    /// Puts these tables, the newest first, in place of all tables, in the memory that they have.
    pub fn put_tables(&mut self, tables: Vec<Arc<Table>>)
        ensures { self.new ≡ record self.old { tables = map arc_value tables.items } }
    {
        self.tables = VecDeque::from_vec(tables);
    }

    /// Whether no version is in memory or in a frozen part, so that a flush has nothing to write.
    pub fn is_flushed(&self) -> bool
        ensures { result ≡ is_flushed self.now }
    {
        if self.memory.count() > 0 {
            return false;
        }
        are_empty(&self.frozen)
    }

    /// The tables, the newest first.
    pub fn copy_tables(&self) -> Result<Vec<Arc<Table>>, AllocError>
        ensures { IfOk result (λ tables. map arc_value tables.items ≡ self.now.tables) }
    {
        let mut tables = Vec::with_capacity(self.alloc, self.tables.len())?;
        for table in &self.tables {
            tables.push(Arc::clone(table)?)?;
        }
        Ok(tables)
    }
}

// Written out, so that no crate above proves anew how all that it holds is let go.
impl Drop for Store {
    fn drop(self) {
        let Self {
            alloc: _alloc,
            memory: _memory,
            frozen: _frozen,
            tables: _tables,
        } = self;
    }
}
