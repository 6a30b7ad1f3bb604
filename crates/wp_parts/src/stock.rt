//! What the store turn guards: the versions in memory and in tables.
ghost use Rattle.std.specs.Prelude.{◌≡◌, ◌≤◌, ◌<◌, ℕ, nat_le, true, false, List, [], ◌∷◌, length, vec_capacity, Some, None, map, IfOk, OnOk, OnErr, if◌then◌else◌};
ghost use Rattle.std.specs.Arc.{arc_value};
ghost use Rattle.std.specs.Option.{option_map};
ghost use Rattle.wp_model.specs.declared.entry.Entry.{Entry};
ghost use Rattle.wp_model.specs.Legal.{changes_in};
ghost use Rattle.wp_model.specs.Rows.{next_version};
ghost use Rattle.wp_model.specs.Versions.{version_at};
ghost use Rattle.wp_memtable.specs.Memtable.{HasChanges};
ghost use Rattle.wp_merge.specs.Merge.{joined, sorted_of};
ghost use Rattle.wp_store.specs.Store.{newest_of, AreWords};
ghost use Rattle.wp_core.specs.Entries.{HasVersionsAt};
ghost use Rattle.wp_core.specs.States.{all_in};
ghost use Rattle.wp_parts.specs.Stock.{store_state, HasNoneAt};

use std::alloc::AllocError;
use std::marker::Model;
use std::sync::Arc;
use wp_model::{Batch, Key, Seq, Versions};
use wp_store::{FrozenParts, Store};
use wp_table::Table;

/// The versions in memory and in tables, and the floor. Clauses see the parts of the store and the floor; in the machine, what
/// is frozen is in memory still.
pub struct Stock {
    store: Store,
    floor: Seq,
}

impl Model for Stock {
    ghost use Rattle.wp_parts.specs.Stock.{StockState};

    ghost Value = { StockState };

    ghost view = { λ s. record { parts = s.store; floor = s.floor } };
}

impl Stock {
    /// The store, where a reader at each number from the floor on finds all that it needs.
    pub fn new(store: Store, floor: Seq) -> Stock
        ensures { result ≡ record { parts = store; floor = floor } }
    {
        Stock { store, floor }
    }

    /// The number from which on a reader finds all that it needs.
    pub fn floor(&self) -> Seq
        ensures { result ≡ self.now.floor }
    {
        self.floor
    }

    /// Puts a version under `n` into memory for each change of the batch. Where no version has that number, they are those of
    /// an entry with these changes. A refused call may keep memory that it took, and nothing else.
    pub fn insert(&mut self, n: Seq, batch: &Batch) -> Result<(), AllocError>
        ensures changes { OnOk result (HasChanges n batch.now self.old.parts.memory self.new.parts.memory) }
        ensures entry { OnOk result ((entry : Entry) → changes_in entry ≡ batch.now → HasNoneAt n (store_state self.old).memory
            → HasVersionsAt (Some entry) n (store_state self.old).memory (store_state self.new).memory) }
        ensures err { OnErr result (self.new ≡ self.old) }
        ensures others { self.new ≡ record self.old { parts = record self.old.parts { memory = self.new.parts.memory } } }
    {
        self.store.insert(n, batch)
    }

    /// Takes each version with a number from `n` on out of memory.
    pub fn remove_from(&mut self, n: Seq)
        ensures memory { (key : List ℕ) (p : ℕ) → version_at (store_state self.new).memory key p ≡ (if nat_le n p then None else version_at (store_state self.old).memory key p) }
        ensures others { store_state self.new ≡ record (store_state self.old) { memory = (store_state self.new).memory } }
    {
        self.store.remove_from(n);
    }

    /// The newest `n` versions of the key, in memory and in tables.
    pub fn collect(&self, key: &Key, n: usize) -> Result<Versions, AllocError>
        ensures { IfOk result (λ found. found ≡ newest_of n key.now (sorted_of (all_in (store_state self.now)))) }
    {
        self.store.collect(key, n)
    }

    /// The least key of a version that is above `key`, or, where `above` is false, not below it, in memory and in tables, and
    /// the newest of its versions alone.
    pub fn next_version(
        &self,
        key: &Key,
        above: bool,
    ) -> Result<Option<(Key, Versions)>, AllocError>
        ensures found { IfOk result (λ found. found ≡ option_map (λ v. (v.key, v ∷ [])) (next_version above key.now (sorted_of (all_in (store_state self.now))))) }
        ensures in_range { AreWords (sorted_of (all_in (store_state self.now))) }
    {
        self.store.next_version(key, above)
    }

    /// Whether no version is in memory.
    pub fn is_flushed(&self) -> bool
        ensures none { result ≡ true → (store_state self.now).memory ≡ [] }
        ensures some { result ≡ false → 1 ≤ length (store_state self.now).memory }
    {
        self.store.is_flushed()
    }

    /// Freezes all that stands in memory: its parts, with the versions, for a flush. It copies no version. Readers find them as
    /// before, where memory was wanting too.
    pub fn freeze(&mut self) -> Result<FrozenParts, AllocError>
        ensures versions { IfOk result (λ parts. sorted_of (joined parts) ≡ (store_state self.old).memory) }
        ensures same { store_state self.new ≡ store_state self.old }
    {
        self.store.freeze()?;
        self.store.share_frozen()
    }

    /// The tables, the newest first, in memory that has room for one more.
    pub fn copy_tables(&self) -> Result<Vec<Arc<Table>>, AllocError>
        ensures tables { IfOk result (λ tables. sorted_of (joined (map arc_value tables.items)) ≡ (store_state self.now).tables) }
        ensures room { IfOk result (λ tables. length tables.items < vec_capacity tables) }
    {
        let mut tables = self.store.copy_tables()?;
        tables.reserve(1)?;
        Ok(tables)
    }

    /// Takes each version with a number up to `flushed` out of memory, and puts these tables, the newest first, in place of all.
    /// It takes no memory.
    pub fn install_flushed(&mut self, flushed: Seq, tables: Vec<Arc<Table>>)
        ensures memory { (key : List ℕ) (p : ℕ) → version_at (store_state self.new).memory key p ≡ (if nat_le p flushed then None else version_at (store_state self.old).memory key p) }
        ensures tables { (store_state self.new).tables ≡ sorted_of (joined (map arc_value tables.items)) }
        ensures floor { self.new.floor ≡ self.old.floor }
    {
        self.store.remove_flushed(flushed);
        self.store.put_tables(tables);
    }

    /// Puts these tables, the newest first, in place of all. A reader at each number from `floor` on finds all that it needs. It
    /// takes no memory.
    pub fn replace(&mut self, tables: Vec<Arc<Table>>, floor: Seq)
        ensures { store_state self.new ≡ record (store_state self.old) { tables = sorted_of (joined (map arc_value tables.items)); floor = floor } }
    {
        self.store.put_tables(tables);
        self.floor = floor;
    }
}

// Written out, so that no crate above proves anew how all that it holds is let go.
impl Drop for Stock {
    fn drop(self) {
        let Self {
            store: _store,
            floor: _floor,
        } = self;
    }
}
