ghost use Rattle.std.specs.Prelude.{◌≡◌, ◌+◌, ◌-◌, ◌*◌, ◌^◌, ◌≤◌, ◌<◌, true, false, List, length, drop, IfOk, IfErr, IfSome, Ok, Err, filter};
ghost use Rattle.std.specs.Arc.{arc_value};
ghost use Rattle.std.specs.List.{list_all};
ghost use Rattle.std.specs.Option.{option_map};
ghost use Rattle.std.specs.Str.{bytes_eq};
ghost use Rattle.wp_model.specs.declared.version.Version.{Version};
ghost use Rattle.wp_model.specs.Rows.{next_version};
ghost use Rattle.wp_model.specs.Versions.{AreInOrder};
ghost use Rattle.wp_fields.specs.Reading.{Gives};
ghost use Rattle.wp_table.specs.declared.error.TableError.{TableError};
ghost use Rattle.wp_table.specs.declared.layout.TheConstants.{BLOCK};
ghost use Rattle.wp_table.specs.Borrowed.{seen, begins_below, begins_short};
ghost use Rattle.wp_table.specs.Errors.{table_fault};
ghost use Rattle.wp_table.specs.Faults.{IsTableFault};
ghost use Rattle.wp_table.specs.Reading.{table_at};
ghost use Rattle.wp_table.specs.Table.{block_count, has_words, SpellsTable};
ghost use Rattle.wp_table.specs.Walk.{stored_versions, IsIndexed, StandsFrom};

use crate::all::All;
use crate::error::TableError;
use crate::found::{Found, first_from};
use crate::layout::{BLOCK, HEAD};
use crate::reading::judge;
use crate::steps::Steps;
use crate::version::VersionRef;
use std::alloc::Global;
use std::marker::Model;
use std::sync::Arc;
use std::sync::ledger::Ledger;
use wp_fields::Format;
use wp_model::{Key, Seq};

/// A table that was judged or built: its bytes, and eight for each block. Threads may share it.
pub struct Table {
    bytes: Arc<Vec<u8>>,
    format: Format,
    /// How many versions it has.
    count: u64,
    /// Where each block begins.
    index: Vec<u64>,
}

impl Model for Table {
    ghost use Rattle.std.specs.Prelude.{List};
    ghost use Rattle.std.specs.Arc.{arc_value};
    ghost use Rattle.wp_model.specs.declared.version.Version.{Version};
    ghost use Rattle.wp_table.specs.Walk.{stored_versions, IsIndexed};

    ghost Value = { List Version };

    ghost view = { λ t. stored_versions t.format (arc_value t.bytes).items t.count };

    ghost invariant = { λ t. IsIndexed t.format (arc_value t.bytes).items t.count t.index.items };
}

impl Table {
    /// The table of so many versions that the bytes are, whose blocks begin at these places.
    pub(crate) fn new(bytes: Arc<Vec<u8>>, format: Format, count: u64, index: Vec<u64>) -> Table
        requires { IsIndexed format (arc_value bytes).items count index.items }
        ensures { result ≡ stored_versions format (arc_value bytes).items count }
    {
        Table {
            bytes,
            format,
            count,
            index,
        }
    }

    /// The table that the bytes are, in the store with that id, where the entries up to `flushed` were flushed, in
    /// either version of the format. It reads the bytes once, and makes no list of the versions.
    pub fn of(alloc: Global, bytes: Vec<u8>, id: u32, flushed: Seq) -> Result<Table, TableError>
        // What is read is a table, and the bytes are its spelling.
        ensures found { IfOk result (λ table. SpellsTable id flushed table bytes.items) }
        // What is spelled so is read, unless memory runs out.
        ensures only { (versions : List Version) → SpellsTable id flushed versions bytes.items
            → Gives table_fault (λ table. table) result (Ok versions) }
        // What is refused has that fault, and what has a fault is refused for it, unless memory runs out.
        ensures refused { IfErr result (λ error. IfSome (table_fault error) (λ fault. IsTableFault id flushed bytes.items fault)) }
        ensures each_fault { (fault : TableError) → IsTableFault id flushed bytes.items fault
            → Gives table_fault (λ table. table) result (Err fault) }
        ensures exact { Gives table_fault (λ table. table) result (table_at id flushed bytes.items) }
    {
        let (format, count, index) = judge(alloc, &bytes, id, flushed)?;
        let bytes = Arc::new(alloc, bytes)?;
        Ok(Table::new(bytes, format, count, index))
    }

    /// How many versions it has.
    pub fn count(&self) -> usize
        ensures { result ≡ length self.now }
    {
        self.count as usize
    }

    /// How many blocks it has.
    pub fn block_count(&self) -> usize
        ensures blocks { result ≡ block_count (length self.now) }
        ensures some { 1 ≤ result }
    {
        self.index.len()
    }

    /// The versions from the block on.
    fn from_block(&self, block: usize) -> All<'_>
        requires { block < block_count (length self.now) }
        ensures versions { result ≡ drop (block * BLOCK) self.now }
        ensures in_range { list_all has_words self.now ≡ true }
        ensures in_order { AreInOrder self.now }
    {
        All::at(
            &self.bytes,
            self.format,
            self.index[block],
            self.count - block as u64 * BLOCK,
        )
    }

    /// Whether the first key of the block comes before what is looked for, which is one step.
    fn begins_short<L: Ledger>(
        &self,
        block: usize,
        key: &Key,
        above: bool,
        steps: &mut Steps<L>,
    ) -> bool
        requires { block < block_count (length self.now) }
        ensures short { result ≡ begins_short above key.now (drop (block * BLOCK) self.now) }
        ensures step { steps.new ≡ steps.old + 1 }
        ensures in_order { AreInOrder self.now }
    {
        let first = self.from_block(block).advance();
        steps.is_short(first, key.bytes(), above)
    }

    /// The half of these blocks that what is looked for stands from, by one step.
    fn halve<L: Ledger>(
        &self,
        first: usize,
        behind: usize,
        key: &Key,
        above: bool,
        steps: &mut Steps<L>,
    ) -> (usize, usize)
        requires stands { StandsFrom self.now above key.now first behind }
        requires some { first + 1 < behind }
        ensures stands { StandsFrom self.now above key.now result.0 result.1 }
        ensures half { 2 * (result.1 - result.0 - 1) ≤ behind - first - 1 }
        ensures step { steps.new ≡ steps.old + 1 }
    {
        let middle = first + (behind - first) / 2;
        if self.begins_short(middle, key, above, steps) {
            return (middle, behind);
        }
        (first, middle)
    }

    /// The block before which each key is below this one, or, where `above` is asked, not above it, by binary search. A
    /// step is one comparison with the first key of a block.
    fn block_before<L: Ledger>(&self, key: &Key, above: bool, steps: &mut Steps<L>) -> usize
        ensures stands { StandsFrom self.now above key.now result (result + 1) }
        ensures in_order { AreInOrder self.now }
        ensures cost { 2 ^ (steps.new - steps.old) ≤ 2 * block_count (length self.now) + 1 }
    {
        let _ = &self.index;
        let mut first = 0;
        let mut behind = self.block_count();
        while behind - first > 1 {
            let half = self.halve(first, behind, key, above, steps);
            first = half.0;
            behind = half.1;
        }
        first
    }

    /// The block from which on the versions of the key stand, by binary search. A step is one comparison with the first
    /// key of a block.
    pub fn first_block<L: Ledger>(&self, key: &Key, steps: &mut Steps<L>) -> usize
        ensures within { result < block_count (length self.now) }
        // Every version of the key stands in that block or later.
        ensures from { filter (λ v. bytes_eq v.key key.now) (drop (result * BLOCK) self.now) ≡ filter (λ v. bytes_eq v.key key.now) self.now }
        // The first key of the block behind it, if there is one, is not below the key.
        ensures behind { begins_below key.now (drop ((result + 1) * BLOCK) self.now) ≡ false }
        ensures cost { 2 ^ (steps.new - steps.old) ≤ 2 * block_count (length self.now) + 1 }
    {
        self.block_before(key, false, steps)
    }

    /// The versions of the key, the newest first, borrowed from the table's bytes. The block where they stand is found by
    /// binary search, and at most one block is passed over there. A step is one comparison with a key of the table.
    pub fn versions<'a, L: Ledger>(&'a self, key: &'a Key, steps: &mut Steps<L>) -> Found<'a>
        ensures found { result ≡ filter (λ v. bytes_eq v.key key.now) self.now }
        ensures in_range { list_all has_words result ≡ true }
        ensures in_order { AreInOrder self.now }
        ensures cost { 2 ^ (steps.new - steps.old - (BLOCK + 1)) ≤ 2 * block_count (length self.now) + 1 }
    {
        let block = self.first_block(key, steps);
        Found::of(self.from_block(block), key.bytes(), steps)
    }

    /// The newest version of the least key that is above `key`, or, where `above` is false, not below it, borrowed from the
    /// table's bytes. Its block is found by binary search, and at most one block is passed over there. A step is one comparison
    /// with a key of the table.
    pub fn next_version<L: Ledger>(
        &self,
        key: &Key,
        above: bool,
        steps: &mut Steps<L>,
    ) -> Option<VersionRef<'_>>
        ensures found { option_map seen result ≡ next_version above key.now self.now }
        ensures in_range { list_all has_words self.now ≡ true }
        ensures in_order { AreInOrder self.now }
        ensures cost { 2 ^ (steps.new - steps.old - (BLOCK + 1)) ≤ 2 * block_count (length self.now) + 1 }
    {
        let block = self.block_before(key, above, steps);
        let mut rest = self.from_block(block);
        first_from(&mut rest, key.bytes(), above, steps)
    }

    /// All versions, in order, borrowed from the table's bytes.
    pub fn all(&self) -> All<'_>
        ensures all { result ≡ self.now }
        ensures in_range { list_all has_words self.now ≡ true }
        ensures in_order { AreInOrder self.now }
    {
        All::at(&self.bytes, self.format, HEAD, self.count)
    }
}

// Written out, so that no crate above proves anew how all that it holds is let go.
impl Drop for Table {
    fn drop(self) {
        let Self {
            bytes: _bytes,
            format: _format,
            count: _count,
            index: _index,
        } = self;
    }
}
