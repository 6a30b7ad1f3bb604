ghost use Rattle.std.specs.Prelude.{map, IfOk};
ghost use Rattle.std.specs.Arc.{arc_value};
ghost use Rattle.std.specs.Iterator.{YieldsFirst, item_count};
ghost use Rattle.wp_merge.specs.Merge.{AreMerged};

use crate::tables::merge_table;
use crate::two::merge_two;
use std::alloc::{AllocError, Global};
use std::collections::VecDeque;
use std::marker::Model;
use std::sync::Arc;
use wp_model::{Version, Versions};
use wp_table::Table;

/// The versions of several lists, in order. Of two of the same key and number the earlier list's stays.
#[derive(Drop)]
pub struct Merge {
    versions: VecDeque<Version>,
}

impl Model for Merge {
    ghost use Rattle.std.specs.Prelude.{List};
    ghost use Rattle.wp_model.specs.declared.version.Version.{Version};

    ghost Value = { List Version };

    ghost view = { λ m. m.versions.items };
}

impl Merge {
    pub fn of(alloc: Global, mut sources: Vec<Versions>) -> Result<Merge, AllocError>
        ensures { IfOk result (λ merge. AreMerged sources.items merge) }
    {
        let mut versions = VecDeque::new(alloc);
        while let Some(source) = sources.pop() {
            versions = merge_two(alloc, VecDeque::from_vec(source.into_vec()), versions)?;
        }
        Ok(Merge { versions })
    }

    /// The versions of the tables, the newest first, which are read where they are.
    pub fn of_tables(alloc: Global, tables: &VecDeque<Arc<Table>>) -> Result<Merge, AllocError>
        ensures { IfOk result (λ merge. AreMerged (map arc_value tables.now.items) merge) }
    {
        let mut versions = VecDeque::new(alloc);
        for table in tables {
            versions = merge_table(alloc, versions, table)?;
        }
        Ok(Merge { versions })
    }
}

impl Iterator for Merge {
    type Item = Version;

    ghost next_gives = { YieldsFirst (λ m. m) };

    ghost remaining = { item_count (λ m. m) };

    fn next(&mut self) -> Option<Version> {
        self.versions.pop_front()
    }
}
