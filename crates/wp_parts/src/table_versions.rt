//! A table as clauses see it.
ghost use Rattle.std.specs.Prelude.{◌≡◌};

use std::marker::Model;
use std::snapshot::Snapshot as Ghost;
use wp_table::Table;

/// The versions of a table, for clauses alone: it keeps nothing of the table in memory.
#[derive(Drop)]
pub struct TableVersions {
    table: Ghost<Table>,
}

impl Model for TableVersions {
    ghost use Rattle.std.specs.Prelude.{List};
    ghost use Rattle.wp_model.specs.declared.version.Version.{Version};

    ghost Value = { List Version };

    ghost view = { λ t. t.table.value };
}

impl TableVersions {
    pub fn of(table: &Table) -> TableVersions
        ensures { result ≡ table.now }
    {
        TableVersions {
            table: Ghost::of(table),
        }
    }
}
