ghost use Rattle.std.specs.Prelude.{◌≡◌, IfOk};
ghost use Rattle.std.specs.Arc.{arc_value};
ghost use Rattle.wp_fields.specs.declared.format.Format.TheVariants.{Two};
ghost use Rattle.wp_table.specs.Walk.{stored_versions, IsIndexed};

use crate::table::Table;
use std::alloc::{AllocError, Global};
use std::marker::Model;
use std::sync::Arc;
use wp_fields::Format;

/// A table as it was built, in the second version of the format, for a device and then for readers: both have the same bytes.
/// Clauses see the bytes and the versions that they have.
#[derive(Drop)]
pub struct Built {
    bytes: Arc<Vec<u8>>,
    table: Arc<Table>,
}

impl Model for Built {
    ghost use Rattle.std.specs.Arc.{arc_value};
    ghost use Rattle.wp_table.specs.Walk.{BuiltTable};

    ghost Value = { BuiltTable };

    ghost view = { λ b. record { bytes = (arc_value b.bytes).items; versions = arc_value b.table } };
}

impl Built {
    /// The table of so many versions that the bytes spell, whose blocks begin at these places. It takes the memory that readers
    /// share.
    pub fn of(
        alloc: Global,
        bytes: Vec<u8>,
        count: u64,
        index: Vec<u64>,
    ) -> Result<Built, AllocError>
        requires { IsIndexed Two bytes.items count index.items }
        ensures { IfOk result (λ built. built ≡ record { bytes = bytes.items; versions = stored_versions Two bytes.items count }) }
    {
        let bytes = Arc::new(alloc, bytes)?;
        let table = Table::new(Arc::clone(&bytes)?, Format::Two, count, index);
        Ok(Built {
            bytes,
            table: Arc::new(alloc, table)?,
        })
    }

    /// Its bytes.
    pub fn bytes(&self) -> &[u8]
        ensures { result.now ≡ self.now.bytes }
    {
        &self.bytes
    }

    /// The table for readers, who share it.
    pub fn into_table(self) -> Arc<Table>
        ensures { arc_value result ≡ self.versions }
    {
        let Built {
            bytes: _bytes,
            table,
        } = self;
        table
    }
}
