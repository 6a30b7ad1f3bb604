//! The sizes of a table's parts, and the bytes that tell its versions apart.

ghost use Rattle.std.specs.Prelude.{◌≡◌};
ghost use Rattle.wp_table.specs.Table.{block_count};

/// The first bytes of each table.
pub const MAGIC: [u8; 4] = *b"WPTB";

/// How many bytes the head has, behind which the first block begins.
pub(crate) const HEAD: u64 = 25;

/// How many versions each block has. The last one may have fewer.
pub const BLOCK: u64 = 16;

/// The byte after the number of a version that is a deletion.
pub const DELETION: u8 = 0;

/// The byte after the number of a version with a value.
pub const PUT: u8 = 1;

/// How many blocks so many versions take.
pub fn blocks_for(count: u64) -> u64
    ensures { result ≡ block_count count }
{
    count.div_ceil(BLOCK)
}
