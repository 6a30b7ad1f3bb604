//! The bytes that tell kinds apart, and the last number of an entry.

ghost use Rattle.std.specs.Prelude.{◌≡◌};
ghost use Rattle.wp_entry.specs.Record.{last_number};

use wp_fields::Format;
use wp_model::Seq;

/// The kind of the record of one Write.
pub(crate) const WRITE: u8 = 1;

/// The kind of the record of one Prepare.
pub(crate) const PREPARE: u8 = 2;

/// The kind of the record of one Commit.
pub(crate) const COMMIT: u8 = 3;

/// The kind of the record of an Undo and its Close.
pub(crate) const ROLLBACK: u8 = 4;

/// The kind of the record of a group of Commits.
pub(crate) const GROUP: u8 = 6;

/// The last number that an entry may have: the last one that fits in four bytes, or 2^56 - 1.
pub(crate) fn last_number(format: Format) -> Seq
    ensures { result ≡ last_number format }
{
    match format {
        Format::One => u64::from(u32::MAX),
        Format::Two => (1 << 56) - 1,
    }
}
