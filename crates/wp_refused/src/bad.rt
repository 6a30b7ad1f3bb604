use std::fmt;
use wp_entry::RecordError;
use wp_model::Seq;
use wp_outside::Device;
use wp_table::TableError;

/// What is wrong with the bytes of a store's devices: the first fault.
pub enum Bad {
    /// The device has no whole head, or one of another magic or version.
    BadHead(Device),
    /// The log's record with this index, from 0 on, is cut; or none is, and it is the first outside the format.
    BadRecord { index: u64, why: RecordError },
    /// The entry with this number is the first that may not come after those before it.
    Illegal { number: Seq },
    /// The manifest, or a table, is of the store with the id `found`, and the log has the id `log`.
    Stranger { log: u32, found: u32 },
    /// The manifest's record with this index, from 0 on, is cut; or none is, and it is the first that is no edit.
    BadEdit { index: u64 },
    /// The log's base is above what the last edit has flushed.
    BaseAhead { base: Seq, flushed: Seq },
    /// The last edit has flushed more entries than the log has.
    LogBehind { flushed: Seq, length: Seq },
    /// The table at this place has this fault.
    BadTable { place: u64, why: TableError },
    /// The tables do not show every reader what the history holds, with the versions of the later entries.
    Uncovered,
}

/// Writes the text and what is wrong there.
fn write_one<W: fmt::Write, A: fmt::Display>(
    f: &mut fmt::Formatter<W>,
    text: &str,
    what: &A,
) -> fmt::Result {
    write!(f, "{text} {what}")
}

/// Writes the text and both that it speaks of.
fn write_two<W: fmt::Write, A: fmt::Display, B: fmt::Display>(
    f: &mut fmt::Formatter<W>,
    text: &str,
    first: &A,
    second: &B,
) -> fmt::Result {
    write!(f, "{text} {first} {second}")
}

impl fmt::Display for Bad {
    fn fmt<W: fmt::Write>(&self, f: &mut fmt::Formatter<W>) -> fmt::Result {
        match self {
            Bad::BadHead(device) => write_one(f, "bad head", device),
            Bad::BadRecord { index, why } => write_two(f, "bad record", index, why),
            Bad::Illegal { number } => write_one(f, "illegal", number),
            Bad::Stranger { log, found } => write_two(f, "stranger", log, found),
            Bad::BadEdit { index } => write_one(f, "bad edit", index),
            Bad::BaseAhead { base, flushed } => write_two(f, "base ahead", base, flushed),
            Bad::LogBehind { flushed, length } => write_two(f, "log behind", flushed, length),
            Bad::BadTable { place, why } => write_two(f, "bad table", place, why),
            Bad::Uncovered => f.write_str("uncovered"),
        }
    }
}

// Written out, so that no crate above proves anew how all that it holds is let go.
impl Drop for Bad {
    fn drop(self) {
        match self {
            Bad::BadHead(_device) => {}
            Bad::BadRecord {
                index: _index,
                why: _why,
            } => {}
            Bad::Illegal { number: _number } => {}
            Bad::Stranger {
                log: _log,
                found: _found,
            } => {}
            Bad::BadEdit { index: _index } => {}
            Bad::BaseAhead {
                base: _base,
                flushed: _flushed,
            } => {}
            Bad::LogBehind {
                flushed: _flushed,
                length: _length,
            } => {}
            Bad::BadTable {
                place: _place,
                why: _why,
            } => {}
            Bad::Uncovered => {}
        }
    }
}
