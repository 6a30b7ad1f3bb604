//! The write-ahead log: the records of a gate log that spell an orderly history, from a base on in the second version.
//!
//! An opening reads the records in order, each at the number that is due: first its grammar, then whether each of its
//! entries may come after those before it. The first record that fails is named, and nothing after it is read. Until
//! then nothing is written: a log that was read is repaired by a call of its own.
//! `reserve` makes what the next append writes, in memory that is taken there; `append` then only calls the disk. So
//! a store that has reserved all that a commit needs meets no want of memory once its record is in the log. At each
//! moment a crash leaves the history, or the history and the entries of one record more, whole. And what each crash at
//! one moment would leave acknowledged, each crash at a later moment leaves too, inside an opening as inside an append.
#![tactic(auto)]

mod base;
mod error;
mod laws;
mod read;
mod read_wal;
mod reserved;
mod segment;
mod wal;

pub use error::WalError;
pub use laws::{
    a_log_is_read_in_one_way, acknowledged_cut_comes_first, stored_cut_is_acknowledged,
};
pub use read_wal::ReadWal;
pub use segment::{NewSegment, Written};
pub use wal::Wal;
