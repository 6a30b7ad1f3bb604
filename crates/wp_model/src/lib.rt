//! The words of the store: keys, values and names, the batches that transactions make of them, the entries of the
//! history that all clients share, and the versions of keys that they leave.
//!
//! The definitions that several layers cite are here: what a history says of the store (`History`, `Legal`,
//! `Decision`), which versions show a reader what it holds (`Versions`, `Covered`), and what the sets of prepared
//! transactions, snapshots and locks are to those who read their contracts.
#![tactic(auto)]

mod batch;
mod carried;
mod change;
mod entry;
mod holder;
mod limits;
mod row;
mod segment;
mod version;
mod versions;
mod word;
mod word_bytes;

pub use batch::{Batch, MOST_KEYS, SetError};
pub use carried::Carried;
pub use change::Change;
pub use entry::{Entry, MOST_COMMITS};
pub use holder::Holder;
pub use limits::limits_are;
pub use row::Row;
pub use segment::Segment;
pub use version::{Version, copy_value};
pub use versions::Versions;
pub use word::{
    Key, MOST_KEY_BYTES, MOST_NAME_BYTES, MOST_VALUE_BYTES, Name, Value, Word, WordError,
};

/// The number of an entry, from 1 on. 0 stands for the empty history.
pub type Seq = u64;
