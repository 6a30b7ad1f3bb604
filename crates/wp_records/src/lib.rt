//! One record of entries, from its making to the history.
//!
//! A `Record` is its list of entries: a Write, a Prepare, one to sixteen Commits, or an Undo with its Close. `put` is called by the holder of the
//! write turn, and does in this order: it makes the record pending, with all memory that the log and the history need; clears the
//! words of the commit cache for the pairs that its entries decide, or raises the bound to the number of one that fits no word; puts
//! the versions of its changes into memory under the store turn, and the number of a Prepare into the prepared heap under the prepared
//! turn. Then it appends the record to the log, and no want of memory refuses it from there on: for each entry in turn it keeps the pair in its
//! way, in its word or among the delayed commits, and publishes the entry. Where memory is wanting before the log call, or that
//! fails, it takes back what it did, in the opposite order; after a failed log call the log is closed for good. While the log call
//! runs the caller holds no turn but the write turn, as the log's `append` asks.
//!
//! That an entry may come next, and that its keys are held, is the caller's to know. See RocksDB's wiki pages "WritePrepared
//! Transactions" and "Two Phase Commit Implementation".
//!
//! The call is made of the stages in `stages` and `putting`, each of which says what is left of the seat. They make the steps of the
//! machine of `wp_core` where a state changes; those that change none, and what the log call came to, stand in `steps`.
#![tactic(auto)]

mod error;
mod putting;
mod record;
mod stages;
mod steps;

pub use error::WriteError;
pub use putting::put;
pub use record::Record;
pub use wp_commits::forget_prepared;
