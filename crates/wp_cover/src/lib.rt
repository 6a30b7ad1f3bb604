//! The test whether versions show every reader what a history holds, as an opening of a store asks it; and what decides
//! the numbers of a history, which a compaction asks for too.
//!
//! Versions are read where they are: in a list, in tables, or in the history's own entries. They may come in any order.
//! Each that counts has to be that of its entry. The versions of undecided prepares have to be there, and those of an undo
//! that ends the history; each is looked up by halves. At each number that is asked for, two maps are made, whose keys and
//! values are borrowed: what the entries leave, from the first one on, and what the newest version of each key has that is
//! committed there. Both have a key where the store does, so the versions show each reader the store where the two maps
//! are equal. For one number that takes a time that grows with the entries' changes and the versions, but for a
//! logarithm, and the memory of three places in maps for each key.
#![tactic(auto)]

mod covering;
mod decisions;
mod present;
mod shown;
mod sources;
mod store;

pub use covering::{covers, tables_cover};
pub use decisions::Decisions;
