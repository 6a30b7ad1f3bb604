//! Several sorted lists of versions as one: by key, then newest first.
//!
//! Of two versions of one key and number the one of the earlier list stays, so the lists are given with the newest
//! first: what a later table or the memory says of a number counts. The lists are merged two by two from the last
//! on, each version moved and none copied. Tables are merged one by one, read where they are, and what stays of each is
//! copied. All memory is taken at the making, and the iteration takes none.
#![tactic(auto)]

pub use laws::merged_lists_are_sorted;
pub use merge::Merge;

mod laws;
mod merge;
mod tables;
mod two;
