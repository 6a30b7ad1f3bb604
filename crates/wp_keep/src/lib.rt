//! Which versions stay when old ones are let go, as at a compaction.
//!
//! A floor is a number that no reader without a snapshot goes below. What is not committed at the floor stays, and of
//! what is committed there only the newest of its key at the floor and at each snapshot. A deletion says no more than
//! a missing key does where nothing older of its key stays, so it goes too. One pass over the versions, which are
//! newest first, finds what stays: of the newer versions of a key it needs but the least number by which one of them
//! is committed. A second pass, from the oldest on, leaves the deletions out.
#![tactic(auto)]

pub use pair::Pair;
pub use retained::keep;

mod commits;
pub mod laws;
mod newer;
mod pair;
mod remaining;
mod retained;
mod staying;
