//! Numbers of prepares that one record may decide together: no two of them have one place in the commit cache.
//!
//! The pair of each commit goes into the word at the place of its prepare's number. What stands there is cleared away
//! before the record is logged, so no two of its pairs may want one word: the second would go over the first, which
//! no reader may do without yet. A pair that turns out too wide for a word is refused all the same, since the answer
//! is told before the record's numbers are.
#![tactic(auto)]

mod error;
mod group;

pub use error::GroupError;
pub use group::Group;
