//! Tables as they are built: a list of versions is spelled, in the second version of the format.
//!
//! A table is spelled part by part, as `wp_table` says what its spelling is, and the places of its blocks are kept beside it. So
//! what is built is a table for readers with no second look at its bytes.
#![tactic(auto)]

mod writing;

pub use writing::build;
