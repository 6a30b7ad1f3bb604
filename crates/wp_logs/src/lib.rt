//! The manifest and the log of a store, in the order in which they are opened.
//!
//! A manifest that was made is opened first, wholly, so that nothing is repaired by an edit that a crash may take. The log is read at the place
//! that its last edit names, and where it is of another store it stays as it was found; else it is repaired. Where no manifest was made, the log is
//! opened where its device begins, and a manifest is made with its id.
#![tactic(auto)]

mod logs;
mod manifest;

pub use logs::{Logs, open_logs};
