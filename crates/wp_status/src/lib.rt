//! What a top call of the program hands back: the status by which it ended, and its devices; and the writing of its text.
//!
//! The text is built whole before its first byte is written. The status says whether it was, or what failed before. What a call
//! did to each device that it was handed is a value of its clauses, which the statuses speak of.
#![tactic(auto)]

mod status;
mod writing;

pub use status::{Ended, Status};
pub use writing::write_text;
