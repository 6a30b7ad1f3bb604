//! The program that copies a store: `run_copy`, a top call beside `run` of `wp_run`.
//!
//! It takes what it does from the words of a command line, opens the store, copies it at its last entry to three empty devices, ends
//! the store, and writes one line of what was copied. A target is not called before the store stands open, and the line is written
//! once the copy is whole; so where no line was written there may be none.
#![tactic(auto)]

mod copy_call;
mod line;
mod store_copy;

pub use copy_call::run_copy;
pub use wp_refused::Bad;
pub use wp_status::{Ended, Status};
