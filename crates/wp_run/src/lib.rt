//! The program: a script with one part per client is run over one store, which is on three devices.
//!
//! The top call is `run`. It takes what it does from the words of a command line, opens the store, answers the clients of the
//! script, each on a thread of its own where one can be made, and writes their replies and the one history that explains them;
//! or, where it made the script itself, a summary of these. The text is built whole before its first byte is written.
#![tactic(auto)]

mod serve;
mod top_call;

pub use top_call::run;
pub use wp_refused::Bad;
pub use wp_status::{Ended, Status};
