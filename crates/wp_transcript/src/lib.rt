//! What a call of the program tells: the text of what the clients were answered.
//!
//! It is a transcript, with the one history that explains the replies; or, of a script that the program made, a summary.
#![tactic(auto)]

mod text;
mod transcript;

pub use text::{log_failed, tables_failed, text_of};
