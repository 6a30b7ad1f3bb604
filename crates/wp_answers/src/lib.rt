//! A client's session at a seat of the shared store, one command at a time.
//!
//! What a client has, what is so of an answer, and the commands that make no entry and no table stand in `wp_client`. Here are the
//! others: changes at once, decisions, of several transactions at once too (`specs/Settling.antt`), and the making of tables, each
//! answered as `specs/Answers.antt` of that crate asks, beside others and alone (`proofs/Alone`). A flush, a compaction and a renewal
//! are answered with what the call made (`specs/Fresh.antt`). `answer` picks the command. One that finds no memory for its reply has
//! none, and ends the session.
#![tactic(auto)]

mod answering;
mod changes;
mod decisions;
mod maintenance;
mod settling;

pub use answering::answer;
pub use wp_client::{Holdings, end};
