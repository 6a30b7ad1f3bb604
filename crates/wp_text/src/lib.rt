//! The texts of the store: the script that clients run, and the transcript that answers it.
//!
//! A script is lines of words. Each line is read by itself, as nothing, as the begin of a client's part or as a
//! command, and is then added to the parts that the lines before it spell; the first line that is wrong by itself
//! or has no place there is the script's fault. The grammar is a relation between bytes and parts, and a fault is
//! known from the lines alone, so both are apart from the reader. A transcript is written line by line, each line
//! onto the end of a text.
#![tactic(auto)]

mod fault;
mod keyword;
mod limits;
mod line;
mod lines;
mod names;
mod pairs;
mod read;
mod replies;
mod reply;
mod script;

pub use fault::{Fault, ScriptError, Why};
pub use limits::limits_are;
pub use line::MOST_LINE_BYTES;
pub use lines::{
    base_line, carried_line, client_line, end_line, has_line, history_line, reply_line,
};
pub use names::Names;
pub use pairs::Pairs;
pub use read::{MOST_BYTES, MOST_CLIENTS, one_reading, read_script};
pub use replies::Answered;
pub use reply::Reply;
pub use script::{Command, Commands, Part, Script};
