//! The command line of `wp`: which command a list of words chooses, with its numbers, or that they are refused.
//!
//! The commands are `run`, `show` and `make SEED CLIENTS LINES` of `choice_of`, and `copy` of `copy_choice_of`, and each takes `--bits`,
//! `--limit` and `--id`. `clap` decides which words these commands take. The numbers are read here: decimal digits with no sign and no leading zero. The
//! program has no help and no version. The crate is apart from the program's run, because what rests on
//! `clap` takes long to check.
#![tactic(auto)]

mod choice;
mod command_set;
mod copy_choice;
mod laws;
mod limits;
mod number;

pub use choice::{Action, Choice, StoreOptions, choice_of};
pub use copy_choice::copy_choice_of;
pub use laws::{
    commands_alone_are_taken, copies_are_chosen_apart, copy_words_choose_once,
    numbers_make_a_script, other_words_are_refused, words_choose_once,
};
pub use limits::{MOST_BITS, MOST_CLIENTS, MOST_ID, MOST_LIMIT, MOST_LINES, MOST_SEED};
