//! The rule over the shared words: what threads do to an `atomic_table` is what actors do in the machine of `wp_core`.
//!
//! The words are the published number, the evicted bound, the delayed flag and the old-map flag, in one line of memory; six
//! turns, in a line each; and from word 56 on those of the commit cache. Behind each turn lies a slot with the value that the
//! turn guards. A seat is an actor: what it knows, its view, is the actor's state in the machine, under the seat's number.
//!
//! The rule says that the table shows a world, and has the run of the machine that led to it. So each load, store, claim and
//! unclaim is steps of the machine by the seat's actor, and all that is proved of reached worlds holds of the table at
//! each moment. A store is followed by the note of what was stored, and a claim by the notes of what its turn guards, in
//! the same moment. Steps that change no word, as those that change a state that the seat holds, are told to the rule at
//! a load: `make` loads the published number and makes them there. Each call says who the actor is after its steps.
//!
//! While a turn is held its value is out of its slot, and the rule asks nothing of it: what the turn's state is stands in the
//! holder's view, as the holder left it at its last step. The value goes home as that state alone, with its devices.
//!
//! No call waits but `park`, and none takes memory but `Words::new`.
#![tactic(auto)]

pub mod laws;
mod opening;
mod part;
mod plays;
mod rule;
mod steps;
mod word;
mod words;

pub use part::{HoldsPart, Parts};
pub use plays::Moves;
pub use word::Word;
pub use words::{WordSeat, Words};
pub use wp_core::{Actor, Turn};
