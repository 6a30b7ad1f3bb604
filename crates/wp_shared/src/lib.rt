//! The shared store: the words under the rule of `wp_rule`, a value behind each of six turns, and the seats by which the threads
//! of clients use them.
//!
//! Each call borrows the store shared, and the thread's own seat for itself. No clause says what the store is, since other
//! threads go on meanwhile; it says what the seat knows: the actor of the machine of `wp_core` that makes the seat's steps, as
//! an equation, and that a sound world stands behind it.
//!
//! - `Shared::new`: the values go behind the turns as they were opened, and the first seat is made.
//! - `Shared::take_turn`, `take_log` and `give_turn`: a turn with the value behind it. A value goes home as its holder left the
//!   turn's state.
//! - `Shared::published`, `max`, `word`, and in `steps` every load and store for the crates above, whose calls are made of them.
//! - `Shared::note` and `learn`: what one seat has seen, for another one to have seen too.
//! - `Shared::seat` and `finish`: the first seat makes the others, and at the end all are handed in for the history and the devices.
//!   What each seat did and found is accounted for then, and whatever a crash leaves of the devices opens.
//!
//! `take_turn` and `take_log` alone wait, and `new` alone takes memory.
#![tactic(auto)]

mod ending;
mod note;
mod opening;
mod seat;
mod shared;
mod sleepers;
mod steps;
mod turns;

pub use ending::Finished;
pub use note::Note;
pub use seat::Seat;
pub use shared::Shared;
pub use wp_parts::{Log, ReadyInstall, Stock, VersionSet, WrittenInstall};
