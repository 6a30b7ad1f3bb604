//! The seats of a script's clients, and the memory for their sessions.
//!
//! All that the sessions of a script take at once is taken before its store is opened (`Seating`): so where memory is wanting for
//! it, no device was called yet. The opened store's first seat makes the others, one for each client behind the first; each gets a
//! session (`Session`), which `wp_threads` runs, and is handed in with what its client was answered (`part_all`).
#![tactic(auto)]

mod room;
mod seating;
mod session;

pub use room::Room;
pub use seating::Seating;
pub use session::{Session, part_all, seat_all};
