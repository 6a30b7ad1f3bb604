//! The sessions of all clients at one shared store, and the one history that explains them.
//!
//! Each client has a seat of its own, and its session runs on a thread of its own where one can be made. `specs/SoFar.antt` is
//! what is kept from one command of a session to the next: whatever agrees with the seat allows the replies so far, the seat
//! published just what they acknowledge, and what is in its past is there by a command and its reply. `specs/Over.antt` is what a
//! session leaves of its seat. Once all seats are handed in, nobody else did anything: so what one client found of the others,
//! another one was answered, and the history that is left explains all replies (`specs/Explained.antt`).
//!
//! A session in which memory is wanting breaks off alone, and the others run on.
#![tactic(auto)]

mod ending;
mod script;
mod session;
mod threads;

pub use ending::{ScriptRun, end_idle};
pub use script::run_script;
pub use wp_seats::Seating;
