//! The script that `make` runs, and the summary of its run.
//!
//! The script is a function of three numbers: a seed, how many clients it has, and how many turns each of them makes. A client has a
//! generator of its own, 64 bits that each draw multiplies and adds to, and it begins at the seed and the client's number. A turn
//! draws what it does; then the key that it needs, and then the value. No two clients have a key or a name in common. The summary
//! counts the replies of each kind, and what the history that is left holds.
#![tactic(auto)]

mod kind;
mod laws;
mod maker;
mod script;
mod sizes;
mod summing;
mod turn;
mod words;

pub use laws::{clients_share_no_word, first_turns};
pub use script::make_script;
pub use summing::summary;
