//! A store that is opened from its devices, for clients to share.
//!
//! What an opening hands out goes behind the turns, in their order, which are then an opening world of the machine. The first seat is
//! made, and has seen the history that was opened. Where memory is wanting the devices come back.
#![tactic(auto)]

mod filling;
mod opening;

pub use opening::{open_shared, share};
