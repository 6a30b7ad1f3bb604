//! A copy of a store at one number, on three empty devices: one table of the rows and the carried versions, a log that begins
//! at the number as its base, and a manifest.
//!
//! The rows come one by one through a trait, so that nothing of a store is asked for but these: whoever has rows at a number, and
//! the prepares that are undecided there, may copy them. Targets are looked at before the rows are, and all memory is taken before the
//! first write: a refused copy leaves its target as it was, but where a device failed. The manifest is written last. Before it is
//! there, a crash leaves an empty store, or a log whose base no manifest names, which is refused; then it leaves the copy.
#![tactic(auto)]

mod copying;
mod error;
mod image;
mod looking;
mod rows;
mod writing;

pub use copying::{Copied, checkpoint};
pub use error::{CopyError, CopyRefused};
pub use rows::Rows;
