//! A copy of a shared store at a snapshot, made beside whoever goes on with the store.
//!
//! `copy_at` copies to three empty devices what the history leaves at the snapshot, with the prepares that are undecided there. It
//! reads its rows by a scan, which `AllRows` gives to `checkpoint` of `wp_checkpoint`: so the store's turns are held for a look at a
//! time, and others write, flush, compact and renew meanwhile.
//!
//! Between an undo and its close there is no copy: `undone_at` of `wp_open_txns` tells whether the snapshot stands there, and then
//! another one is to be taken.
#![tactic(auto)]

mod copying;
mod rows;

pub use copying::{CopyAt, copy_at};
pub use rows::AllRows;
pub use wp_checkpoint::{Copied, CopyError, CopyRefused};
