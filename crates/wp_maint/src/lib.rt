//! Maintenance of the shared store: what stands in memory goes to tables. `wp_compact` merges the tables and `wp_renew` renews the log, by
//! steps of here.
//!
//! A flush takes the tables turn. Under the write turn and the store turn it freezes what stands in memory, which is all
//! that the history has above the flushed number, up to the published one: it shares it with the store, and copies none of it.
//! It takes all the memory of the install, writes what is frozen to one table, and installs an edit that names it. It holds no turn but
//! the tables turn while it copies versions and calls devices, so that readers and writers go on. Under the store turn the table then
//! takes the place of the frozen versions, which are freed once that turn is given. Until then these are read as before; after a refused
//! flush they stay so, and go with the next one. A compaction and a renewal install their edits in the same stages: memory, table, edit.
//!
//! Once a device of the tables has failed, no other call of it is made, until the store is opened anew.
#![tactic(auto)]

mod done;
mod error;
mod flushing;
mod frozen;
mod installing;
pub mod laws;
mod renewed;
mod steps;

pub use done::Done;
pub use error::MaintError;
pub use flushing::flush;
pub use frozen::{Frozen, ReadyFlush, freeze_in, make_ready};
pub use installing::{install, put_table, with_first};
pub use renewed::{RenewError, Renewed};
pub use steps::{find_edits, find_held, halt, move_versions, note_frozen};
