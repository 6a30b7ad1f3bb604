//! The manifest: which tables a store has, and which entries are in them.
//!
//! It is a gate log of edits. An edit says up to which number the entries are in tables, and where in the tables' device
//! each table is, the newest first. The last edit counts; without one there is no table. `room` takes all the memory of an install, while
//! places of the edit are not known yet. `install` appends the edit, so at each moment a crash leaves the old edits, or those and
//! the new one.
#![tactic(auto)]

mod edit;
mod error;
mod laws;
mod manifest;
mod read;
mod room;
mod write;

pub use edit::Edit;
pub use error::ManifestError;
pub use laws::{a_manifest_is_read_in_one_way, edits_have_one_spelling};
pub use manifest::{Manifest, is_made, whole};
pub use read::last_edit;
pub use room::EditRoom;
