//! The tables: sorted lists of versions as bytes, written once and never changed.
//!
//! A table is a head, blocks of sixteen versions, an index with the place of each block, and the place of the index.
//! Each list of versions has one spelling in each of the two versions of the format, which differ in how wide the numbers
//! of entries are. `wp_build` writes the second. `Table::of` takes either and nothing else: it names
//! the first fault from the left. Above, a table is its list of versions. It keeps its bytes and the places of its blocks,
//! and is searched there: what it gives is borrowed from the bytes.
#![tactic(auto)]

mod all;
mod built;
mod error;
mod found;
mod laws;
mod layout;
mod reading;
mod steps;
mod table;
mod version;

pub use all::All;
pub use built::Built;
pub use error::TableError;
pub use found::Found;
pub use laws::{bytes_are_read_in_one_way, limits_are, tables_are_read, tables_have_one_store};
pub use layout::{BLOCK, DELETION, MAGIC, PUT, blocks_for};
pub use steps::Steps;
pub use table::Table;
pub use version::VersionRef;
