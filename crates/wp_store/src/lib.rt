//! The store of versions: memory, frozen parts and tables as one list of versions by key.
//!
//! The versions of new entries go to memory. A flush freezes it: what stood there becomes a frozen part, which the flush
//! shares and writes to a table, while it is read as before. The table then takes the place of the frozen parts. A compaction
//! writes one table in place of all. The parts have an order, memory first and the oldest table last: of two versions
//! with one key and number the earlier part's counts. A look-up goes to each part for the newest versions of one key,
//! and copies no others. The next version behind a place is the least of what each part has next, and the only one that is
//! copied, so that keys can be gone through one by one.
#![tactic(auto)]

pub use frozen_parts::FrozenParts;
pub use sources::{merged, merged_tables};
pub use store::Store;

mod frozen_parts;
mod newest;
mod next_version;
mod sources;
mod store;
