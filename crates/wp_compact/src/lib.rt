//! A compaction of the shared store: its tables are merged to one. It stands on `wp_maint`, which has what it answers as a flush does, and
//! the steps that both make.
//!
//! A compaction first pins all that is live: each live number is registered once more, with the published one as their floor. Whether
//! the numbers of the tables' versions are committed at the floor and at each pinned number is decided as for any reader, without
//! a turn, from the least number on, since what is committed there is so at the greater ones. Under the tables turn it then merges
//! the tables without what no reader at one of these needs, installs an edit with the table that is left, and puts that in place of
//! all under the store turn. Where other calls changed the tables meanwhile, or flushed what is above the floor, it begins again.
//! Last it releases the pins.
#![tactic(auto)]

mod compacting;
mod decided;
mod merging;
mod pins;
mod steps;
mod unchanged;

pub use compacting::compact;
