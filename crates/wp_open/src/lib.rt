//! The opening of a store from its three devices.
//!
//! A manifest that was made is opened first, wholly, so that nothing is repaired by an edit that a crash may take. Its last edit says
//! where on its device the log begins, up to which number entries were flushed, and where the tables are. The log is opened at
//! that place: it spells a base, what was prepared there and the entries behind it. Where no manifest was made, the log is opened where its
//! device begins, and a manifest is made with its id. Both have one id, and the log is repaired once that is known. The base is flushed, and
//! the log has as many entries as were. The tables' device is synced, also where the edit has no table, so that what was read of it stays;
//! and each table is read, in the edit's order. They say what the store had at the base, so the undos behind it can be judged. Then they are
//! asked whether, with the versions of the later entries, they show every reader what the history holds; not where nothing was flushed and
//! there is none, since then memory does. At last those versions go into memory. The first fault in this order is named, and all three
//! devices are handed back.
#![tactic(auto)]

mod covering;
mod judging;
mod memory;
mod opening;
mod standing;
mod tables;

pub use judging::judged;
pub use opening::{Parts, open_parts};
