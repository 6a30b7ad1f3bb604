//! The tables of a store on its two devices: the manifest, and the device of the table files.
//!
//! The manifest's last edit names the tables, each by its place and length on the other device, where it stands among
//! bytes that are never written again. A new table is written behind all bytes and synced, and only then an edit is
//! installed that names it. So at each moment a crash leaves the old edit or the new one, and the tables of both. Once a
//! device has failed the set is halted: it calls none any more, and a later opening finds which edit there is.
//!
//! An edit is installed in three stages: `ready` takes all its memory and calls no device; `write_table` writes its table, if it has one;
//! `install` makes it the last one, and hands out the table. What the new table takes the place of, the frozen parts or all tables, is data.
#![tactic(auto)]

mod device;
mod gone;
mod set;

pub use gone::Gone;
pub use set::{ReadyEdit, SetDisks, TableSet, WrittenEdit};
