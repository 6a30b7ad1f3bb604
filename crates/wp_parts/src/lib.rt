//! What lies behind the six turns of the shared store, each value a part of the machine's world.
//!
//! A turn guards a value: the history with its log, the prepared transactions, the snapshots, the versions, names and keys,
//! or the tables on their devices. `BehindTurn` says of each value which turn guards it. A `TurnValue` is any of them, in a box. It
//! lies in the slot of its turn while that is free, and `TurnValue::Away` stands in for it while a seat has it out. Each value
//! stands for one state of the machine, and a call on it makes of that state what a step of the machine does: so a seat that
//! tells the rule the step may put the value home.
//!
//! A `Log` and a `VersionSet` also keep what their devices have: whatever a crash leaves of them is as the state says; since they were
//! opened a device has failed just where it says so, and nothing acknowledged was lost. All memory is taken before a device is called: a
//! record is made pending with what its log and its history need, and an edit is made ready with what its table and its install need.
//! What moves flushed versions from memory to tables takes none.
//!
//! A seat's past shows that it called a device. A table that was written has no `Drop`, nor has a segment: the one is installed, or given
//! up by a seat that remembers since then that the log failed; the log moves to the other, or is stopped with it.
#![tactic(auto)]

mod apart;
mod base;
mod behind_turn;
mod edits;
mod log;
mod stock;
mod table_versions;
mod turn_value;

pub use apart::take_apart;
pub use behind_turn::BehindTurn;
pub use edits::{ReadyInstall, VersionSet, WrittenInstall};
pub use log::Log;
pub use stock::Stock;
pub use table_versions::TableVersions;
pub use turn_value::TurnValue;
