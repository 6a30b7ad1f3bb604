//! A log of records after gates, on a disk of its own. It stands at a place of the disk; what stands before it, and what
//! follows the closed gate that ends it, is dead to it.
//!
//! Each record follows a gate, one byte that is closed (00) or open. An append writes the record and the next
//! gate, closed, after the closed gate that ends the log; syncs; opens that gate; syncs. So a crash at any moment
//! leaves the records before it, or those and the new one, and no checksum is trusted for that. The head has a gate
//! too, so a log that is being made counts as none. An opening reads the records before the first closed gate. Then,
//! once whoever opens it has judged them, it cuts what follows that gate, and writes the gates that a crash left
//! neither closed nor 01. Its records stay where they were acknowledged, whenever it breaks off.
#![tactic(auto)]

mod device;
mod error;
mod frame;
mod gate;
mod head;
mod laws;
mod log;
mod make;
mod open;
mod piece;
mod read_log;
mod repair;
mod scan;
mod stored_record;
mod whole;

pub use error::{DiskRefused, LogError};
pub use frame::Frame;
pub use laws::{
    acknowledged_records_come_first, bytes_are_read_in_one_way, logs_at_a_place_are_read_in_one_way,
};
pub use log::{AppendError, GateLog};
pub use make::make_whole;
pub use read_log::ReadLog;
pub use stored_record::StoredRecord;
pub use whole::WholeLog;
