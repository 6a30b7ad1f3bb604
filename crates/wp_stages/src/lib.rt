//! The stages of a renewal of the log, while the seat holds the tables turn and the write turn: what stands in memory is written to a table;
//! a segment is written beside the log in use; and an edit is installed that names both, behind which the log moves there.
//!
//! Each calls one device, and the seat remembers by steps of the machine what came of it. Where a device of the tables fails the log is
//! stopped. `wp_renew` puts them together; what each leaves stands in `wp_maint`.
#![tactic(auto)]

mod stages;
mod steps;

pub use stages::{install, write_segment, write_table};
pub use steps::find_closed;
