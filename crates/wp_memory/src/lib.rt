//! The outside in memory: sources, sinks and devices that show what they hold and what a crash may leave, refuse the calls that
//! they are told to refuse, and have no more room than they were made with; and gates that hold clients back.
//!
//! Cases and tests run the store over these. The program stands on none of them.
#![tactic(auto)]

mod copy;
mod counter;
mod gate_disk;
mod hold_gate;
mod mem_disk;
mod mem_sink;
mod mem_source;

pub use gate_disk::GateDisk;
pub use hold_gate::{Hold, HoldGate, Until};
pub use mem_disk::MemDisk;
pub use mem_sink::MemSink;
pub use mem_source::MemSource;
