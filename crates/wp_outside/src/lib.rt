//! The outside of the store: where bytes come from, where they go, and the devices that keep them.
//!
//! Whatever is there may refuse a call, and says so by one refusal whose cause is a count of faults that rose.
//! What it holds is known or not: the forms of `wp_memory` show it, files and standard streams don't. A device shows each
//! of its moments: what a read gives, and what a crash may leave. Everything that the store promises about a crash
//! is said of those. A `Peek` is only read, and may show moments that others make; a `Disk` is its holder's alone.
#![tactic(auto)]

mod disk;
mod failed;
mod gate;
mod sink;
mod source;
mod whole;

pub use disk::{Device, Disk, Disks, Peek, own_len};
pub use failed::Failed;
pub use gate::{Gate, OpenGate};
pub use sink::Sink;
pub use source::{Got, Source};
pub use whole::{ReadError, read_all, write_all};
