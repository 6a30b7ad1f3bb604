//! The real outside: files and the standard streams, over std.
//!
//! Each form meets its trait whatever the system answers: it hands on every failure as the one refusal and counts it. Standard
//! input shows what the runtime's reader knows that it will give. Files and standard output show nothing, since nothing is known of
//! what a system keeps.
#![tactic(auto)]

mod counted;
mod file;
mod file_disk;
mod named_file;
mod read;
mod stdin_source;
mod stdout_sink;

pub use file_disk::FileDisk;
pub use stdin_source::StdinSource;
pub use stdout_sink::StdoutSink;
