//! A renewal of the log of the shared store: it goes on in a segment that begins where the history ends.
//!
//! A renewal holds the tables turn and the write turn throughout, and takes its memory before it calls a device. It writes what stands in
//! memory to a table; then a segment of the log beside the one in use, or over what is dead before it, that begins where the history ends
//! and carries what is undecided there; and installs an edit that names both. Only then the log moves to the segment: so at each moment
//! the place that the manifest names has the history.
//!
//! What a renewal answers, and what is said of it, stands in `wp_maint`, beside a flush.
#![tactic(auto)]

mod renewing;

pub use renewing::renew;
