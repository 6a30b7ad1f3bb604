//! Scans: the rows of a range of keys at a snapshot, one by one.
//!
//! A scan keeps a place between keys, and nothing of the store: no turn, no list, and no number. Each step asks for the
//! next key that the store has a version of, at one moment, and reads it at later ones. What the history leaves at a
//! snapshot under a key doesn't change, so the moments need not agree, and others write, flush, compact and renew
//! between two steps. The snapshot is handed to each step: the rows of one range are those of one snapshot where the
//! caller hands in the same.
#![tactic(auto)]

mod scan;

pub use scan::Scan;
