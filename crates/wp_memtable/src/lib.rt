//! The versions that are in memory: what each entry of the history leaves under the keys that it changes.
//!
//! A version is a key, the number of the entry that wrote it, and a value or none for a deletion. The keys are in
//! their order, and each key's versions together, the newest first: so a look-up goes through one key's versions
//! alone. A new entry's number mostly exceeds all that are there, so its versions go to the front. Before the first
//! version of a batch goes in, the memory for all of them is taken. Memory that takes no more versions is frozen: then
//! several hold it, and each takes out of it what it no longer needs.
#![tactic(auto)]

pub use found::Found;
pub use frozen::FrozenPart;
pub use memtable::Memtable;
pub use version::MemoryVersion;

mod bounds;
mod found;
mod frozen;
mod key_versions;
mod memtable;
mod places;
mod several;
mod version;
