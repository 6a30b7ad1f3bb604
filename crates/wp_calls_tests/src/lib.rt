//! Tests of the calls on a shared store, over devices in memory.
//!
//! A script is a list of steps of two clients, whose seats are on one thread, each with what it says. A store is opened, the steps
//! are taken, and the first one that says something else ends the test. A step that is refused for want of memory is taken once
//! more: so each script also tells, where an allocation fails, whether the store goes on. What clients of the program can be
//! answered is said by cases; here a reader's loads stand apart, and others come between them. Nor can cases show how far apart
//! numbers may be that fit a word of the greatest cache: that takes more entries than any run has.
//! A copy is made at an old snapshot, behind steps of the two clients.
//!
//! The crate has tests alone. They stand above what they test, so that a check of the tests proves nothing of it again.
#![tactic(auto)]

#[cfg(test)]
mod copies;
#[cfg(test)]
mod groups;
#[cfg(test)]
mod pairs;
#[cfg(test)]
mod pins;
#[cfg(test)]
mod reader;
#[cfg(test)]
mod readers;
#[cfg(test)]
mod scans;
#[cfg(test)]
mod scripts;
#[cfg(test)]
mod stores;
#[cfg(test)]
mod writer;
