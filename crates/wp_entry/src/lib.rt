//! The records of the log: what one append makes durable, as one run of bytes.
//!
//! A record is the number of its first entry, its kind, and what the entries of that kind hold. Each list of
//! entries that is a record has one spelling in each version of the format, and these differ in how wide numbers are:
//! the caller says which. `push_record` gives it, and `read_record` takes nothing else: it names the first fault from
//! the left. Whether an entry may be in a history at all is asked elsewhere.
//!
//! A log of the second version begins with a base record, which `push_base` and `read_base` give and take likewise.
#![tactic(auto)]

mod base;
mod error;
mod laws;
mod layout;
mod reading;
mod writing;

pub use base::{Base, push_base, read_base};
pub use error::RecordError;
pub use laws::{bases_are_read, records_are_read, spellings_differ};
pub use reading::read_record;
pub use writing::push_record;
