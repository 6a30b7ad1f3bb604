//! How keys, names, values, changes and batches are written as bytes and read again.
//!
//! A key or a name is one byte length and its bytes; a value is two bytes length and its bytes. A change is 00 and
//! its key, or 01, its key and its value. A batch is one byte count and its changes, keys strictly ascending. Each
//! has one spelling: the `push` functions write it, and the `read` functions take nothing else and name the first
//! fault from the left.
#![tactic(auto)]

mod error;
mod laws;
mod layout;
mod reading;
mod writing;

pub use error::EncodingError;
pub use laws::{batches_are_read, values_are_read, words_are_read};
pub use reading::{read_batch, read_value, read_value_bytes, read_word, read_word_bytes};
pub use writing::{push_batch, push_value, push_word};
