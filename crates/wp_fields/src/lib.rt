//! Fields of the store's formats: numbers, the highest byte first, and pieces of bytes.
//!
//! `Fields` takes fields from the front of a record, a table or an edit. The `push` functions put the same
//! fields at the end of a buffer. Each format above is written and read through these alone, so that how a
//! number is written in bytes is said once. The number of an entry is four bytes wide or eight, by the version of the
//! format.
#![tactic(auto)]

mod fields;
mod format;
mod laws;
mod push;

pub use fields::Fields;
pub use format::Format;
pub use laws::{numbers_have_one_spelling, pushed_numbers_are_read};
pub use push::{push_number, push_piece, push_u8, push_u16, push_u32, push_u64};
