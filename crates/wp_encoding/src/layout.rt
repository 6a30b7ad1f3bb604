//! The bytes that tell changes apart.

/// The byte before a change that deletes its key.
pub(crate) const DELETION: u8 = 0;

/// The byte before a change that puts a value under its key.
pub(crate) const PUT: u8 = 1;
