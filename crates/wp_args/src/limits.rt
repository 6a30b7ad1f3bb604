//! The ranges of numbers, and the numbers of options that are not given.
//!
//! The least is 1, but for a power of two and for a seed, which may be 0.

/// The greatest power of two of places in the commit cache.
pub const MOST_BITS: u64 = 16;

/// The greatest number that an entry may be given, 2^46 - 1.
pub const MOST_LIMIT: u64 = 70_368_744_177_663;

/// The greatest number of a store, 2^32 - 1.
pub const MOST_ID: u64 = 4_294_967_295;

/// The greatest seed of a script, 2^32 - 1.
pub const MOST_SEED: u64 = 4_294_967_295;

/// As many clients has a script that is made, at most.
pub const MOST_CLIENTS: u64 = 16;

/// As many turns makes each of its clients, at most.
pub const MOST_LINES: u64 = 1000;

/// The power of two where none is given.
pub(crate) const BITS: &str = "10";

/// The limit where none is given: the greatest.
pub(crate) const LIMIT: &str = "70368744177663";

/// The number of the store where none is given.
pub(crate) const ID: &str = "1";
