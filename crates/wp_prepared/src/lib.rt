//! The prepared sets: which transactions are prepared and not yet taken out.
//!
//! A prepared transaction goes by the number of its Prepare entry. Above the evicted bound these numbers are in
//! the prepared heap. A number up to the bound that has no word in the commit cache is taken for committed, unless
//! the delayed set has it: so each number at most m moves there before the bound is stored as m. The pair of a
//! committed number may be evicted while the number is still here, and a pair may be too wide for a word. It is then
//! kept in the delayed commits, by which a reader decides. A number leaves all three at once.
#![tactic(auto)]

pub use prepared::Prepared;

mod delayed;
mod heap;
mod prepared;
