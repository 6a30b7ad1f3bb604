//! A history in memory, from a base on.
//!
//! In memory are the entries behind the base, the prepares that were undecided there, and what the store had under its keys
//! there. Clauses see the full list, numbered from 1, that stands for these and the versions of the tables that the store was
//! opened with: nothing counts up to the base, and what is asked is asked from the base on. A history without a base has the
//! base 0 and nothing below.
//!
//! An `Outline` is what a log tells by itself: which entry may follow hangs on the undecided prepares alone, of which it knows
//! the numbers, so that a put asks only these which keys are held. Its full list has no versions below the base yet. A
//! `History` has the store's values at the base too, and stays legal: what an undo restores was judged. `Holders` are for an opening, which
//! asks of each entry that was logged: they tell by a name or a key which prepare has it.
#![tactic(auto)]

mod history;
mod holders;
mod last_changes;
pub mod laws;
mod legality;
mod numbers;
mod outline;
mod prepares;
mod stored;
mod values;

pub use history::History;
pub use holders::{Holders, HoldersError};
pub use outline::Outline;
