//! How a reader decides one version: the words of the commit cache, and the order in which a reader loads.
//!
//! A reader of the version p at a live snapshot s takes no turn where it can. The commit cache is lossy, so it may
//! find that the word at p's place is another version's, and has to rule out, one after another, all that this may
//! mean: that p is above the evicted bound and hence not committed, that it is delayed, that its pair came into the
//! cache meanwhile, and that it was committed above s and evicted since. `ask` has this order: by what was loaded so
//! far it names the next load, or has the answer. Which loads a reader makes hangs on nothing else.
//!
//! That the answer is right, whatever others do between two loads, is what the machine of `wp_core` is for.
#![tactic(auto)]

pub mod laws;
mod observed;
mod order;
mod words;

pub use observed::{Asked, InPrepared, Load, Observed};
pub use order::ask;
pub use words::{LAST_SEQ, count_words, fits, pack, unpack};
