//! The live snapshots: which snapshot numbers are registered, how often, and what the old commit map has under
//! each.
//!
//! A snapshot number is live from its first registration to the release of its last. A reader at s takes a number
//! whose pair left the commit cache for committed by s, unless the old commit map has it under s. So before the pair
//! (p, c) leaves, p is kept under each live s with p <= s < c. A number that becomes live later is at least c, and
//! needs nothing of it.
#![tactic(auto)]

pub use live::Live;
pub use snaps::Snaps;

mod kept;
mod live;
mod snaps;
mod snapshot;
