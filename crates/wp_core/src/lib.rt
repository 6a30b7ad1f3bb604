//! The core machine: what threads do to the shared words and states, one step at a time, and what stays true of them.
//!
//! A world has the words that all actors load and store, the published number, the evicted bound, two flags and the commit
//! cache; the states that six turns guard; and the actors. A step is one load or one store of one word, one turn taken or
//! given, or one change of a state whose turn the actor holds. A run is a list of such steps of any actors, in any order,
//! from an opening world.
//!
//! A writer takes the write turn, makes an entry pending, puts its versions in memory, logs it, puts its pair into a
//! word of the cache, and then stores the published number: from there on all see it. The word may have had another
//! pair, which that evicts. Before it may, the bound is raised to that pair's decision and the heap's numbers up to the
//! bound move to the delayed set, the pair is noted under each live snapshot that it overlaps, and among the delayed
//! commits where its transaction is still prepared. A pair whose numbers lie too far apart for a word stores none: the
//! bound is raised to its number, and the pair is among the delayed commits from the first. Once the bound has passed
//! its decision, and the pair is noted under each live snapshot that it overlaps, a later writer takes it out there. A
//! reader takes no part in this. It looks at the cache, the bound,
//! what is delayed, the cache and the bound again, and the old commit map, in the order of `wp_judge`, while all of
//! these change.
//!
//! A sound world is a record with a field for each part: the history and its log, the cache, what is decided and where that
//! is to be found, what is undecided, the snapshots, the flags, the versions, names and keys, the actors' pasts, the turns,
//! and what each reader knows by its loads so far.
#![tactic(auto)]

mod actor;
pub mod laws;
mod turn;

pub use actor::Actor;
pub use turn::Turn;
