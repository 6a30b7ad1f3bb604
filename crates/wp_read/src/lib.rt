//! The reads of the shared store: snapshots, whether a version is visible at one, and the value of a key there.
//!
//! A snapshot is a number that its seat registers as it loads it, with the snapshots turn held: so nothing is evicted unseen between
//! the two. One that a client keeps is taken with the prepared turn held too, and has the least prepared number of that moment, below
//! which each version is committed. One for a read or two goes without.
//!
//! A version is decided by loads in the order of `wp_judge`. Mostly its word or the bound decides, and no turn is taken: that is
//! what `look` and `decide_free` do. Where something is delayed, or the old commit map has something, `visible` takes the turn of
//! that state for one look, and gives it again. Others go on between any two loads, and the answer is right all the same: it is
//! whether the history that the seat has seen has the version committed at the snapshot.
//!
//! `get` copies the newest few versions of a key under the store turn, and decides them without it, the newest first. Which of
//! them the store still has may change between two rounds of copies; what was decided of a version does not.
//!
//! `next_row` goes from key to key at a snapshot: it finds the next one under the store turn, with its newest version, and decides it as
//! `get` does.
//!
//! `begin_read` reads a key as it is now under the snapshots turn, without a snapshot that others see, where loads that need no turn
//! show its newest version. Else it gives a snapshot for a `get`. `get_now` does both.
//!
//! `prior` is what a rollback restores: the changes that leave the keys of a batch with what they had at a snapshot.
//!
//! `pin_all` registers each live number once more, with the published one as their floor: while these registrations last, a
//! version that one of them shows has to stay.
//!
//! Each call begins and ends with a seat that holds no turn. Turns are taken in the order prepared, snapshots, store.
#![tactic(auto)]

mod answers;
mod at_once;
mod deciding;
pub mod laws;
mod now;
mod pinning;
mod priors;
mod registering;
mod registration;
mod rows;
mod steps;
mod values;

pub use answers::{Free, Look};
pub use at_once::{Begun, begin_read};
pub use deciding::{decide_free, look, visible};
pub use now::get_now;
pub use pinning::pin_all;
pub use priors::prior;
pub use registering::{brief_snapshot, release, snapshot};
pub use registration::{Pinned, Snapshot};
pub use rows::{KeyRow, next_row};
pub use values::get;
