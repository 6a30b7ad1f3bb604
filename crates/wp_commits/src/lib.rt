//! The write side of the commit cache: words are cleared, and pairs are entered.
//!
//! The cache is lossy. A pair takes the place of the one that its word had, and what a reader then needs of that one has to
//! be elsewhere before. So a word is cleared first, by the holder of the write turn:
//!
//! - The evicted bound rises to the decision of the pair that is to go. Numbers of the prepared heap up to it become delayed ones
//!   in the same step, and the delayed flag is up before.
//! - Under the prepared turn the pair becomes a delayed commit, where its number is prepared still: a transaction leaves the
//!   prepared sets only once its commit is published and the write turn is given.
//! - Under the snapshots turn its number is kept under each live number that overlaps it, with the old-map flag up.
//!
//! A pair that decided itself, of a direct write or of an undo, overlaps no snapshot and is no prepared one's: for it the bound
//! alone may have to rise.
//!
//! A pair whose numbers are too far apart has no word. It becomes a delayed commit where its word would be stored, once the bound has
//! come to its number, so that a reader looks for it there; and it waits in the prepared sets until a later clearing finds the bound
//! at its decision. Each clearing takes out all that the bound has passed so, under both turns.
//!
//! That the pair may go is noted, and stays so until the word is stored, whatever others do: `clear_all` takes all memory before
//! a record is logged, for each pair that its entries decide, and `enter` stores the word of one after it and takes none. A pair may
//! take the place of an earlier one of its record that decided itself. `Way` says how a pair is kept. `forget_prepared` is the late
//! clean-up.
//!
//! The calls are made of small ones in `steps`, one for each step of the machine of `wp_core`, that say what is left of the seat.
//! The turns are taken in their order. All calls wait.
#![tactic(auto)]

mod bound;
mod cleanup;
mod clear;
mod entering;
pub mod laws;
mod pair_note;
mod passing;
mod steps;
mod way;

pub use bound::bound_past;
pub use cleanup::forget_prepared;
pub use clear::clear_all;
pub use entering::enter;
pub use way::Way;
