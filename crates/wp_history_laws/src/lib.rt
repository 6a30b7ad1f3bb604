//! How legal histories grow, which prepares they leave undecided, and what the store has under a key, as laws over plain lists.
//! On a legal history that is the newest version of the key that is committed at the number.
#![tactic(auto)]

pub mod laws;
