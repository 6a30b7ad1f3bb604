//! The three devices of a store, and what they have: what is left of each, and to which history their bytes open. All of it is in
//! `specs/`.
#![tactic(auto)]
