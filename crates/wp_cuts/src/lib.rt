//! A history cut at a base, over plain lists: what a log with a base spells, and the full list that stands for it.
//!
//! A log need not begin with the first entry. It may begin at a base, with the prepares that were undecided there, and
//! a store's versions give the values that its keys had at the base. From that base on, nothing depends on what stood
//! below it: the laws say that all legal lists with one cut and the same values agree there, and that the full list,
//! which has just the store's versions below the base, is one of them.
#![tactic(auto)]

pub mod laws;
