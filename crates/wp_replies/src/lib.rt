//! A client's session: what each of its commands may be answered, and what that leaves of the client.
//!
//! A session has a transaction and snapshots. `specs/Replies.antt` is the table of replies: each is given only where its
//! row says so of the history. The rows of `prepare @n` and `commit @n` say of the keys of an open transaction that nobody else changed
//! them: since its pin, and since each came to it. Where nobody else changes the store, `specs/Plan.antt` says exactly what a command asks of
//! it, and `specs/Due.antt` what the reply leaves. The laws tie the exact replies to the table, and say what follows from the
//! table for reads and for acknowledged entries.
//!
//! It has definitions and laws alone: `LabelledSnapshot`, `Numbers` and `Plan` stand in clauses, and nothing makes one.
#![tactic(auto)]

mod client;
pub mod laws;
mod plan;

pub use client::{LabelledSnapshot, MOST_SNAPSHOTS};
pub use plan::{Numbers, Plan};
