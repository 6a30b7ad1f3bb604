//! What a client has at its seat of the shared store, what is so of an answer, and the commands that make no entry and no table.
//!
//! Between two commands the client has a transaction and snapshots (`Holdings`), and its seat has just these. Each command is one
//! call of the crates below, or a few, and what its reply says rests on what the seat then knows: what it has seen of the one
//! history, and what it did and found. `specs/Agrees.antt` says when what a client is judged by agrees with that;
//! `specs/Answers.antt` what is so of one command: whatever agrees with the seat allows the reply, the seat published just what
//! the reply acknowledges, and what is new in its past is there by the command and its reply. A fresh read and a snapshot are at
//! a number that was published as the seat took a snapshot, and what is told and heard was published too (`specs/Fresh.antt`).
//! Where the seat is the only one, the reply is also the very one that is due, and the store is left so.
//!
//! Where no other seat did anything, the world in which a seat stands is told by the seat's own doings: its history is what the
//! seat has seen, for each entry since the opening is the seat's own; the log is closed, and the tables are halted, where the
//! seat met that; the last edit is the last one that it installed; and who has a name or a key is the seat itself, or an
//! undecided prepare. So each call of the layers below, by its own contract, answers what a store answers that one client uses
//! alone: `specs/Alone.antt` says what that store is, `laws` has two laws of it, and `proofs/Alone` a lemma for each outcome of
//! each call.
//!
//! The commands here read, take snapshots and free them, begin and take transactions, pin and change an open one and lock keys for it,
//! and tell and hear; and a session ends. Those that make entries or tables are of `wp_answers`, which picks among all.
#![tactic(auto)]

mod board;
mod ending;
mod holdings;
pub mod laws;
mod naming;
mod pinning;
mod reads;
mod refusals;
mod scanning;
mod snapshots;
mod staging;

pub use board::{hear, tell};
pub use ending::end;
pub use holdings::{HeldSnapshot, HeldTxn, Holdings};
pub use naming::{begin, take};
pub use pinning::{lock, pin};
pub use reads::{get, get_at};
pub use refusals::refusal;
pub use scanning::{scan, scan_at};
pub use snapshots::{free, snap};
pub use staging::stage;
