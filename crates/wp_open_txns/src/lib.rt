//! The transactions of a shared store that make no entry: their names, the keys that they lock, and the board.
//!
//! Each call is a free function over the store and the caller's seat, and begins and ends with a seat that holds no turn. What
//! it does it does while it holds the turn that guards the state concerned, by steps of the machine of `wp_core`; its
//! clause says what the seat's actor then has and remembers, and of a refusal also what the state held as it found that.
//!
//! - `begin` claims a name for an open transaction. `stage` takes a change into its batch, and `lock` reads a key for it: both lock
//!   the key first, where the transaction has nothing of it. `abandon` drops the transaction, with its pin, its name and its keys.
//! - `pin` gives the transaction a snapshot of all that is published. A key that comes to it later has to be unchanged since: behind
//!   the lock of the key the history tells whether it is, and if not, the key is free again and the number of the last change is the
//!   answer. So from the pin to its own end none of its keys is changed by others.
//! - `leave` gives up a prepared transaction, whose name stays live and whose keys stay held, and `take_prepared` takes one that
//!   nobody has.
//! - `undecided_at` gives the prepares that are undecided at a snapshot, as a base carries them, and `undone_at` tells whether that stands
//!   between an undo and its close.
//! - `tell` and `hear`: labels on a board, by which one client lets another see what it has seen.
//!
//! A transaction is a value that has to be spent: it is handed to the call that ends it, and comes back where that is refused.
//! `abandon`, `leave`, `hear` and `undone_at` take no memory; all others may be refused for want of it, and then leave the transaction as it was,
//! and the seat but for what it has seen. The calls that make entries are those of `wp_txn`, which passes these on; it locks the key
//! of a direct write and frees what is decided as these do (`lock_for`, `free`).
#![tactic(auto)]

mod board;
mod changes;
mod error;
mod locking;
mod names;
mod pinning;
mod prepared;
mod steps;
mod txn;
mod undecided;
mod validating;

pub use board::{hear, tell};
pub use changes::stage;
pub use error::{Refused, TxnError};
pub use locking::{free, lock_for};
pub use names::{abandon, begin};
pub use pinning::{pin, unpin};
pub use prepared::{leave, take_prepared};
pub use txn::{OpenTxn, PreparedTxn};
pub use undecided::{undecided_at, undone_at};
pub use validating::{Locked, lock};
