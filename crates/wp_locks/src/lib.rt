//! The locks turn's state: which transactions' names are live, who holds each key, and what was told.
//!
//! A name is live from its claim until it is freed, and at most one client has it: a client that leaves a prepared
//! transaction keeps the name live for whoever takes it. A key has at most one holder, a transaction or a client's
//! direct write. A key that is held is refused at once, with its holder: nobody waits, so nobody waits in a circle.
//! The board has under each label the number that was told last.
#![tactic(auto)]

pub use error::{LockError, TakeRefused};
pub use locks::Locks;

mod error;
mod left;
mod locks;
