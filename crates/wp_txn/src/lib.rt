//! Transactions on a shared store that make entries: direct writes, prepares, commits and rollbacks. With them the calls of `wp_open_txns`,
//! by which transactions begin, change and change hands, are passed on.
//!
//! Each call is a free function over the store and the caller's seat, and begins and ends with a seat that holds no turn. Its clause
//! says what the seat's actor then has and remembers, and of a refusal also what the state held as it found that.
//!
//! `write` is one change, written at once: its key is locked for the call alone. `prepare` puts the changes of an open transaction into
//! the log, and `commit` decides them; `commit_now` does both by one entry. `commit_all` decides a group by one record, where no two
//! of its numbers have one place in the commit cache. `rollback` reads what their keys have, at a snapshot of its
//! own, and puts that back, with the end of the prepare in the same record. Each takes the write turn for its record, finds the log
//! running and room under the limit, and has the record made by `wp_records`. Behind the write turn the name and the keys of the
//! transaction are free again, and a decided number leaves the prepared sets, where its pair fits a word.
//!
//! A transaction is a value that has to be spent: it is handed to the call that ends it, and comes back where that is refused. The
//! calls wait for turns, and else for the log's device alone. They may be refused for want of memory, and then leave the transaction as
//! it was, and the seat but for what it has seen. A direct write may then also have locked its key and freed it again, which the seat
//! remembers. Who makes an entry takes all its memory before the entry's append: so behind that nothing but the log's device refuses
//! (`RefusesBeforeLog`).
#![tactic(auto)]

mod deciding;
mod direct;
mod groups;
mod laws;
mod preparing;
mod recording;
mod steps;
mod undoing;

pub use deciding::commit;
pub use direct::write;
pub use groups::commit_all;
pub use laws::{behind_an_append_only_the_device_refuses, validated_keys_keep_their_values};
pub use preparing::{commit_now, prepare};
pub use undoing::rollback;
pub use wp_open_txns::{
    Locked, OpenTxn, PreparedTxn, Refused, TxnError, abandon, begin, hear, leave, lock, pin, stage,
    take_prepared, tell,
};
