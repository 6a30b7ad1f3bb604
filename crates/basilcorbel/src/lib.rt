//! The front door, for a program that keeps a store of its own.
//!
//! A store is on three devices, which a program names as `Disks` of files (`FileDisk`) or of devices of its own that meet `Disk`.
//! `open_shared` opens it or makes it, and hands out the store and its first seat. A seat is what a thread has while it serves a
//! client, and each call is made with one: `Shared::seat` makes another, for another thread. All calls may be made from many threads
//! at once; each waits for its turn, and no call waits for a transaction to be decided.
//!
//! - A transaction: `begin` claims a name, `stage` puts a key or deletes it, under a lock, `prepare` writes the changes to the log, and
//!   `commit` or `rollback` decides them. `commit_now` does without a prepare. `abandon` drops an open one. `leave` gives up a prepared
//!   one, which outlives the store, and `take_prepared` takes it by its name, in this run or a later one.
//! - Several at once: `commit_all` commits up to 16 prepared ones by one record. No two of their numbers may have one place in the commit
//!   cache (`TxnError::Crowded`), which `Group::of` tells of any numbers.
//! - Its pin: `pin` gives an open transaction a snapshot, `OpenTxn::pinned`. A key that comes to it then, by `stage` or by `lock`, which
//!   reads it under a lock, has to be unchanged since: else `TxnError::Conflict`. So who reads by `lock` alone is serializable.
//! - One change at once, by itself: `write`.
//! - Reads: `snapshot` pins a moment of all keys, `get` reads one there, `Scan` the rows of a range one by one, `release` lets
//!   go of it. `get_now` reads one key as of now, and `begin_read` begins to.
//! - Copies: `copy_at` copies the store at a snapshot to three empty devices, with what is undecided there, while all others go on.
//!   Between an undo and its close, which `undone_at` tells, another snapshot is to be taken. `checkpoint` copies any rows at any number.
//! - Between clients: what one has told under a label with `tell`, another sees behind `hear`.
//! - Upkeep: `flush` moves what is in memory into a table, `compact` makes one table of all, and `renew` begins the log anew.
//! - The end: `Shared::finish` takes all seats back, and hands out the history and the devices.
//!
//! Transactions, snapshots and seats are values that have to be spent: where a call refuses, it hands back what it was handed. A key has 1
//! to 64 bytes, a value 1 to 256 and a name 1 to 32, each from 21 to 7E (hexadecimal); a transaction changes and locks at most 64 keys.
//! Each refusal is a value (`OpenError`, `TxnError`, `MaintError`, `RenewError`, `CopyError`, or want of memory), and each contract
//! says when it comes and what it leaves. Before a call a seat has to be free, which each call leaves it: it holds no turn (`IsFree`);
//! and at the end all seats have to be there (`AllFree`, `AreAll`). The modules with these words are passed on with the calls.
#![tactic(auto)]

pub use wp_checkpoint::{Rows, checkpoint};
pub use wp_compact::compact;
pub use wp_copy::{AllRows, Copied, CopyAt, CopyError, CopyRefused, copy_at};
pub use wp_group::{Group, GroupError};
pub use wp_history::History;
pub use wp_maint::{Done, MaintError, RenewError, Renewed, flush};
pub use wp_model::{
    Batch, Carried, Change, Holder, Key, MOST_KEY_BYTES, MOST_KEYS, MOST_NAME_BYTES,
    MOST_VALUE_BYTES, Name, Row, Seq, Value, Word, WordError,
};
pub use wp_open_txns::{undecided_at, undone_at};
pub use wp_opened::open_shared;
pub use wp_outside::{Device, Disk, Disks, Failed, Peek};
pub use wp_read::{Begun, Snapshot, begin_read, get, get_now, release, snapshot};
pub use wp_real::FileDisk;
pub use wp_refused::{Bad, OpenError, OpenRefused};
pub use wp_renew::renew;
pub use wp_scan::Scan;
pub use wp_shared::{Finished, Seat, Shared};
pub use wp_txn::{
    Locked, OpenTxn, PreparedTxn, Refused, TxnError, abandon, begin, commit, commit_all,
    commit_now, hear, leave, lock, pin, prepare, rollback, stage, take_prepared, tell, write,
};
