use crate::pairs::Pairs;
use wp_model::{Holder, Name, Seq, Value};

/// What a client is answered for one command. Each number is that of an entry of the one history, 0 before the first.
#[derive(Drop)]
pub enum Reply {
    /// The value is in the history, as the entry with this number.
    Put(Seq),
    /// The deletion is in the history, as the entry with this number.
    Del(Seq),
    /// The change is in the batch of the client's transaction.
    Held,
    /// What is committed under the key at this number, and, where the key was to be locked, stays so until the decision, in this run.
    Got(Value, Seq),
    /// Nothing is committed under the key at this number, likewise.
    Missing(Seq),
    /// What the client's own transaction puts under the key.
    GotOwn(Value),
    /// The client's own transaction deletes the key.
    MissingOwn,
    /// The keys of the range that have a value at this number, with these.
    Rows(Pairs, Seq),
    /// The open transaction is pinned, at this number.
    Pinned(Seq),
    /// The snapshot is taken, at this number.
    Snapped(Seq),
    /// The snapshot is released.
    Freed,
    /// The transaction has begun.
    Begun,
    /// The transaction is prepared, by the entry with this number.
    Prepared(Seq),
    /// The transaction is committed, by the entry with this number.
    Committed(Seq),
    /// The transaction is gone. It was not prepared, so the history has nothing of it.
    Dropped,
    /// The prepared transaction is rolled back. The entry with this number closes it.
    RolledBack(Seq),
    /// The prepared transaction is no client's.
    Left,
    /// The prepared transaction is the client's.
    Took,
    /// The transactions are committed, by so many entries, of which the last has this number.
    Settled { last: Seq, count: u64 },
    /// Nothing is settled: the prepares with these two numbers, of two of the names, have one place in the commit cache.
    Crowded { first: Seq, second: Seq },
    /// The number published, which is under the label from now on.
    Told(Seq),
    /// The number published, which is no less than what was told last under the label.
    Heard(Seq),
    /// The command has no place in the state of the client's session.
    State,
    /// The name, of a transaction or a snapshot, is in use.
    Taken(Name),
    /// The transaction has no room for another key, or there is none for another snapshot.
    TooMany,
    /// Another transaction, or another client's direct write, holds the key.
    Busy(Holder),
    /// The key was changed since the transaction's pin, by the entry with this number last.
    Conflict(Seq),
    /// At this number no prepared transaction has the name.
    Unknown { name: Name, at: Seq },
    /// A client has the transaction of this name.
    InUse(Name),
    /// The client has no snapshot of this label.
    UnknownSnapshot(Name),
    /// Nothing was told under the label.
    Silent(Name),
    /// A number that the command needs would pass the limit: the number published, and the limit.
    Full { published: Seq, limit: Seq },
    /// The log's device failed as it took the entry, or as a renewal wrote the log anew. It takes no more in this run.
    FaultLog,
    /// The log's device failed before, or any device in a renewal; this is the number published.
    Stopped(Seq),
    /// Every version numbered up to this, the number published, is in a table; the new table has so many versions.
    Flushed { at: Seq, versions: u64 },
    /// All tables are one, merged when this number was published. It has so many versions; with none there is no table.
    Compacted { at: Seq, versions: u64 },
    /// The log has no entry up to this, the number published, and so many prepares from before, which are undecided. Every version
    /// up to it is in a table.
    Renewed { at: Seq, carried: u64 },
    /// No version stands in memory alone, so there is nothing to flush; or there are too few tables to merge; or the log begins
    /// behind the number published.
    Nothing,
    /// The manifest's device or the tables' failed before; this is the flushed number that the tables have.
    Halted(Seq),
    /// The manifest's device or the tables' failed at the flush, the compaction or the renewal. Neither is called again in this
    /// run. Where it was the renewal, the log takes no more either.
    FaultTables,
}
