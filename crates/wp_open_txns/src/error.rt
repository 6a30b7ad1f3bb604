ghost use Rattle.std.specs.Prelude.{◌≡◌};
ghost use Rattle.wp_open_txns.specs.declared.error.TxnError.TheVariants.{Memory};

use std::alloc::AllocError;
use wp_model::{Holder, Name, Seq};

/// Why a call on a transaction was refused.
#[derive(Drop)]
pub enum TxnError {
    /// Memory was wanting.
    Memory,
    /// The name is live.
    Taken(Name),
    /// This one holds the key.
    Busy(Holder),
    /// 64 keys are changed or locked already, and this one is none of them.
    TooMany,
    /// The key was changed since the pin, by this entry last.
    Conflict(Seq),
    /// The board has no such label.
    Silent,
    /// The name is not live; `at` is the number published then.
    Unknown { name: Name, at: Seq },
    /// A client has the transaction.
    InUse(Name),
    /// These two numbers of a group have one place in the commit cache: no number of the group before `second` shares the place of an
    /// earlier one, and `first` is that earlier one.
    Crowded { first: Seq, second: Seq },
    /// The next numbers would be above the limit, the lesser of the store's and the last number of the log's version.
    NumbersFull { published: Seq, limit: Seq },
    /// The log's device failed.
    LogFault,
    /// A log call failed before, when this number was published.
    Stopped(Seq),
}

impl From<AllocError> for TxnError {
    ghost from_gives = { λ _ e. e ≡ Memory };

    fn from(_e: AllocError) -> TxnError {
        TxnError::Memory
    }
}

/// A transaction that a call refused, as it was, and why. It has to be spent.
pub struct Refused<T> {
    pub txn: T,
    pub why: TxnError,
}
