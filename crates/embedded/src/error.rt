use basilcorbel::{CopyError, OpenError, TxnError, WordError};
use std::alloc::AllocError;
use std::fmt;

/// Why there is nothing to tell of the transfer.
#[derive(Drop)]
pub(crate) enum BankError {
    Memory,
    /// A word is none that the store takes.
    Word,
    /// The store was not opened.
    Opening(OpenError),
    /// A call on the store was refused.
    Refused(TxnError),
    /// A transaction is undone, and not closed yet.
    Undone,
    /// The store was not copied.
    Copying(CopyError),
}

impl From<AllocError> for BankError {
    fn from(_error: AllocError) -> BankError {
        BankError::Memory
    }
}

impl From<WordError> for BankError {
    fn from(error: WordError) -> BankError {
        match error {
            WordError::Memory => BankError::Memory,
            WordError::BadWord => BankError::Word,
        }
    }
}

impl From<TxnError> for BankError {
    fn from(error: TxnError) -> BankError {
        BankError::Refused(error)
    }
}

impl fmt::Display for BankError {
    fn fmt<W: fmt::Write>(&self, f: &mut fmt::Formatter<W>) -> fmt::Result {
        f.write_str(match self {
            BankError::Memory => "out of memory",
            BankError::Word => "a bad word",
            BankError::Opening(_) => "the store was not opened",
            BankError::Refused(_) => "the store refused",
            BankError::Undone => "an undo is not closed",
            BankError::Copying(_) => "the store was not copied",
        })
    }
}
