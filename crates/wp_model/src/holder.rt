ghost use Rattle.std.specs.Prelude.{◌≡◌, IfOk};
ghost use Rattle.wp_model.specs.Holder.{is_same, is_same_txn};

use crate::Name;
use std::alloc::{AllocError, Global};

/// Who holds a key.
#[derive(Debug, Drop)]
pub enum Holder {
    /// The transaction of that name.
    Txn(Name),
    /// A direct write of that client.
    Client(Name),
}

impl Holder {
    /// The same holder once more.
    pub fn copy(&self, alloc: Global) -> Result<Holder, AllocError>
        ensures { IfOk result (λ holder. holder ≡ self.now) }
    {
        match self {
            Holder::Txn(name) => Ok(Holder::Txn(name.copy(alloc)?)),
            Holder::Client(name) => Ok(Holder::Client(name.copy(alloc)?)),
        }
    }

    /// Whether both are the same transaction or the same client.
    pub fn is_same(&self, other: &Holder) -> bool
        ensures { result ≡ is_same self.now other.now }
    {
        match (self, other) {
            (Holder::Txn(name), Holder::Txn(other)) => name == other,
            (Holder::Client(name), Holder::Client(other)) => name == other,
            (Holder::Txn(_), Holder::Client(_)) | (Holder::Client(_), Holder::Txn(_)) => false,
        }
    }

    /// Whether both are the same transaction.
    pub fn is_same_txn(&self, other: &Holder) -> bool
        ensures { result ≡ is_same_txn self.now other.now }
    {
        match self {
            Holder::Txn(_) => self.is_same(other),
            Holder::Client(_) => false,
        }
    }
}
