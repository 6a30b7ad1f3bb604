//! Records that an opening found.

ghost use Rattle.std.specs.Prelude.{◌≡◌, ℕ, List};

use std::marker::Model;

/// A record of a log. Clauses see its bytes.
#[derive(Drop)]
pub struct StoredRecord {
    bytes: Vec<u8>,
}

impl Model for StoredRecord {
    ghost Value = { List ℕ };

    ghost view = { λ r. r.bytes.items };
}

impl StoredRecord {
    pub(crate) fn of(bytes: Vec<u8>) -> StoredRecord
        ensures { result ≡ bytes.items }
    {
        StoredRecord { bytes }
    }

    pub fn bytes(&self) -> &[u8]
        ensures { result.now ≡ self.now }
    {
        &self.bytes
    }
}
