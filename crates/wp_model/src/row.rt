use crate::Seq;
use crate::word::{Key, Value};

/// A key with its value at a snapshot.
#[derive(Drop)]
pub struct Row {
    pub key: Key,
    /// The number of a version with that value, which was committed at the snapshot.
    pub number: Seq,
    pub value: Value,
}
