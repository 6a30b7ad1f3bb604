use wp_model::{Key, Seq, Value};

/// A version in memory, borrowed from there.
#[derive(Clone, Copy)]
pub struct MemoryVersion<'a> {
    pub key: &'a Key,
    /// The number of the entry that wrote it.
    pub number: Seq,
    /// The value, or `None` for a deletion.
    pub value: Option<&'a Value>,
}
