use crate::Seq;

/// A part of the log's device on which a store lives.
#[derive(Clone, Copy)]
pub struct Segment {
    /// Where on the device it begins, in bytes.
    pub place: u64,
    /// The number up to which it has no entries: they are numbered from the next one on.
    pub base: Seq,
}
