use wp_model::{Name, Seq};

/// How many snapshots a client may have at once.
pub const MOST_SNAPSHOTS: usize = 64;

/// A snapshot of a client: the state of the store when this number was published.
pub struct LabelledSnapshot {
    pub label: Name,
    pub number: Seq,
}
