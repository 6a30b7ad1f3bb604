//! What the rule is told once, when a table is made.
use std::snapshot::Snapshot;
use wp_history::History;
use wp_model::Name;

/// How many words the cache has, and for the proof alone the client of the first seat, the history that is opened and the values
/// behind the turns as they were handed in.
#[derive(Drop)]
pub struct Opening<S> {
    pub cells: usize,
    pub client: Snapshot<Name>,
    pub entries: Snapshot<History>,
    pub first: Snapshot<Vec<S>>,
}
