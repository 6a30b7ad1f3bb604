use wp_model::Seq;

/// What a flush or a compaction made.
#[derive(Clone, Copy)]
pub struct Done {
    /// The published number up to which it goes.
    pub at: Seq,
    /// How many versions the new table has.
    pub versions: u64,
}
