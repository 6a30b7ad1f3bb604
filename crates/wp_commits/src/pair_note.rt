use wp_model::Seq;

/// What is noted: of the pair of the word at this place, before it may be evicted; of the pending entry's pair; or of all that is
/// prepared.
#[derive(Clone, Copy)]
pub(crate) enum PairNote {
    /// Its decision is at most the bound.
    Passed(usize, Seq, Seq),
    /// The old commit map has it under each live snapshot that it overlaps.
    InOldCommits(usize, Seq, Seq),
    /// It is of no prepared transaction, or a delayed commit.
    Apart(usize, Seq, Seq),
    /// The pending entry's pair is a delayed commit.
    PairDelayed,
    /// No prepared number is decided at the bound or before, but those that are in their words.
    NoneWaits,
}
