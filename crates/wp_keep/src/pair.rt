use wp_model::Seq;

/// A number that is committed, and the number that committed it.
#[derive(Clone, Copy)]
pub struct Pair {
    pub number: Seq,
    pub commit: Seq,
}
