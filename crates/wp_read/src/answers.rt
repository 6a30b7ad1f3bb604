//! What is known of a version once as much was loaded as needs no turn.

use wp_judge::Observed;
use wp_model::Seq;

/// What the first word of a version and the first load of the bound say of it.
#[derive(Clone, Copy)]
pub enum Look {
    /// The version is visible, or it is not.
    Decided(bool),
    /// This word was loaded, which is another version's, and this bound, which the version is not above.
    Ask { word: u64, max: Seq },
}

/// What the loads that need no turn say of a version.
#[derive(Clone, Copy)]
pub enum Free {
    /// The version is visible, or it is not.
    Decided(bool),
    /// Something is delayed, so that the prepared sets have to be looked into.
    Prepared(Observed),
    /// The old commit map has something, so that it has to be looked into.
    Snapshots(Observed),
}
