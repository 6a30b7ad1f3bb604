//! Snapshots that are registered.
ghost use Rattle.std.specs.Prelude.{◌≡◌};

use std::marker::Model;
use wp_model::Seq;

/// The smallest of a number of which nothing better is known than that no version is below 1.
pub(crate) const NOTHING_KNOWN: Seq = 1;

/// A snapshot that is registered, at which its seat reads. It has to be released.
pub struct Snapshot {
    pub(crate) number: Seq,
    pub(crate) smallest: Seq,
}

impl Model for Snapshot {
    ghost use Rattle.wp_core.specs.Reading.{Registration};

    ghost Value = { Registration };

    ghost view = { λ s. record { number = s.number; smallest = s.smallest } };
}

impl Snapshot {
    /// The number of the last entry that a reader at it sees.
    pub fn number(&self) -> Seq
        ensures { result ≡ self.now.number }
    {
        self.number
    }

    /// Each version below it is decided, and visible at the snapshot.
    pub fn smallest(&self) -> Seq
        ensures { result ≡ self.now.smallest }
    {
        self.smallest
    }
}

/// All that was live at one moment. Each of its snapshots has to be released.
pub struct Pinned {
    /// The number that was published then.
    pub floor: Snapshot,
    /// Each number that was live before, once more, ascending.
    pub live: Vec<Snapshot>,
}
