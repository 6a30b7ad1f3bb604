use wp_model::Seq;

/// What the prepared tables say of a version.
#[derive(Clone, Copy, PartialEq, Eq)]
pub enum InPrepared {
    /// Neither the delayed set nor the delayed commits have it.
    Absent,
    /// The delayed set has it, and the delayed commits do not.
    Delayed,
    /// The delayed commits have it, decided by this number.
    Decided(Seq),
}

/// What a reader loads, one at a time.
#[derive(Clone, Copy, PartialEq, Eq)]
pub enum Load {
    /// The word at the version's place in the commit cache.
    FirstWord,
    /// The evicted bound.
    FirstMax,
    /// The flag that is 0 only where nothing is delayed.
    DelayedFlag,
    /// The delayed set and the delayed commits, which the prepared turn guards.
    InPrepared,
    /// The word once more.
    SecondWord,
    /// The bound once more.
    SecondMax,
    /// The flag that is 0 only where the old commit map is empty.
    OldFlag,
    /// The old commit map under the reader's snapshot, which the snapshots turn guards.
    IsOldCommit,
}

/// What a reader is to do by what it loaded.
#[derive(Clone, Copy, PartialEq, Eq)]
pub enum Asked {
    /// Make this load.
    Load(Load),
    /// Nothing more: the version is visible, or it is not.
    Answer(bool),
}

/// What a reader of one version has loaded so far, as far as it needed to. A word is as it was loaded.
#[derive(Clone, Copy, PartialEq, Eq)]
pub struct Observed {
    /// How many bits a place of the commit cache has: at most 16. By them a word is read.
    pub bits: u32,
    /// The number of the version.
    pub version: Seq,
    /// The snapshot's number.
    pub snapshot: Seq,
    /// The snapshot's smallest: each version below it is decided, and visible at the snapshot. 1 where no better number
    /// is known.
    pub smallest: Seq,
    pub first_word: Option<u64>,
    pub first_max: Option<Seq>,
    pub delayed_flag: Option<u64>,
    pub in_prepared: Option<InPrepared>,
    pub second_word: Option<u64>,
    pub second_max: Option<Seq>,
    pub old_flag: Option<u64>,
    pub is_old_commit: Option<bool>,
}
