ghost use Rattle.std.specs.Prelude.{◌≡◌, ◌≤◌, ℕ};
ghost use Rattle.wp_rule.specs.Words.{IsWordOf, word_place};

pub(crate) const MAX: usize = 1;

pub(crate) const DELAYED_FLAG: usize = 2;

pub(crate) const OLD_FLAG: usize = 3;

pub(crate) const FIRST_CELL: usize = 56;

/// A shared word that is loaded beside the published number.
#[derive(Clone, Copy)]
pub enum Word {
    /// The evicted bound.
    Max,
    /// The word of the commit cache with this index.
    Cell(usize),
    /// The flag that is 0 only while nothing is delayed.
    DelayedFlag,
    /// The flag that is 0 only while the old commit map is empty.
    OldFlag,
}

impl Word {
    /// Its place in the table.
    pub(crate) fn place(self) -> usize
        requires { (cells : ℕ) × IsWordOf cells self × (cells ≤ 65536) }
        ensures { result ≡ word_place self }
    {
        match self {
            Word::Max => MAX,
            Word::Cell(i) => FIRST_CELL + i,
            Word::DelayedFlag => DELAYED_FLAG,
            Word::OldFlag => OLD_FLAG,
        }
    }
}
