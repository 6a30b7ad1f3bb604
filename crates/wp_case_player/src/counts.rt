//! How much was played.

/// How many cases were played, and how many of them did not come out as they say; and in their sweeps, how many calls of devices went
/// wrong each by itself, how many pairs of calls did, and how often what a crash may leave had to open.
#[derive(Clone, Copy)]
pub(crate) struct Counts {
    pub(crate) cases: usize,
    pub(crate) failed: usize,
    pub(crate) calls: usize,
    pub(crate) pairs: usize,
    pub(crate) images: usize,
}

pub(crate) fn raise(count: &mut usize) {
    *count = count.saturating_add(1);
}

impl Counts {
    pub(crate) fn none() -> Counts {
        Counts {
            cases: 0,
            failed: 0,
            calls: 0,
            pairs: 0,
            images: 0,
        }
    }

    /// Of both together.
    pub(crate) fn with(self, more: Counts) -> Counts {
        Counts {
            cases: self.cases.saturating_add(more.cases),
            failed: self.failed.saturating_add(more.failed),
            calls: self.calls.saturating_add(more.calls),
            pairs: self.pairs.saturating_add(more.pairs),
            images: self.images.saturating_add(more.images),
        }
    }
}
