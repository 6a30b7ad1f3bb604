//! Who sleeps until a turn is given.

use std::sync::atomic::AtomicUsize;
use std::sync::atomic::Ordering::SeqCst;

/// How many seats sleep, or are about to, until some turn is given. Who gives a turn asks, so that nobody is woken where nobody sleeps.
///
/// No sleeper is missed. A seat counts itself before it looks at the turn's word once more and sleeps where that is held; who gives
/// the turn frees the word before it asks. So it sees the count of who found the word held by it; and who counts itself later finds
/// the word free, or held by a later holder, who asks behind its own giving.
#[derive(Drop)]
pub(crate) struct Sleepers {
    count: AtomicUsize,
}

impl Sleepers {
    pub(crate) fn new() -> Self {
        Sleepers {
            count: AtomicUsize::new(0),
        }
    }

    /// A seat is about to sleep.
    pub(crate) fn enter(&self) {
        self.count.fetch_add(1, SeqCst);
    }

    /// It sleeps no more.
    pub(crate) fn leave(&self) {
        self.count.fetch_sub(1, SeqCst);
    }

    pub(crate) fn are_there(&self) -> bool {
        self.count.load(SeqCst) > 0
    }
}
