//! How a pair is kept.
ghost use Rattle.std.specs.Prelude.{◌≡◌, ◌<◌, ◌≤◌, ◌^◌, Some};
ghost use Rattle.wp_judge.specs.Words.{CommitPair, commit_pair, seq_end};
ghost use Rattle.wp_core.specs.Entries.{pair_by, pending_pair};
ghost use Rattle.wp_shared.specs.Turns.{history_in};
ghost use Rattle.wp_commits.specs.Ways.{way_of};

use wp_judge::fits;
use wp_model::{Entry, Seq};
use wp_outside::Disk;
use wp_shared::Log;

/// How the pair is kept that an entry decides: a version's number, and the number that decides it.
#[derive(Clone, Copy)]
pub enum Way {
    /// The entry decides none: it is a Prepare.
    Undecided,
    /// In the word of its place.
    InWord(Seq, Seq),
    /// Among the delayed commits: the two numbers are too far apart for a word.
    Delayed(Seq, Seq),
}

impl Way {
    /// How the pair (p, c) is kept in a cache of so many bits, at most 16.
    fn of_pair(bits: u32, p: Seq, c: Seq) -> Way
        requires bits { bits ≤ 16 }
        requires pair { (p ≤ c) × (c < seq_end) }
        ensures { result ≡ way_of (2 ^ bits) (Some (commit_pair p c)) }
    {
        if fits(bits, p, c) {
            Way::InWord(p, c)
        } else {
            Way::Delayed(p, c)
        }
    }

    /// How the pair of the entry with this number is kept.
    pub(crate) fn of(bits: u32, entry: &Entry, n: Seq) -> Way
        requires bits { bits ≤ 16 }
        requires pair { (pair : CommitPair) → pair_by n entry.now ≡ Some pair → (pair.number ≤ pair.decision) × (pair.decision < seq_end) }
        ensures { result ≡ way_of (2 ^ bits) (pair_by n entry.now) }
    {
        match entry {
            Entry::Write(_) | Entry::Undo(_, _) => Way::of_pair(bits, n, n),
            Entry::Prepare(_, _) => Way::Undecided,
            Entry::Commit(p) | Entry::Close(p) => Way::of_pair(bits, *p, n),
        }
    }
}

/// How the pair of the first pending entry is kept.
pub(crate) fn next_way<D: Disk>(bits: u32, log: &Log<D>) -> Way
    requires { bits ≤ 16 }
    ensures { result ≡ way_of (2 ^ bits) (pending_pair (history_in log.now) log.now.state.pending) }
{
    log.devices_agree();
    match log.pending().first() {
        Some(entry) => Way::of(bits, entry, log.published() + 1),
        None => Way::Undecided,
    }
}
