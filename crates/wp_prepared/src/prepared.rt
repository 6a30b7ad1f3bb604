ghost use Rattle.std.specs.Prelude.{◌≡◌, ℕ, ◌≤◌, ◌&&◌, ◌||◌, nat_lt, nat_le, true, false, IfOk, OnOk, OnErr, MatchOption, IsTrue, ◌↔◌};
ghost use Rattle.std.specs.FinSet as set;
ghost use Rattle.std.specs.FinMap as map;
ghost use Rattle.std.specs.List.Sorted.{IsStrictlyIncreasing};
ghost use Rattle.wp_model.specs.PreparedSets.{nothing_prepared, commits_with, NonePrepared, IsSmallest, NoneDelayed};
ghost use Rattle.wp_prepared.specs.Least.{AreBelow};
ghost use Rattle.wp_prepared.specs.Passed.{NonePassed, IsFirstPassed};

use crate::delayed::DelayedSet;
use crate::heap::PreparedHeap;
use std::alloc::{AllocError, Global};
use std::marker::Model;
use wp_model::Seq;

/// The prepared heap, the delayed set and the delayed commits, which the holder of the prepared turn changes.
///
/// A delayed commit (p, c) tells a reader who finds no word of p that p is committed as c. The delayed set has memory for each number
/// of the heap at all times, and for a commit of each number that it has: the bound may have to pass numbers whose entries are logged,
/// and a pair may be too wide for its word, where want of memory can't be answered any more.
pub struct Prepared {
    heap: PreparedHeap,
    delayed: DelayedSet,
}

impl Model for Prepared {
    ghost use Rattle.std.specs.Prelude.{◌≤◌};
    ghost use Rattle.std.specs.FinSet as set;
    ghost use Rattle.wp_model.specs.PreparedSets.{PreparedSets, prepared_sets_code};

    ghost Value = { PreparedSets };

    ghost coded = { prepared_sets_code };

    ghost view = { λ t. record { heap = t.heap; delayed = t.delayed.numbers; delayed_commits = t.delayed.commits } };

    ghost invariant = { λ t. set.len t.heap ≤ t.delayed.room };
}

impl Prepared {
    pub fn new(alloc: Global) -> Prepared
        ensures { result ≡ nothing_prepared }
    {
        Prepared {
            heap: PreparedHeap::new(alloc),
            delayed: DelayedSet::new(alloc),
        }
    }

    /// The sets at the opening of a store: these numbers, of the undecided prepares, are delayed.
    pub fn delaying(alloc: Global, numbers: &[Seq]) -> Result<Prepared, AllocError>
        requires { IsStrictlyIncreasing numbers.now }
        ensures heap { IfOk result (λ t. t.heap ≡ set.empty) }
        ensures delayed { IfOk result (λ t. t.delayed ≡ set.from_list numbers.now) }
        ensures delayed_commits { IfOk result (λ t. t.delayed_commits ≡ map.empty) }
    {
        let delayed = DelayedSet::of(alloc, numbers)?;
        Ok(Prepared {
            heap: PreparedHeap::new(alloc),
            delayed,
        })
    }

    /// Puts the number of a Prepare entry into the heap, before the entry is published. It takes the memory that
    /// `advance`, `note_evicted` and `add_commit` need.
    pub fn add(&mut self, p: Seq) -> Result<(), AllocError>
        requires { AreBelow self.old.heap p }
        ensures ok { OnOk result (self.new ≡ record self.old { heap = set.insert self.old.heap p }) }
        ensures err { OnErr result (self.new ≡ self.old) }
    {
        self.delayed.reserve(self.heap.queued() + 1)?;
        self.heap.add(p)
    }

    /// Moves each number of the heap that is at most `m` to the delayed set, before the evicted bound is stored
    /// as `m`.
    pub fn advance(&mut self, m: Seq)
        ensures heap { (p : ℕ) → set.contains self.new.heap p ≡ (set.contains self.old.heap p && nat_lt m p) }
        ensures delayed { (p : ℕ) → set.contains self.new.delayed p ≡ (set.contains self.old.delayed p || (set.contains self.old.heap p && nat_le p m)) }
        ensures delayed_commits { self.new.delayed_commits ≡ self.old.delayed_commits }
    {
        while let Some(p) = self.heap.pop_up_to(m) {
            self.delayed.insert(p);
        }
    }

    /// Keeps the pair (`p`, `c`), which is about to leave its word of the commit cache, where `p` is still here. The bound has passed
    /// `c` before, so `p` is in the heap no more. It takes no memory.
    pub fn note_evicted(&mut self, p: Seq, c: Seq)
        requires { set.contains self.old.heap p ≡ false }
        ensures { self.new ≡ record self.old { delayed_commits = commits_with self.old p c } }
    {
        if self.delayed.contains(p) {
            self.delayed.add_commit(p, c);
        }
    }

    /// Keeps the pair (`p`, `c`), which is too wide for a word of the commit cache: the bound has passed `p` before. It takes no memory.
    pub fn add_commit(&mut self, p: Seq, c: Seq)
        requires { set.contains self.old.delayed p ≡ true }
        ensures { self.new ≡ record self.old { delayed_commits = map.insert self.old.delayed_commits p c } }
    {
        self.delayed.add_commit(p, c);
    }

    /// Of the delayed commits that are at most `m` the one of the least number. Where none is, it takes constant time.
    pub fn passed(&self, m: Seq) -> Option<(Seq, Seq)>
        ensures { MatchOption result (NonePassed self.now.delayed_commits m) (IsFirstPassed self.now.delayed_commits m) }
    {
        self.delayed.passed(m)
    }

    /// Takes out the number of a transaction that is decided, with its delayed commit.
    pub fn remove(&mut self, p: Seq)
        ensures heap { self.new.heap ≡ set.remove self.old.heap p }
        ensures delayed { self.new.delayed ≡ set.remove self.old.delayed p }
        ensures delayed_commits { self.new.delayed_commits ≡ map.remove self.old.delayed_commits p }
    {
        self.heap.remove(p);
        self.delayed.remove(p);
    }

    /// Whether the delayed set and the delayed commits are both empty, in constant time.
    pub fn none_delayed(&self) -> bool
        ensures { IsTrue result ↔ NoneDelayed self.now }
    {
        self.delayed.is_empty()
    }

    /// Whether the number is in the delayed set.
    pub fn delayed(&self, p: Seq) -> bool
        ensures { result ≡ set.contains self.now.delayed p }
    {
        self.delayed.contains(p)
    }

    /// The number that decides `p`, where that is a delayed commit.
    pub fn commit_of(&self, p: Seq) -> Option<Seq>
        ensures { result ≡ map.get self.now.delayed_commits p }
    {
        self.delayed.commit_of(p)
    }

    /// The least number that is in the heap or in the delayed set.
    pub fn smallest(&self) -> Option<Seq>
        ensures { MatchOption result (NonePrepared self.now) (IsSmallest self.now) }
    {
        match (self.heap.first(), self.delayed.first()) {
            (Some(first), Some(delayed)) => Some(first.min(delayed)),
            (Some(only), None) | (None, Some(only)) => Some(only),
            (None, None) => None,
        }
    }
}

// Written out, so that no crate above proves anew how all that it holds is let go.
impl Drop for Prepared {
    fn drop(self) {
        let Self {
            heap: _heap,
            delayed: _delayed,
        } = self;
    }
}
