ghost use Rattle.std.specs.Prelude.{◌≡◌, ℕ, ◌^◌, ◌<◌, ◌≤◌, IsTrue, IfSome, IfNone, MatchOption, OnOk, OnErr};
ghost use Rattle.std.specs.Ordering.{nat_cmp};
ghost use Rattle.std.specs.FinSet as set;
ghost use Rattle.wp_prepared.specs.Least.{AreBelow, IsLeastOrNone};
ghost use Rattle.wp_prepared.specs.Queue.{AreRising, IsAt, AreApart, TrimsFront, TrimsBack};

use std::alloc::{AllocError, Global};
use std::collections::VecDeque;
use std::marker::Model;
use wp_model::Seq;

/// A number of the queue. An erased one is not in the heap any more.
#[derive(Drop)]
pub(crate) struct Queued {
    number: Seq,
    erased: bool,
}

/// The prepared heap: the numbers that the evicted bound has not reached.
///
/// Numbers come in ascending order, and mostly leave in it, so they stand in a queue. A number that leaves between
/// others is only marked as erased, and goes once it is the first or the last. RocksDB's `PreparedHeap` has the erased
/// numbers in a heap of their own; here each has its mark beside it, which is at hand from both ends and takes no
/// memory when it is set.
#[derive(Drop)]
pub(crate) struct PreparedHeap {
    queue: VecDeque<Queued>,
}

impl Model for PreparedHeap {
    ghost use Rattle.std.specs.Ordering.{nat_cmp};
    ghost use Rattle.std.specs.FinSet as set;
    ghost use Rattle.std.specs.Coded.{coded_ℕ};
    ghost use Rattle.wp_prepared.specs.Queue.{standing, IsQueue};

    ghost Value = { set.FinSet nat_cmp };

    ghost coded = { set.code coded_ℕ };

    ghost view = { λ h. standing h.queue.items };

    ghost invariant = { λ h. IsQueue h.queue.items };
}

impl PreparedHeap {
    pub fn new(alloc: Global) -> PreparedHeap
        ensures { result ≡ set.empty }
    {
        PreparedHeap {
            queue: VecDeque::new(alloc),
        }
    }

    /// How many numbers are queued, the erased ones too.
    pub fn queued(&self) -> usize
        ensures all { set.len self.now ≤ result }
        ensures small { result < 2 ^ 63 }
    {
        self.queue.len()
    }

    pub fn contains(&self, p: Seq) -> bool
        ensures { result ≡ set.contains self.now p }
    {
        match place_of(&self.queue, p) {
            Some(place) => !self.queue[place].erased,
            None => false,
        }
    }

    pub fn add(&mut self, p: Seq) -> Result<(), AllocError>
        requires { AreBelow self.old p }
        ensures ok { OnOk result (self.new ≡ set.insert self.old p) }
        ensures err { OnErr result (self.new ≡ self.old) }
    {
        self.queue.push_back(Queued {
            number: p,
            erased: false,
        })?;
        Ok(())
    }

    pub fn remove(&mut self, p: Seq)
        ensures { self.new ≡ set.remove self.old p }
    {
        if let Some(place) = place_of(&self.queue, p) {
            self.queue[place].erased = true;
            trim_front(&mut self.queue);
            trim_back(&mut self.queue);
        }
    }

    pub fn first(&self) -> Option<Seq>
        ensures { IsLeastOrNone self.now result }
    {
        let first = self.queue.front()?;
        Some(first.number)
    }

    /// Takes out the least number, where it is at most `m`.
    pub fn pop_up_to(&mut self, m: Seq) -> Option<Seq>
        ensures popped { IfSome result (λ p. self.new ≡ set.remove self.old p) }
        ensures was_there { IfSome result (λ p. IsTrue (set.contains self.old p)) }
        ensures up_to { IfSome result (λ p. p ≤ m) }
        ensures rest { IfNone result (self.new ≡ self.old) }
        ensures above { IfNone result ((p : ℕ) → IsTrue (set.contains self.old p) → m < p) }
    {
        let least = self.first()?;
        if least > m {
            return None;
        }
        self.queue.pop_front();
        trim_front(&mut self.queue);
        Some(least)
    }
}

/// Where the number stands in the queue, which is in order.
fn place_of(queue: &VecDeque<Queued>, p: Seq) -> Option<usize>
    requires { AreRising queue.now.items }
    ensures { MatchOption result (AreApart p queue.now.items) (IsAt queue.now.items p) }
{
    queue.binary_search_by_key(&p, |x| x.number).ok()
}

/// Takes out the erased numbers before the first that is not.
fn trim_front(queue: &mut VecDeque<Queued>)
    ensures { TrimsFront queue.old.items queue.new.items }
{
    while let Some(first) = queue.front() {
        if !first.erased {
            return;
        }
        queue.pop_front();
    }
}

/// Takes out the erased numbers behind the last that is not.
fn trim_back(queue: &mut VecDeque<Queued>)
    ensures { TrimsBack queue.old.items queue.new.items }
{
    while let Some(last) = queue.back() {
        if !last.erased {
            return;
        }
        queue.pop_back();
    }
}
