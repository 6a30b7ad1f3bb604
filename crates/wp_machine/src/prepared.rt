ghost use Rattle.std.specs.Prelude.{◌≡◌, not, nat_le, IfOk, OnOk};
ghost use Rattle.std.specs.Ordering.{nat_cmp};
ghost use Rattle.wp_core.specs.States.{without_prepared, with_moved};
ghost use Rattle.std.specs.FinSet as set;
ghost use Rattle.std.specs.FinMap as finite;
ghost use Rattle.wp_core.specs.Changes.{found_in};
ghost use Rattle.wp_model.specs.PreparedSets.{is_prepared};
ghost use Rattle.wp_model.specs.History.{undecided};

use crate::lists::add_first;
use crate::pairs::{newest_of, take_of};
use std::alloc::{AllocError, Global};
use std::marker::Model;
use wp_history::History;
use wp_judge::InPrepared;
use wp_model::Seq;

/// The prepared heap, the delayed set and the delayed commits. Each is a list whose newest item comes first: of two pairs
/// of one number the first counts.
pub struct PreparedSets {
    pub heap: Vec<Seq>,
    pub delayed: Vec<Seq>,
    pub delayed_commits: Vec<(Seq, Seq)>,
}

impl Model for PreparedSets {
    ghost use Rattle.std.specs.FinSet as set;
    ghost use Rattle.std.specs.FinMap as map;
    ghost use Rattle.wp_model.specs.PreparedSets.{PreparedSets, prepared_sets_code};

    ghost Value = { PreparedSets };

    ghost coded = { prepared_sets_code };

    ghost view = { λ t. record { heap = set.from_list t.heap.items; delayed = set.from_list t.delayed.items; delayed_commits = map.from_entries t.delayed_commits.items } };
}

impl PreparedSets {
    #[tactic(auto, using(crate::proofs::Maps::newest_is_got))]
    pub fn commit_of(&self, p: Seq) -> Option<Seq>
        ensures { result ≡ finite.get self.now.delayed_commits p }
    {
        newest_of(&self.delayed_commits, p).copied()
    }

    #[tactic(auto, using(crate::proofs::Maps::contains_number))]
    pub fn is_delayed(&self, p: Seq) -> bool
        ensures { result ≡ set.contains self.now.delayed p }
    {
        self.delayed.contains(&p)
    }

    #[tactic(auto, using(crate::proofs::Maps::contains_number))]
    pub fn is_in_heap(&self, p: Seq) -> bool
        ensures { result ≡ set.contains self.now.heap p }
    {
        self.heap.contains(&p)
    }

    pub fn is_prepared(&self, p: Seq) -> bool
        ensures { result ≡ is_prepared self.now p }
    {
        self.is_in_heap(p) || self.is_delayed(p)
    }

    /// What a reader of `p` finds.
    pub fn found(&self, p: Seq) -> InPrepared
        ensures { result ≡ found_in (set.contains self.now.delayed p) (finite.get self.now.delayed_commits p) }
    {
        match self.commit_of(p) {
            Some(c) => InPrepared::Decided(c),
            None if self.is_delayed(p) => InPrepared::Delayed,
            None => InPrepared::Absent,
        }
    }
}

fn take_from(numbers: &mut Vec<Seq>, p: Seq)
    ensures { set.from_list {R = nat_cmp} numbers.new.items ≡ set.remove (set.from_list numbers.old.items) p }
{
    numbers.retain(|q| *q != p);
}

/// Those of the first that are at most `m` go to the second.
fn move_up_to(heap: &mut Vec<Seq>, delayed: &mut Vec<Seq>, m: Seq) -> Result<(), AllocError>
    ensures heap { OnOk result (set.from_list {R = nat_cmp} heap.new.items ≡ set.retain (set.from_list heap.old.items) (λ p. not (nat_le p m))) }
    ensures delayed { OnOk result (set.from_list {R = nat_cmp} delayed.new.items ≡ set.union (set.from_list delayed.old.items) (set.retain (set.from_list heap.old.items) (λ p. nat_le p m))) }
{
    for p in heap.iter() {
        if *p <= m {
            delayed.push(*p)?;
        }
    }
    heap.retain(|p| *p > m);
    Ok(())
}

impl PreparedSets {
    pub fn add(&mut self, p: Seq) -> Result<(), AllocError>
        ensures { OnOk result (self.new ≡ record self.old { heap = set.insert self.old.heap p }) }
    {
        add_first(&mut self.heap, p)
    }

    pub fn take_from_heap(&mut self, p: Seq)
        ensures { self.new ≡ record self.old { heap = set.remove self.old.heap p } }
    {
        take_from(&mut self.heap, p);
    }

    pub fn commit(&mut self, p: Seq, c: Seq) -> Result<(), AllocError>
        ensures { OnOk result (self.new ≡ record self.old { delayed_commits = finite.insert self.old.delayed_commits p c }) }
    {
        add_first(&mut self.delayed_commits, (p, c))
    }

    pub fn take_out(&mut self, p: Seq)
        ensures { self.new ≡ without_prepared self.old p }
    {
        take_from(&mut self.heap, p);
        take_from(&mut self.delayed, p);
        take_of(&mut self.delayed_commits, p);
    }

    pub fn move_up_to(&mut self, m: Seq) -> Result<(), AllocError>
        ensures { OnOk result (self.new ≡ with_moved self.old m) }
    {
        move_up_to(&mut self.heap, &mut self.delayed, m)
    }
}

impl PreparedSets {
    /// The undecided prepares of a history that is opened are delayed.
    pub fn left_by(history: &History, alloc: Global) -> Result<PreparedSets, AllocError>
        ensures { IfOk result (λ t. t ≡ record { heap = set.empty; delayed = set.from_list (undecided history.now.entries); delayed_commits = finite.empty }) }
    {
        Ok(PreparedSets {
            heap: Vec::new(alloc),
            delayed: Vec::from_slice(alloc, history.undecided())?,
            delayed_commits: Vec::new(alloc),
        })
    }
}

// Written out, so that no crate above proves anew how all that it holds is let go.
impl Drop for PreparedSets {
    fn drop(self) {
        let Self {
            heap: _heap,
            delayed: _delayed,
            delayed_commits: _delayed_commits,
        } = self;
    }
}
