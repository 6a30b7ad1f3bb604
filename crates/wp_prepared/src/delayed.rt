ghost use Rattle.std.specs.Prelude.{◌≡◌, ℕ, ◌+◌, ◌<◌, ◌≤◌, true, false, None, IfOk, OnOk, IsTrue, ◌↔◌, MatchOption};
ghost use Rattle.std.specs.List.Sorted.{IsStrictlyIncreasing};
ghost use Rattle.std.specs.FinSet as set;
ghost use Rattle.std.specs.FinMap as map;
ghost use Rattle.wp_prepared.specs.DelayedSet as entries_of;
ghost use Rattle.wp_prepared.specs.DelayedSet.{numbers_in, AreFrom, IsPlace};
ghost use Rattle.wp_prepared.specs.Least.{IsLeastOrNone};
ghost use Rattle.wp_prepared.specs.Passed.{NonePassed, IsFirstPassed};

use std::alloc::{AllocError, Global};
use std::marker::Model;
use wp_model::Seq;

/// A delayed number, and the number that decides it where that is a delayed commit.
#[derive(Clone, Copy)]
pub(crate) struct Delayed {
    number: Seq,
    commit: Option<Seq>,
}

/// The delayed set with the delayed commits: numbers in ascending order, each beside its commit if it has one, in memory that is taken
/// before they move in. So a commit takes no memory when it comes. No commit is below `least`: where that is above a bound, none has
/// to be looked for.
#[derive(Drop)]
pub(crate) struct DelayedSet {
    entries: Vec<Delayed>,
    least: Seq,
}

impl Model for DelayedSet {
    ghost use Rattle.std.specs.Prelude.{◌-◌, vec_len};
    ghost use Rattle.std.specs.Vec.{vec_capacity};
    ghost use Rattle.std.specs.List.Sorted.{IsStrictlyIncreasing};
    ghost use Rattle.std.specs.FinSet as set;
    ghost use Rattle.std.specs.FinMap as map;
    ghost use Rattle.wp_prepared.specs.DelayedSet.{RoomySet, roomy_set_code, numbers_in, commits_in, AreFrom};

    ghost Value = { RoomySet };

    ghost coded = { roomy_set_code };

    ghost view = { λ d. record { numbers = set.from_list (numbers_in d.entries.items); commits = map.from_entries (commits_in d.entries.items); room = vec_capacity d.entries - vec_len d.entries } };

    ghost invariant = { λ d. IsStrictlyIncreasing (numbers_in d.entries.items) × AreFrom d.least d.entries.items };
}

/// Where the number stands, or else where it belongs.
fn place_of(entries: &[Delayed], p: Seq) -> Result<usize, usize>
    requires { IsStrictlyIncreasing (numbers_in entries.now) }
    ensures { IsPlace (numbers_in entries.now) p result }
{
    entries.binary_search_by_key(&p, |x| x.number)
}

/// The least of their commits, or the greatest number where they have none.
fn least_in(entries: &[Delayed]) -> Seq
    ensures { AreFrom result entries.now }
{
    let mut least = u64::MAX;
    for x in entries {
        if let Some(c) = x.commit {
            least = least.min(c);
        }
    }
    least
}

/// The first of them whose commit is at most `m`.
fn first_passed(entries: &[Delayed], m: Seq) -> Option<(Seq, Seq)>
    ensures { result ≡ entries_of.first_passed m entries.now }
{
    for x in entries {
        if let Some(c) = x.commit {
            if c <= m {
                return Some((x.number, c));
            }
        }
    }
    None
}

impl DelayedSet {
    pub fn new(alloc: Global) -> DelayedSet
        ensures numbers { result.numbers ≡ set.empty }
        ensures commits { result.commits ≡ map.empty }
        ensures room { result.room ≡ 0 }
    {
        DelayedSet {
            entries: Vec::new(alloc),
            least: u64::MAX,
        }
    }

    /// The set of these numbers, without a commit.
    pub fn of(alloc: Global, numbers: &[Seq]) -> Result<DelayedSet, AllocError>
        requires { IsStrictlyIncreasing numbers.now }
        ensures numbers { IfOk result (λ d. d.numbers ≡ set.from_list numbers.now) }
        ensures commits { IfOk result (λ d. d.commits ≡ map.empty) }
    {
        let mut entries = Vec::with_capacity(alloc, numbers.len())?;
        for number in numbers {
            entries.push(Delayed {
                number: *number,
                commit: None,
            })?;
        }
        Ok(DelayedSet {
            entries,
            least: u64::MAX,
        })
    }

    /// Whether it has no number, and so no commit.
    pub fn is_empty(&self) -> bool
        ensures { IsTrue result ↔ (((p : ℕ) → set.contains self.now.numbers p ≡ false) × ((p : ℕ) → map.get self.now.commits p ≡ None)) }
    {
        self.entries.is_empty()
    }

    pub fn contains(&self, p: Seq) -> bool
        ensures { result ≡ set.contains self.now.numbers p }
    {
        place_of(&self.entries, p).is_ok()
    }

    /// The commit of the number, if it has one.
    pub fn commit_of(&self, p: Seq) -> Option<Seq>
        ensures { result ≡ map.get self.now.commits p }
    {
        match place_of(&self.entries, p) {
            Ok(place) => self.entries[place].commit,
            Err(_) => None,
        }
    }

    /// Takes memory for so many numbers more, each with a commit.
    pub fn reserve(&mut self, additional: usize) -> Result<(), AllocError>
        ensures ok { OnOk result (additional ≤ self.new.room) }
        ensures numbers { self.new.numbers ≡ self.old.numbers }
        ensures commits { self.new.commits ≡ self.old.commits }
        ensures room { self.old.room ≤ self.new.room }
    {
        self.entries.reserve(additional)
    }

    pub fn insert(&mut self, p: Seq)
        requires { 0 < self.old.room }
        ensures numbers { self.new.numbers ≡ set.insert self.old.numbers p }
        ensures commits { self.new.commits ≡ self.old.commits }
        ensures room { self.old.room ≤ self.new.room + 1 }
    {
        if let Err(place) = place_of(&self.entries, p) {
            self.entries
                .insert(
                    place,
                    Delayed {
                        number: p,
                        commit: None,
                    },
                )
                .unwrap();
        }
    }

    /// The number, which is there, has this commit from now on.
    pub fn add_commit(&mut self, p: Seq, c: Seq)
        requires { set.contains self.old.numbers p ≡ true }
        ensures numbers { self.new.numbers ≡ self.old.numbers }
        ensures commits { self.new.commits ≡ map.insert self.old.commits p c }
        ensures room { self.new.room ≡ self.old.room }
    {
        if let Ok(place) = place_of(&self.entries, p) {
            self.entries[place] = Delayed {
                number: p,
                commit: Some(c),
            };
            self.least = self.least.min(c);
        }
    }

    /// Takes out the number with its commit. The least commit is looked for anew where it goes.
    pub fn remove(&mut self, p: Seq)
        ensures numbers { self.new.numbers ≡ set.remove self.old.numbers p }
        ensures commits { self.new.commits ≡ map.remove self.old.commits p }
        ensures room { self.old.room ≤ self.new.room }
    {
        if let Ok(place) = place_of(&self.entries, p) {
            let gone = self.entries.remove(place);
            if gone.commit == Some(self.least) {
                self.least = least_in(&self.entries);
            }
        }
    }

    pub fn first(&self) -> Option<Seq>
        ensures { IsLeastOrNone self.now.numbers result }
    {
        let first = self.entries.first()?;
        Some(first.number)
    }

    /// The commit of the least number whose commit is at most `m`, with that number. Where none is, it takes constant time.
    pub fn passed(&self, m: Seq) -> Option<(Seq, Seq)>
        ensures { MatchOption result (NonePassed self.now.commits m) (IsFirstPassed self.now.commits m) }
    {
        if m < self.least {
            return None;
        }
        first_passed(&self.entries, m)
    }
}
