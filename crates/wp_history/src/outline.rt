ghost use Rattle.std.specs.Prelude.{◌≡◌, ◌==◌, None, true, ◌+◌, ◌-◌, ◌<◌, ◌≤◌, [], ◌∷◌, ◌++◌, length, map, take, drop, IfOk, OnOk};
ghost use Rattle.std.specs.List.{AllByRecursion, find};
ghost use Rattle.std.specs.Option.{option_copied, option_map};
ghost use Rattle.wp_model.specs.Batch.{are_ascending};
ghost use Rattle.wp_model.specs.History.{entry_at, undecided};
ghost use Rattle.wp_model.specs.Legal.{IsOrderlyNext, log_end};
ghost use Rattle.wp_history_laws.specs.Growth.{AreAscending, undecided_after};
ghost use Rattle.wp_history_laws.specs.Prepares.{prepare_of};
ghost use Rattle.wp_cuts.specs.Cut.{carried_of, is_start};
ghost use Rattle.wp_cuts.specs.LegalCut.{AreNumbered, IsOrderlyCut, prepares_of};
ghost use Rattle.wp_history.specs.History.{cut_of, entry_behind};
ghost use Rattle.wp_history.specs.Outline.{AreOrderly, collision_of, cut_in, full_with};

use crate::numbers::Numbers;
use std::alloc::{AllocError, Global};
use std::marker::Model;
use std::snapshot::Snapshot;
use wp_model::{Batch, Carried, Entry, Name, Seq, Versions};

/// A history as far as it is known without values: each entry may follow those before it, but for what an undo restores.
pub struct Outline {
    base: Seq,
    /// The prepares that were undecided at the base, by their numbers.
    carried: Vec<Carried>,
    /// The entries behind the base.
    later: Vec<Entry>,
    undecided: Numbers,
    room: usize,
    /// The versions of the tables that the store was opened with, or none as long as these are not known.
    versions: Snapshot<Versions>,
}

impl Model for Outline {
    ghost use Rattle.std.specs.Prelude.{◌+◌, ◌≤◌, vec_len};
    ghost use Rattle.std.specs.Vec.{vec_capacity};
    ghost use Rattle.wp_cuts.specs.Cut.{full_of};
    ghost use Rattle.wp_history.specs.History.{RoomyHistory, IsOutline, cut_of};

    ghost Value = { RoomyHistory };

    ghost view = { λ o. record { base = o.base; entries = full_of (cut_of o.base o.carried.items o.later.items) o.versions.value; room = o.room } };

    ghost invariant = { λ o. IsOutline (cut_of o.base o.carried.items o.later.items) o.versions.value o.undecided.items
        × (vec_len o.later + o.room ≤ vec_capacity o.later) × (o.room ≤ o.undecided.room) };
}

/// Notes what an entry with that number leaves undecided.
fn note_undecided(undecided: &mut Numbers, number: Seq, entry: &Entry)
    requires room { 1 ≤ undecided.old.room }
    requires ascending { AreAscending undecided.old.items }
    ensures numbers { undecided.new.items ≡ undecided_after undecided.old.items number entry.now }
    ensures room { undecided.old.room ≤ undecided.new.room + 1 }
{
    match entry {
        Entry::Prepare(_, _) => undecided.push(number),
        Entry::Commit(p) | Entry::Close(p) => undecided.take_out(*p),
        Entry::Write(_) | Entry::Undo(_, _) => {}
    }
}

/// The numbers of carried prepares.
fn numbers_of(alloc: Global, carried: &[Carried]) -> Result<Vec<Seq>, AllocError>
    ensures { IfOk result (λ numbers. numbers.items ≡ map (λ x. x.number) carried.now) }
{
    let mut numbers = Vec::with_capacity(alloc, carried.len())?;
    for x in carried {
        numbers.push(x.number)?;
    }
    Ok(numbers)
}

/// The carried prepare with that number, which is found by binary search.
fn carried_in(carried: &[Carried], p: Seq) -> Option<&Carried>
    requires { AreAscending (map (λ x. x.number) carried.now) }
    ensures { option_copied result ≡ find (λ x. x.number == p) carried.now }
{
    match carried.binary_search_by_key(&p, |x| x.number) {
        Ok(place) => Some(&carried[place]),
        Err(_) => None,
    }
}

/// As long as no tables are read.
fn no_versions(alloc: Global) -> Snapshot<Versions>
    ensures { result.value ≡ [] }
{
    let none = Versions::of(Vec::new(alloc));
    Snapshot::of(&none)
}

impl Outline {
    /// The outline of no base, without entries, with the memory that the list has.
    fn without_entries(alloc: Global, later: Vec<Entry>) -> Outline
        requires { later.items ≡ [] }
        ensures base { result.base ≡ 0 }
        ensures entries { result.entries ≡ [] }
        ensures room { result.room ≡ 0 }
    {
        let carried = Vec::new(alloc);
        let undecided = Numbers::of(Vec::new(alloc));
        let versions = no_versions(alloc);
        Outline {
            base: 0,
            carried,
            later,
            undecided,
            room: 0,
            versions,
        }
    }

    /// The outline of no base, without entries.
    pub fn new(alloc: Global) -> Outline
        ensures base { result.base ≡ 0 }
        ensures entries { result.entries ≡ [] }
        ensures room { result.room ≡ 0 }
    {
        Outline::without_entries(alloc, Vec::new(alloc))
    }

    /// The outline of no base, without entries, with just the memory for so many.
    pub fn with_capacity(alloc: Global, n: usize) -> Result<Outline, AllocError>
        ensures base { IfOk result (λ outline. outline.base ≡ 0) }
        ensures entries { IfOk result (λ outline. outline.entries ≡ []) }
    {
        let later = Vec::with_capacity(alloc, n)?;
        Ok(Outline::without_entries(alloc, later))
    }

    /// The outline of a base without entries behind it. None of the prepares that were undecided there has a name or a key of another
    /// one (`Holders::of`). It is refused only for want of memory.
    pub fn from_base(alloc: Global, base: Seq, carried: Vec<Carried>) -> Result<Outline, AllocError>
        requires few { base < log_end }
        requires numbered { AreNumbered (cut_of base carried.items []) }
        requires ascending { AllByRecursion (λ x. are_ascending x.batch ≡ true) carried.items }
        requires apart { collision_of carried.items ≡ None }
        ensures base { IfOk result (λ outline. outline.base ≡ base) }
        ensures entries { IfOk result (λ outline. outline.entries ≡ prepares_of (cut_of base carried.items [])) }
        ensures cut { IfOk result (λ outline. cut_in outline ≡ cut_of base carried.items []) }
        ensures carried { IfOk result (λ outline. carried_of outline.entries ≡ carried.items) }
    {
        let numbers = numbers_of(alloc, &carried)?;
        let undecided = Numbers::of(numbers);
        let later = Vec::new(alloc);
        let versions = no_versions(alloc);
        Ok(Outline {
            base,
            carried,
            later,
            undecided,
            room: 0,
            versions,
        })
    }

    /// The same outline with the versions that its full list has below the base.
    pub fn with_versions(self, versions: Snapshot<Versions>) -> Outline
        ensures whole { result ≡ record self { entries = full_with self versions.value } }
        ensures cut { IsOrderlyCut (cut_in self) }
    {
        let mut outline = self;
        outline.versions = versions;
        outline
    }

    /// The number behind which its entries are in memory.
    pub fn base(&self) -> Seq
        ensures value { result ≡ self.now.base }
        ensures within { self.now.base ≤ length self.now.entries }

        // Up to it stand Writes and Prepares alone.
        ensures starts { AllByRecursion (λ entry. is_start entry ≡ true) (take self.now.base self.now.entries) }
    {
        self.base
    }

    /// The entries behind the base, in the order of their numbers.
    pub fn later(&self) -> &[Entry]
        ensures value { result.now ≡ drop self.now.base self.now.entries }
        ensures within { self.now.base ≤ length self.now.entries }

        // Up to the base stand Writes and Prepares alone.
        ensures starts { AllByRecursion (λ entry. is_start entry ≡ true) (take self.now.base self.now.entries) }
        ensures orderly { AreOrderly self.now }
        ensures few { length self.now.entries < log_end }
    {
        &self.later
    }

    /// The number of the last entry.
    pub fn published(&self) -> Seq
        ensures value { result ≡ length self.now.entries }
        ensures few { result < log_end }
        ensures from { self.now.base ≤ result }
        ensures cut { IsOrderlyCut (cut_in self.now) }
    {
        self.base + self.later.len() as Seq
    }

    /// The numbers of the undecided prepares, ascending.
    pub fn undecided(&self) -> &[Seq]
        ensures { result.now ≡ undecided self.now.entries }
    {
        self.undecided.list()
    }

    /// The entry with that number, if it is behind the base and there is one.
    pub fn entry_at(&self, n: Seq) -> Option<&Entry>
        ensures behind { option_copied result ≡ entry_behind self.now n }
        ensures whole { self.now.base ≡ 0 → option_copied result ≡ entry_at self.now.entries n }
    {
        if n <= self.base {
            return None;
        }
        self.later.get((n - self.base - 1) as usize)
    }

    /// The prepares that were undecided at the base, by their numbers.
    pub fn carried(&self) -> &[Carried]
        ensures { result.now ≡ carried_of (take self.now.base self.now.entries) }
    {
        &self.carried
    }

    /// The prepare with that number, which is none behind the base.
    pub(crate) fn carried_at(&self, p: Seq) -> Option<(&Name, &Batch)>
        requires { p ≤ self.now.base }
        ensures { option_map (λ t. (t.0.now, t.1.now)) result ≡ prepare_of (entry_at self.now.entries p) }
    {
        let carried = carried_in(&self.carried, p)?;
        Some((&carried.name, &carried.batch))
    }

    /// Takes the memory for `n` pushes.
    pub fn reserve(&mut self, n: usize) -> Result<(), AllocError>
        ensures ok { OnOk result (n ≤ self.new.room) }
        ensures base { self.new.base ≡ self.old.base }
        ensures entries { self.new.entries ≡ self.old.entries }
        ensures room { self.old.room ≤ self.new.room }
    {
        self.later.reserve(n)?;
        self.undecided.reserve(n)?;
        self.room = self.room.max(n);
        Ok(())
    }

    /// Adds an entry, in memory that was taken before.
    pub fn push(&mut self, entry: Entry)
        requires orderly { IsOrderlyNext self.old.entries entry }
        requires few { length self.old.entries + 1 < log_end }
        requires room { 1 ≤ self.old.room }
        ensures base { self.new.base ≡ self.old.base }
        ensures entries { self.new.entries ≡ self.old.entries ++ entry ∷ [] }
        ensures cut { cut_in self.new ≡ record (cut_in self.old) { entries = (cut_in self.old).entries ++ entry ∷ [] } }
        ensures room { self.new.room ≡ self.old.room - 1 }
    {
        let number = self.published() + 1;
        note_undecided(&mut self.undecided, number, &entry);
        self.later.push(entry).unwrap();
        self.room -= 1;
    }
}

// Written out, so that no crate above proves anew how all that it holds is let go.
impl Drop for Outline {
    fn drop(self) {
        let Self {
            base: _base,
            carried: _carried,
            later: _later,
            undecided: _undecided,
            room: _room,
            versions: _versions,
        } = self;
    }
}
