//! Which entry may follow those of an outline, and whether an undo among them restores what it has to.
ghost use Rattle.std.specs.Prelude.{◌≡◌, ◌↔◌, ◌≤◌, true, length, take, IfNone, IfSome};
ghost use Rattle.wp_model.specs.Batch.{are_ascending};
ghost use Rattle.wp_model.specs.History.{is_undecided, batch_at, value_at};
ghost use Rattle.wp_model.specs.Legal.{AreFree, IsOrderlyNext, KeysAreFree, RestoresPrior, UndoIsClosed, changes_in, undone_last, change_that_leaves, prior};
ghost use Rattle.wp_history_laws.specs.Growth.{undone_by};
ghost use Rattle.wp_history.specs.History.{HasBaseValues};
ghost use Rattle.wp_history.specs.Outline.{MayDecide, RestoreUpTo, IsFirstWrong};

use crate::outline::Outline;
use std::collections::BTreeMap;
use wp_model::{Batch, Change, Entry, Key, Seq, Value};

/// The prepare that the entry undoes.
fn undone_by(entry: &Entry) -> Option<Seq>
    ensures { result ≡ undone_by entry.now }
{
    match entry {
        Entry::Undo(p, _) => Some(*p),
        Entry::Write(_) | Entry::Prepare(_, _) | Entry::Commit(_) | Entry::Close(_) => None,
    }
}

impl Outline {
    /// Whether the entry may follow those of the outline, but for what an undo restores.
    pub fn is_orderly_next(&self, entry: &Entry) -> bool
        ensures { (result ≡ true) ↔ IsOrderlyNext self.now.entries entry.now }
    {
        self.may_decide(entry) && self.lets(entry)
    }

    /// Whether what the entry decides or undoes is undecided, and each undo is closed at once.
    pub(crate) fn may_decide(&self, entry: &Entry) -> bool
        ensures may { (result ≡ true) ↔ MayDecide self.now.entries entry.now }
        ensures ascending { are_ascending (changes_in entry.now) ≡ true }
    {
        let _ = entry.changes();
        if !self.is_closed_by(entry) {
            return false;
        }
        match entry {
            Entry::Write(_) | Entry::Prepare(_, _) => true,
            Entry::Commit(p) => self.is_undecided(*p),
            Entry::Undo(p, _) => self.is_undecided(*p),
            Entry::Close(p) => self.is_undecided(*p),
        }
    }

    /// Whether what the entry writes or prepares has no key of an undecided prepare, and no name.
    fn lets(&self, entry: &Entry) -> bool
        ensures { (result ≡ true) ↔ KeysAreFree self.now.entries entry.now }
    {
        match entry {
            Entry::Write(batch) => self.are_free(batch.changes()),
            Entry::Prepare(name, batch) => {
                self.are_free(batch.changes()) && self.named(name).is_none()
            }
            Entry::Commit(_) | Entry::Undo(_, _) | Entry::Close(_) => true,
        }
    }

    /// Whether the entry, if it is an undo, holds what the keys of its prepare have behind the first `n` entries, which it may follow.
    /// The map has what the entries up to the base leave: nothing, as long as the versions of the tables are not known.
    pub fn restores_prior(&self, store: &BTreeMap<Key, Value>, entry: &Entry, n: Seq) -> bool
        requires store { HasBaseValues self.now store.now }
        requires from { self.now.base ≤ n }
        requires within { n ≤ length self.now.entries }
        requires orderly { IsOrderlyNext (take n self.now.entries) entry.now }
        ensures { (result ≡ true) ↔ RestoresPrior (take n self.now.entries) entry.now }
    {
        match entry {
            Entry::Undo(p, batch) => self.is_prior(store, *p, batch, n),
            Entry::Write(_) | Entry::Prepare(_, _) | Entry::Commit(_) | Entry::Close(_) => true,
        }
    }

    /// The number of the first undo behind the base that does not hold what the keys of its prepare had before it.
    pub fn first_wrong(&self, store: &BTreeMap<Key, Value>) -> Option<Seq>
        requires { HasBaseValues self.now store.now }
        ensures none { IfNone result (RestoreUpTo self.now (length self.now.entries)) }
        ensures some { IfSome result (IsFirstWrong self.now) }
    {
        let base = self.base();
        let later = self.later();
        for (i, entry) in later.iter().enumerate() {
            let n = base + i as Seq;
            if !self.restores_prior(store, entry, n) {
                return Some(n + 1);
            }
        }
        None
    }

    /// Whether the entry is the Close of an undo that is the last entry, or no Close where none is.
    fn is_closed_by(&self, entry: &Entry) -> bool
        ensures { (result ≡ true) ↔ UndoIsClosed self.now.entries entry.now }
    {
        match entry {
            Entry::Close(p) => self.undone_last() == Some(*p),
            Entry::Write(_) | Entry::Prepare(_, _) | Entry::Commit(_) | Entry::Undo(_, _) => {
                self.undone_last().is_none()
            }
        }
    }

    /// The prepare that the last entry undoes, if it is an undo.
    #[tactic(auto, using(crate::proofs::Full::undone_at_later, crate::proofs::Full::none_at_later))]
    pub fn undone_last(&self) -> Option<Seq>
        ensures { result ≡ undone_last self.now.entries }
    {
        undone_by(self.later().last()?)
    }

    /// Whether no undecided prepare holds a key of the changes.
    fn are_free(&self, changes: &[Change]) -> bool
        ensures { (result ≡ true) ↔ AreFree self.now.entries changes.now }
    {
        for change in changes {
            if self.holder_of(change.key()).is_some() {
                return false;
            }
        }
        true
    }

    /// Whether the batch holds what the keys of a prepare, which is undecided behind the first `n` entries, have there.
    fn is_prior(&self, store: &BTreeMap<Key, Value>, p: Seq, batch: &Batch, n: Seq) -> bool
        requires store { HasBaseValues self.now store.now }
        requires from { self.now.base ≤ n }
        requires within { n ≤ length self.now.entries }
        requires undecided { is_undecided (take n self.now.entries) p ≡ true }
        ensures { (result ≡ true) ↔ (batch.now ≡ prior (take n self.now.entries) (batch_at (take n self.now.entries) p)) }
    {
        match self.prepare_at(p) {
            Some((_, prepared)) => self.are_restored(store, prepared.changes(), batch.changes(), n),
            None => unreachable!(),
        }
    }

    /// Whether the changes are those that restore what the keys of the prepared ones have behind the first `n` entries.
    fn are_restored(
        &self,
        store: &BTreeMap<Key, Value>,
        prepared: &[Change],
        restored: &[Change],
        n: Seq,
    ) -> bool
        requires store { HasBaseValues self.now store.now }
        requires from { self.now.base ≤ n }
        requires within { n ≤ length self.now.entries }
        ensures { (result ≡ true) ↔ (restored.now ≡ prior (take n self.now.entries) prepared.now) }
    {
        if prepared.len() != restored.len() {
            return false;
        }
        for (i, change) in prepared.iter().enumerate() {
            if !self.restores(store, &restored[i], change.key(), n) {
                return false;
            }
        }
        true
    }

    /// Whether the change leaves under the key what the first `n` entries leave there.
    fn restores(&self, store: &BTreeMap<Key, Value>, change: &Change, key: &Key, n: Seq) -> bool
        requires store { HasBaseValues self.now store.now }
        requires from { self.now.base ≤ n }
        requires within { n ≤ length self.now.entries }
        ensures { (result ≡ true) ↔ (change.now ≡ change_that_leaves key.now (value_at self.now.entries key.now n)) }
    {
        match (change, self.value_at(store, key, n)) {
            (Change::Put(other, value), Some(old)) => other == key && value == old,
            (Change::Del(other), None) => other == key,
            _ => false,
        }
    }
}
