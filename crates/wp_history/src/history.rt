ghost use Rattle.std.specs.Prelude.{◌≡◌, ◌↔◌, true, ◌+◌, ◌-◌, ◌<◌, ◌≤◌, [], ◌∷◌, ◌++◌, length, take, drop, IfOk, IfErr, IfSome, OnOk};
ghost use Rattle.std.specs.FinMap as finite;
ghost use Rattle.std.specs.List.{AllByRecursion};
ghost use Rattle.std.specs.Option.{option_copied, option_map};
ghost use Rattle.wp_model.specs.Changed.{conflict};
ghost use Rattle.wp_model.specs.History.{entry_at, is_undecided, undecided, batch_at, name_at, named, holder_of, newest, value_at};
ghost use Rattle.wp_model.specs.Rows.{stored};
ghost use Rattle.wp_model.specs.Versions.{AreInOrder};
ghost use Rattle.wp_model.specs.Legal.{IsLegal, IsLegalNext, change_that_leaves, log_end, prior, undone_last};
ghost use Rattle.wp_history_laws.specs.Prepares.{prepare_of};
ghost use Rattle.wp_cuts.specs.Cut.{base_value, carried_of, is_start};
ghost use Rattle.wp_cuts.specs.LegalCut.{AreBelow};
ghost use Rattle.wp_history.specs.History.{HasBaseValues, IsStore, entry_behind};
ghost use Rattle.wp_history.specs.Outline.{cut_in, full_with, IsFirstWrong, IsIllegalFrom};

use crate::last_changes::{LastChanges, begun, behind};
use crate::outline::Outline;
use std::alloc::{AllocError, Global};
use std::collections::BTreeMap;
use std::marker::Model;
use std::snapshot::Snapshot;
use wp_model::{Batch, Carried, Change, Entry, Key, Name, Seq, SetError, Value, Versions};

/// A legal history: an outline of it, with what the store had at its base.
pub struct History {
    outline: Outline,
    store: BTreeMap<Key, Value>,
    /// A cache, which no clause sees: none until a change is first asked for, and again where memory was wanting for it.
    last_changes: Option<LastChanges>,
}

impl Model for History {
    ghost use Rattle.std.specs.Prelude.{IfSome};
    ghost use Rattle.wp_history.specs.History.{RoomyHistory, IsKept};
    ghost use Rattle.wp_history.specs.LastChanges.{AreLastChanges};

    ghost Value = { RoomyHistory };

    ghost view = { λ h. h.outline };

    ghost invariant = { λ h. IsKept h.outline h.store × IfSome h.last_changes (AreLastChanges h.outline) };
}

impl History {
    /// A history without entries.
    pub fn new(alloc: Global) -> History
        ensures base { result.base ≡ 0 }
        ensures entries { result.entries ≡ [] }
        ensures room { result.room ≡ 0 }
    {
        let outline = Outline::new(alloc);
        let store = BTreeMap::new(alloc);
        History {
            outline,
            store,
            last_changes: None,
        }
    }

    /// A history without entries, with just the memory for so many.
    pub fn with_capacity(alloc: Global, n: usize) -> Result<History, AllocError>
        ensures base { IfOk result (λ history. history.base ≡ 0) }
        ensures entries { IfOk result (λ history. history.entries ≡ []) }
    {
        let outline = Outline::with_capacity(alloc, n)?;
        let store = BTreeMap::new(alloc);
        Ok(History {
            outline,
            store,
            last_changes: None,
        })
    }

    /// The history of an outline, once the store is known: what it had at the base by the versions of its tables. An error is the
    /// number of the first undo that does not hold what the keys of its prepare had before it.
    pub fn from_outline(
        outline: Outline,
        store: BTreeMap<Key, Value>,
        versions: Snapshot<Versions>,
    ) -> Result<History, Seq>
        requires order { AreInOrder versions.value }
        requires below { AreBelow (cut_in outline) versions.value }
        requires store { IsStore (base_value (cut_in outline) versions.value) store }
        ensures whole { IfOk result (λ history. history ≡ record outline { entries = full_with outline versions.value }) }
        ensures illegal { IfErr result (IsIllegalFrom (full_with outline versions.value)) }
        ensures wrong { IfErr result (IsFirstWrong (record outline { entries = full_with outline versions.value })) }
    {
        let outline = outline.with_versions(versions);
        match outline.first_wrong(&store) {
            Some(number) => Err(number),
            None => Ok(History {
                outline,
                store,
                last_changes: None,
            }),
        }
    }

    /// The number behind which its entries are in memory.
    pub fn base(&self) -> Seq
        ensures value { result ≡ self.now.base }
        ensures within { self.now.base ≤ length self.now.entries }

        // Up to it stand Writes and Prepares alone.
        ensures starts { AllByRecursion (λ entry. is_start entry ≡ true) (take self.now.base self.now.entries) }
    {
        self.outline.base()
    }

    /// The entries behind the base, in the order of their numbers.
    pub fn later(&self) -> &[Entry]
        ensures value { result.now ≡ drop self.now.base self.now.entries }
        ensures legal { IsLegal self.now.entries }
        ensures within { self.now.base ≤ length self.now.entries }

        // Up to the base stand Writes and Prepares alone.
        ensures starts { AllByRecursion (λ entry. is_start entry ≡ true) (take self.now.base self.now.entries) }
    {
        self.outline.later()
    }

    /// The number of the last entry.
    pub fn published(&self) -> Seq
        ensures value { result ≡ length self.now.entries }
        ensures few { result < log_end }
        ensures from { self.now.base ≤ result }
        ensures legal { IsLegal self.now.entries }
    {
        self.outline.published()
    }

    /// What the store had at the base.
    pub fn store(&self) -> &BTreeMap<Key, Value>
        ensures { HasBaseValues self.now result.now }
    {
        &self.store
    }

    /// The numbers of the undecided prepares, ascending.
    pub fn undecided(&self) -> &[Seq]
        ensures { result.now ≡ undecided self.now.entries }
    {
        self.outline.undecided()
    }

    /// The entry with that number, if it is behind the base and there is one.
    pub fn entry_at(&self, n: Seq) -> Option<&Entry>
        ensures behind { option_copied result ≡ entry_behind self.now n }
        ensures whole { self.now.base ≡ 0 → option_copied result ≡ entry_at self.now.entries n }
    {
        self.outline.entry_at(n)
    }

    /// The prepares that were undecided at the base, by their numbers.
    pub fn carried(&self) -> &[Carried]
        ensures { result.now ≡ carried_of (take self.now.base self.now.entries) }
    {
        self.outline.carried()
    }

    /// Whether the number is that of an undecided prepare.
    pub fn is_undecided(&self, p: Seq) -> bool
        ensures { result ≡ is_undecided self.now.entries p }
    {
        self.outline.is_undecided(p)
    }

    /// The name and the batch of the prepare with that number, decided or not, if there is one.
    pub fn prepare_at(&self, p: Seq) -> Option<(&Name, &Batch)>
        ensures { option_map (λ t. (t.0.now, t.1.now)) result ≡ prepare_of (entry_at self.now.entries p) }
    {
        self.outline.prepare_at(p)
    }

    /// The name of an undecided prepare.
    pub fn name_at(&self, p: Seq) -> &Name
        requires { is_undecided self.now.entries p ≡ true }
        ensures { result.now ≡ name_at self.now.entries p }
    {
        self.outline.name_at(p)
    }

    /// The batch of an undecided prepare.
    pub fn batch_at(&self, p: Seq) -> &Batch
        requires { is_undecided self.now.entries p ≡ true }
        ensures { result.now ≡ batch_at self.now.entries p }
    {
        self.outline.batch_at(p)
    }

    /// The undecided prepare of that name.
    pub fn named(&self, name: &Name) -> Option<Seq>
        ensures { result ≡ named self.now.entries name.now }
    {
        self.outline.named(name)
    }

    /// The undecided prepare that holds the key.
    pub fn holder_of(&self, key: &Key) -> Option<Seq>
        ensures { result ≡ holder_of self.now.entries key.now }
    {
        self.outline.holder_of(key)
    }

    /// The prepare that the last entry undoes, if it is an undo.
    pub fn undone_last(&self) -> Option<Seq>
        ensures { result ≡ undone_last self.now.entries }
    {
        self.outline.undone_last()
    }

    /// Whether the entry may follow those of the history.
    pub fn is_legal_next(&self, entry: &Entry) -> bool
        ensures { (result ≡ true) ↔ IsLegalNext self.now.entries entry.now }
    {
        self.outline.is_orderly_next(entry)
            && self
                .outline
                .restores_prior(&self.store, entry, self.outline.published())
    }

    /// What the first `n` entries leave under the key, from the base on.
    pub fn value_at(&self, key: &Key, n: Seq) -> Option<&Value>
        requires from { self.now.base ≤ n }
        requires within { n ≤ length self.now.entries }
        ensures { option_copied result ≡ value_at self.now.entries key.now n }
    {
        self.outline.value_at(&self.store, key, n)
    }

    /// What all entries leave, key by key. It goes through the entries behind the base once.
    pub fn stored(&self, alloc: Global) -> Result<BTreeMap<Key, Value>, AllocError>
        ensures { IfOk result (λ store. store.entries ≡ finite.entries (stored self.now.entries)) }
    {
        self.outline.stored(alloc, &self.store)
    }

    /// The greatest number above n of an entry that changes the key, if there is one. Since the first time that it was asked, or the
    /// first behind one at which memory was wanting, it knows the last changes of what came, so entries are gone through only down from there.
    pub fn changed_after(&mut self, alloc: Global, key: &Key, n: Seq) -> Option<Seq>
        requires { self.old.base ≤ n }
        ensures same { self.new ≡ self.old }
        ensures last { result ≡ conflict self.old.entries key.now n }
    {
        let changes = begun(alloc, self.last_changes.take(), self.outline.published());
        let number = match changes.of(key) {
            Some(number) if number > n => Some(number),
            Some(_) => None,
            None => self.outline.changed_after(key, n, changes.from()),
        };
        self.last_changes = Some(changes);
        number
    }

    /// The change that leaves under a key what the store has there.
    fn restoring(&self, alloc: Global, key: &Key) -> Result<Change, AllocError>
        ensures { IfOk result (λ change. change ≡ change_that_leaves key.now (newest self.now.entries key.now)) }
    {
        Ok(match self.value_at(key, self.published()) {
            Some(value) => Change::Put(key.copy(alloc)?, value.copy(alloc)?),
            None => Change::Del(key.copy(alloc)?),
        })
    }

    /// What the keys of an undecided prepare have in the store: the batch of its undo.
    #[tactic(auto, using(crate::proofs::Prior::prior_more, crate::proofs::Prior::prior_is_not_full))]
    pub fn prior(&self, alloc: Global, p: Seq) -> Result<Batch, AllocError>
        requires { is_undecided self.now.entries p ≡ true }
        ensures { IfOk result (λ batch. batch ≡ prior self.now.entries (batch_at self.now.entries p)) }
    {
        let mut batch = Batch::new(alloc);
        for change in self.batch_at(p).changes() {
            match batch.set(self.restoring(alloc, change.key())?) {
                Ok(()) => {}
                Err(SetError::Memory) => return Err(AllocError),
                // It has fewer keys than that batch.
                Err(SetError::TooMany) => unreachable!(),
            }
        }
        Ok(batch)
    }

    /// Takes the memory for `n` pushes.
    pub fn reserve(&mut self, n: usize) -> Result<(), AllocError>
        ensures ok { OnOk result (n ≤ self.new.room) }
        ensures base { self.new.base ≡ self.old.base }
        ensures entries { self.new.entries ≡ self.old.entries }
        ensures room { self.old.room ≤ self.new.room }
    {
        self.outline.reserve(n)
    }

    /// Adds an entry, in memory that was taken before; but for the last changes of keys, which are let go where memory is wanting.
    pub fn push(&mut self, entry: Entry)
        requires legal { IsLegalNext self.old.entries entry }
        requires few { length self.old.entries + 1 < log_end }
        requires room { 1 ≤ self.old.room }
        ensures base { self.new.base ≡ self.old.base }
        ensures entries { self.new.entries ≡ self.old.entries ++ entry ∷ [] }
        ensures room { self.new.room ≡ self.old.room - 1 }
    {
        let number = self.outline.published() + 1;
        let changes = behind(
            self.last_changes.take(),
            self.outline.batch_of(&entry),
            number,
        );
        self.outline.push(entry);
        self.last_changes = changes;
    }
}

// Written out, so that no crate above proves anew how all that it holds is let go.
impl Drop for History {
    fn drop(self) {
        let Self {
            outline: _outline,
            store: _store,
            last_changes: _last_changes,
        } = self;
    }
}
