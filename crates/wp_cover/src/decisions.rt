ghost use Rattle.std.specs.Prelude.{◌≡◌, ℕ, IfOk, OnOk, Some, None, if◌then◌else◌};
ghost use Rattle.std.specs.Option.{option_or};
ghost use Rattle.std.specs.BTreeMap.{get};
ghost use Rattle.std.specs.Ordering.{nat_cmp};
ghost use Rattle.wp_model.specs.History.{decides};
ghost use Rattle.wp_model.specs.Decision.{decision_of, is_committed};
ghost use Rattle.wp_cover.specs.Decisions.{HasDeciders, decided_by};

use crate::sources::is_fixed;
use std::alloc::{AllocError, Global};
use std::collections::BTreeMap;
use std::marker::Model;
use wp_history::History;
use wp_model::{Entry, Seq};

/// A history, with what decides its prepares: one pass over its entries notes that, so that no decision is searched for.
#[derive(Drop)]
pub struct Decisions<'a> {
    history: &'a History,
    /// Under the number of a prepare, that of the first entry that commits or closes it.
    deciders: BTreeMap<Seq, Seq>,
}

impl<'a> Model for Decisions<'a> {
    ghost use Rattle.std.specs.Prelude.{List};
    ghost use Rattle.wp_model.specs.declared.entry.Entry.{Entry};
    ghost use Rattle.wp_cover.specs.Decisions.{HasDeciders};

    ghost Value = { List Entry };

    ghost view = { λ d. d.history.now.entries };

    ghost invariant = { λ d. HasDeciders d.history.now.entries d.deciders };
}

/// The prepare that the entry decides.
fn decided_by(entry: &Entry) -> Option<Seq>
    ensures { result ≡ decided_by entry.now }
{
    match entry {
        Entry::Commit(p) | Entry::Close(p) => Some(*p),
        Entry::Write(_) | Entry::Prepare(_, _) | Entry::Undo(_, _) => None,
    }
}

/// Notes what the entry with that number decides, unless an earlier one decides it.
fn note(deciders: &mut BTreeMap<Seq, Seq>, entry: &Entry, number: Seq) -> Result<(), AllocError>
    ensures { OnOk result ((p : ℕ) → get nat_cmp deciders.new p ≡ option_or (get nat_cmp deciders.old p) (if decides p entry.now then Some number else None)) }
{
    let Some(p) = decided_by(entry) else {
        return Ok(());
    };
    if !deciders.contains_key(&p) {
        deciders.insert(p, number)?;
    }
    Ok(())
}

/// No entry up to the base decides anything.
fn deciders_of(alloc: Global, history: &History) -> Result<BTreeMap<Seq, Seq>, AllocError>
    ensures { IfOk result (λ deciders. HasDeciders history.now.entries deciders) }
{
    let mut deciders = BTreeMap::new(alloc);
    for (i, entry) in history.later().iter().enumerate() {
        note(&mut deciders, entry, history.base() + i as Seq + 1)?;
    }
    Ok(deciders)
}

impl<'a> Decisions<'a> {
    /// Passes over the history once. It is refused only for want of memory.
    pub fn of(alloc: Global, history: &'a History) -> Result<Decisions<'a>, AllocError>
        ensures { IfOk result (λ decisions. decisions ≡ history.now.entries) }
    {
        Ok(Decisions {
            history,
            deciders: deciders_of(alloc, history)?,
        })
    }

    /// The number that decides the entry with that number: of a write or an undo its own, of a prepare that of the first
    /// entry that commits or closes it. None, where nothing decides it yet, and at a commit, a close or no entry. Up to the base
    /// stand writes and prepares alone.
    pub fn decision_of(&self, p: Seq) -> Option<Seq>
        ensures { result ≡ decision_of self.now p }
    {
        if is_fixed(self.history, p) {
            return Some(p);
        }
        if self.history.prepare_at(p).is_some() {
            return self.deciders.get(&p).copied();
        }
        match self.history.entry_at(p)? {
            Entry::Write(_) | Entry::Undo(_, _) => Some(p),
            Entry::Prepare(_, _) | Entry::Commit(_) | Entry::Close(_) => None,
        }
    }

    /// Whether the versions with the number `p` are committed at `n`.
    pub fn is_committed(&self, p: Seq, n: Seq) -> bool
        ensures { result ≡ is_committed self.now p n }
    {
        match self.decision_of(p) {
            Some(by) => by <= n,
            None => false,
        }
    }
}
