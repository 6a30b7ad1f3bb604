//! The undecided prepares: their names, their batches and the keys that they hold.
ghost use Rattle.std.specs.Prelude.{◌≡◌, true};
ghost use Rattle.std.specs.Option.{option_map};
ghost use Rattle.std.specs.Str.{bytes_eq};
ghost use Rattle.wp_model.specs.History.{entry_at, batch_at, name_at, is_changed, is_undecided, named, holder_of};
ghost use Rattle.wp_history_laws.specs.Prepares.{prepare_of};

use crate::outline::Outline;
use wp_model::{Batch, Entry, Key, Name, Seq};

impl Outline {
    /// Whether the number is that of an undecided prepare.
    pub fn is_undecided(&self, p: Seq) -> bool
        ensures { result ≡ is_undecided self.now.entries p }
    {
        self.undecided().binary_search(&p).is_ok()
    }

    /// The name and the batch of the prepare with that number, decided or not, if there is one.
    pub fn prepare_at(&self, p: Seq) -> Option<(&Name, &Batch)>
        ensures { option_map (λ t. (t.0.now, t.1.now)) result ≡ prepare_of (entry_at self.now.entries p) }
    {
        if p <= self.base() {
            return self.carried_at(p);
        }
        match self.entry_at(p) {
            Some(Entry::Prepare(name, batch)) => Some((name, batch)),
            _ => None,
        }
    }

    /// The name of an undecided prepare.
    pub fn name_at(&self, p: Seq) -> &Name
        requires { is_undecided self.now.entries p ≡ true }
        ensures { result.now ≡ name_at self.now.entries p }
    {
        match self.prepare_at(p) {
            Some((name, _)) => name,
            None => unreachable!(),
        }
    }

    /// The batch of an undecided prepare.
    pub fn batch_at(&self, p: Seq) -> &Batch
        requires { is_undecided self.now.entries p ≡ true }
        ensures { result.now ≡ batch_at self.now.entries p }
    {
        match self.prepare_at(p) {
            Some((_, batch)) => batch,
            None => unreachable!(),
        }
    }

    fn has_name(&self, p: Seq, name: &Name) -> bool
        ensures { result ≡ bytes_eq (name_at self.now.entries p) name.now }
    {
        match self.prepare_at(p) {
            Some((other, _)) => other == name,
            // What is no prepare has the empty name, which no transaction has.
            None => name.bytes().is_empty(),
        }
    }

    fn changes_key(&self, p: Seq, key: &Key) -> bool
        ensures { result ≡ is_changed (batch_at self.now.entries p) key.now }
    {
        match self.prepare_at(p) {
            Some((_, batch)) => batch.get(key).is_some(),
            None => false,
        }
    }

    /// The undecided prepare of that name.
    pub fn named(&self, name: &Name) -> Option<Seq>
        ensures { result ≡ named self.now.entries name.now }
    {
        self.undecided()
            .iter()
            .copied()
            .find(|p| self.has_name(*p, name))
    }

    /// The undecided prepare that holds the key.
    pub fn holder_of(&self, key: &Key) -> Option<Seq>
        ensures { result ≡ holder_of self.now.entries key.now }
    {
        self.undecided()
            .iter()
            .copied()
            .find(|p| self.changes_key(*p, key))
    }
}
