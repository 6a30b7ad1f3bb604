ghost use Rattle.std.specs.Prelude.{◌≡◌, ℕ, ◌+◌, ◌^◌, ◌<◌, ◌≤◌, ◌==◌, ◌↔◌, [], ◌∷◌, not, IsTrue, IsSome, IfOk, IfSome, OnOk, Some, is_some, length, filter, nat_eq, nat_lt, slice_index_or, if◌then◌else◌};
ghost use Rattle.std.specs.List.{list_any, prefix_len};
ghost use Rattle.std.specs.Map.{lookup};
ghost use Rattle.wp_memtable.specs.Bounds.{is_between};
ghost use Rattle.wp_memtable.specs.KeyVersions.{AreNewestFirst, has_place};

use crate::bounds::Bounds;
use std::alloc::{AllocError, Global};
use std::collections::VecDeque;
use std::marker::Model;
use wp_model::{Seq, Value};

/// The versions of a key that has had more than one, the newest first.
#[derive(Drop)]
pub(crate) struct Several {
    newest_first: VecDeque<(Seq, Option<Value>)>,
}

impl Model for Several {
    ghost use Rattle.std.specs.Prelude.{◌-◌};
    ghost use Rattle.std.specs.VecDeque.{deque_len, deque_capacity};
    ghost use Rattle.wp_memtable.specs.KeyVersions.{RoomyVersions, roomy_versions_code, AreNewestFirst};

    ghost Value = { RoomyVersions };

    ghost coded = { roomy_versions_code };

    ghost view = { λ k. record { versions = k.newest_first.items; room = deque_capacity k.newest_first - deque_len k.newest_first } };

    ghost invariant = { λ k. AreNewestFirst k.newest_first.items };
}

/// How many versions are newer than `n`.
fn newer_than(versions: &VecDeque<(Seq, Option<Value>)>, n: Seq) -> usize
    ensures { result ≡ prefix_len (λ e. nat_lt n e.0) versions.now.items }
{
    let mut i = 0;
    while let Some((number, _)) = versions.get(i) {
        if *number <= n {
            return i;
        }
        i += 1;
    }
    i
}

impl Several {
    /// None yet, with room for two.
    pub fn for_two(alloc: Global) -> Result<Several, AllocError>
        ensures versions { IfOk result (λ several. several.versions ≡ []) }
        ensures room { IfOk result (λ several. several.room ≡ 2) }
    {
        Ok(Several {
            newest_first: VecDeque::with_capacity(alloc, 2)?,
        })
    }

    /// Puts the first version.
    pub fn begin(&mut self, version: (Seq, Option<Value>))
        requires none { self.old.versions ≡ [] }
        requires room { self.old.room ≡ 2 }
        ensures versions { self.new.versions ≡ version ∷ [] }
        ensures room { self.new.room ≡ 1 }
    {
        self.newest_first.push_back_reserved(version);
    }

    pub fn len(&self) -> usize
        ensures { result ≡ length self.now.versions }
    {
        self.newest_first.len()
    }

    /// Takes the memory for one version more.
    pub fn reserve(&mut self) -> Result<(), AllocError>
        ensures ok { OnOk result (0 < self.new.room) }
        ensures same_versions { self.new.versions ≡ self.old.versions }
        ensures newest_first { AreNewestFirst self.new.versions }
    {
        self.newest_first.reserve(1)
    }

    /// Puts a version under `n`, in place of one that is there. Returns how many versions more there are.
    pub fn put(&mut self, n: Seq, value: Option<Value>) -> usize
        requires { IsTrue (has_place self.old n) }
        ensures each { (m : ℕ) → lookup (nat_eq m) self.new.versions ≡ (if n == m then Some value else lookup (nat_eq m) self.old.versions) }
        ensures count { length self.new.versions ≡ length self.old.versions + result }
        ensures most { result ≤ 1 }
        ensures newest_first { AreNewestFirst self.new.versions }
    {
        let had = self.remove(n);
        let place = newer_than(&self.newest_first, n);
        self.newest_first.insert(place, (n, value)).unwrap();
        if had { 0 } else { 1 }
    }

    /// Takes the version under `n` out. Returns whether there was one.
    fn remove(&mut self, n: Seq) -> bool
        ensures had { result ≡ is_some (lookup (nat_eq n) self.old.versions) }
        ensures versions { self.new.versions ≡ filter (λ e. not (e.0 == n)) self.old.versions }
        ensures count { length self.new.versions + (if result then 1 else 0) ≡ length self.old.versions }
        ensures room { self.old.room + (if result then 1 else 0) ≤ self.new.room }
        ensures newest_first { AreNewestFirst self.new.versions }
    {
        let place = newer_than(&self.newest_first, n);
        match self.newest_first.get(place) {
            Some((number, _)) if *number == n => {
                self.newest_first.remove(place);
                true
            }
            _ => false,
        }
    }

    /// Takes the versions up to `n` out.
    pub fn remove_up_to(&mut self, n: Seq)
        ensures versions { self.new.versions ≡ filter (λ e. nat_lt n e.0) self.old.versions }
        ensures newest_first { AreNewestFirst self.new.versions }
    {
        let newer = newer_than(&self.newest_first, n);
        self.newest_first.truncate(newer);
    }

    /// Takes the versions from `n` on out.
    pub fn remove_from(&mut self, n: Seq)
        ensures versions { self.new.versions ≡ filter (λ e. nat_lt e.0 n) self.old.versions }
        ensures newest_first { AreNewestFirst self.new.versions }
    {
        self.newest_first.retain(|version| version.0 < n);
    }

    /// Whether one of the versions has a number between the bounds.
    pub fn has_between(&self, bounds: Bounds) -> bool
        ensures { result ≡ list_any (λ e. is_between bounds e.0) self.now.versions }
    {
        self.newest_first
            .iter()
            .any(|version| bounds.have(version.0))
    }

    /// The version of that place, from 0 on.
    pub fn get(&self, i: usize) -> Option<&(Seq, Option<Value>)>
        ensures variant { IsSome result ↔ (i < length self.now.versions) }
        ensures lookup { IfSome result (λ version. version.now ≡ slice_index_or self.now.versions i version.now) }
        ensures few { length self.now.versions < 2 ^ 63 }
    {
        self.newest_first.get(i)
    }
}
