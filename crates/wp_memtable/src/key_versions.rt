ghost use Rattle.std.specs.Prelude.{◌≡◌, ℕ, ◌+◌, ◌^◌, ◌<◌, ◌≤◌, ◌==◌, ◌↔◌, [], IsTrue, IsSome, IfSome, OnOk, Some, length, filter, nat_eq, nat_lt, slice_index_or, if◌then◌else◌};
ghost use Rattle.std.specs.List.{list_any};
ghost use Rattle.std.specs.Map.{lookup};
ghost use Rattle.wp_memtable.specs.Bounds.{is_between};
ghost use Rattle.wp_memtable.specs.KeyVersions.{AreNewestFirst, has_place};

use crate::bounds::Bounds;
use crate::several::Several;
use std::alloc::{AllocError, Global};
use std::marker::Model;
use std::mem;
use wp_model::{Seq, Value};

/// The versions of one key, the newest first. Most keys have one, which takes no memory beside its key's.
#[derive(Drop)]
pub(crate) struct KeyVersions {
    kept: Kept,
}

pub(crate) enum Kept {
    Empty,
    One((Seq, Option<Value>)),
    Many(Several),
}

impl Model for KeyVersions {
    ghost use Rattle.wp_memtable.specs.Kept.{kept_versions};
    ghost use Rattle.wp_memtable.specs.KeyVersions.{RoomyVersions, roomy_versions_code, AreNewestFirst};

    ghost Value = { RoomyVersions };

    ghost coded = { roomy_versions_code };

    ghost view = { λ k. kept_versions k.kept };

    ghost invariant = { λ k. AreNewestFirst (kept_versions k.kept).versions };
}

impl KeyVersions {
    /// None, with room for one.
    #[tactic(auto, using(crate::proofs::KeyVersions::newest_none))]
    pub fn new() -> KeyVersions
        ensures versions { result.versions ≡ [] }
        ensures room { 0 < result.room }
        ensures newest_first { AreNewestFirst result.versions }
    {
        KeyVersions { kept: Kept::Empty }
    }

    pub fn len(&self) -> usize
        ensures { result ≡ length self.now.versions }
    {
        match &self.kept {
            Kept::Empty => 0,
            Kept::One(_) => 1,
            Kept::Many(several) => several.len(),
        }
    }

    /// Takes the memory for one version more.
    pub fn reserve(&mut self, alloc: Global) -> Result<(), AllocError>
        ensures ok { OnOk result (0 < self.new.room) }
        ensures same_versions { self.new.versions ≡ self.old.versions }
        ensures newest_first { AreNewestFirst self.new.versions }
    {
        match &mut self.kept {
            Kept::Empty => Ok(()),
            Kept::One(version) => {
                let mut several = Several::for_two(alloc)?;
                several.begin(mem::replace(version, (0, None)));
                self.kept = Kept::Many(several);
                Ok(())
            }
            Kept::Many(several) => several.reserve(),
        }
    }

    /// Puts a version under `n`, in place of one that is there. Returns how many versions more there are.
    #[tactic(auto, using(crate::proofs::KeyVersions::newest_one))]
    pub fn put(&mut self, n: Seq, value: Option<Value>) -> usize
        requires { IsTrue (has_place self.old n) }
        ensures each { (m : ℕ) → lookup (nat_eq m) self.new.versions ≡ (if n == m then Some value else lookup (nat_eq m) self.old.versions) }
        ensures count { length self.new.versions ≡ length self.old.versions + result }
        ensures most { result ≤ 1 }
        ensures newest_first { AreNewestFirst self.new.versions }
    {
        match &mut self.kept {
            Kept::Empty => {
                self.kept = Kept::One((n, value));
                1
            }
            Kept::One(version) => {
                *version = (n, value);
                0
            }
            Kept::Many(several) => several.put(n, value),
        }
    }

    /// Takes the versions up to `n` out.
    #[tactic(auto, using(crate::proofs::KeyVersions::newest_none))]
    pub fn remove_up_to(&mut self, n: Seq)
        ensures versions { self.new.versions ≡ filter (λ e. nat_lt n e.0) self.old.versions }
        ensures newest_first { AreNewestFirst self.new.versions }
    {
        match &mut self.kept {
            Kept::Empty => {}
            Kept::One((number, _)) => {
                if *number <= n {
                    self.kept = Kept::Empty;
                }
            }
            Kept::Many(several) => several.remove_up_to(n),
        }
    }

    /// Takes the versions from `n` on out.
    #[tactic(auto, using(crate::proofs::KeyVersions::newest_none))]
    pub fn remove_from(&mut self, n: Seq)
        ensures versions { self.new.versions ≡ filter (λ e. nat_lt e.0 n) self.old.versions }
        ensures newest_first { AreNewestFirst self.new.versions }
    {
        match &mut self.kept {
            Kept::Empty => {}
            Kept::One((number, _)) => {
                if n <= *number {
                    self.kept = Kept::Empty;
                }
            }
            Kept::Many(several) => several.remove_from(n),
        }
    }

    /// Whether one of the versions has a number between the bounds.
    pub fn has_between(&self, bounds: Bounds) -> bool
        ensures { result ≡ list_any (λ e. is_between bounds e.0) self.now.versions }
    {
        match &self.kept {
            Kept::Empty => false,
            Kept::One((number, _)) => bounds.have(*number),
            Kept::Many(several) => several.has_between(bounds),
        }
    }

    /// The version of that place, from 0 on.
    pub fn get(&self, i: usize) -> Option<&(Seq, Option<Value>)>
        ensures variant { IsSome result ↔ (i < length self.now.versions) }
        ensures lookup { IfSome result (λ version. version.now ≡ slice_index_or self.now.versions i version.now) }
        ensures few { length self.now.versions < 2 ^ 63 }
        ensures newest_first { AreNewestFirst self.now.versions }
    {
        match &self.kept {
            Kept::One(version) if i == 0 => Some(version),
            Kept::Many(several) => several.get(i),
            Kept::Empty | Kept::One(_) => None,
        }
    }
}

// Written out, so that no code that lets one go has to tell its variants apart.
impl Drop for Kept {
    fn drop(self) {
        match self {
            Kept::Empty => {}
            Kept::One(_version) => {}
            Kept::Many(_several) => {}
        }
    }
}
