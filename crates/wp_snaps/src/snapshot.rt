ghost use Rattle.std.specs.Prelude.{◌≡◌, ◌+◌, ◌-◌, ◌<◌, ◌≤◌, ◌==◌, not, OnOk, OnErr, IsTrue, ◌↔◌};
ghost use Rattle.std.specs.FinSet as set;

use std::alloc::{AllocError, Global};
use std::collections::HashSet;
use std::marker::Model;
use wp_model::Seq;

/// A live snapshot: how often it is registered, and the prepare numbers that the old commit map has under it.
///
/// These are asked for one by one and never listed, so a hash set serves. Unlike an ordered set it can take the
/// memory for a number before the number goes in.
#[derive(Drop)]
pub(crate) struct LiveSnapshot {
    registrations: u64,
    old_commits: HashSet<Seq>,
}

impl Model for LiveSnapshot {
    ghost use Rattle.std.specs.FinSet as set;
    ghost use Rattle.std.specs.HashSet.{spare};
    ghost use Rattle.wp_snaps.specs.Room.{RoomySnapshot, roomy_snapshot_code};

    ghost Value = { RoomySnapshot };

    ghost coded = { roomy_snapshot_code };

    ghost view = { λ s. record { snapshot = record { registrations = s.registrations; old_commits = set.from_list s.old_commits.keys }; room = spare s.old_commits } };
}

impl LiveSnapshot {
    pub fn new(alloc: Global) -> LiveSnapshot
        ensures { result.snapshot ≡ record { registrations = 1; old_commits = set.empty } }
    {
        LiveSnapshot {
            registrations: 1,
            old_commits: HashSet::new(alloc),
        }
    }

    /// Refused where the count is at its type's end.
    pub fn register(&mut self) -> Result<(), AllocError>
        ensures ok { OnOk result (self.new.snapshot ≡ record self.old.snapshot { registrations = self.old.snapshot.registrations + 1 }) }
        ensures err { OnErr result (self.new ≡ self.old) }
    {
        self.registrations = self.registrations.checked_add(1).ok_or(AllocError)?;
        Ok(())
    }

    pub fn is_registered_once(&self) -> bool
        ensures { IsTrue result ↔ (self.now.snapshot.registrations ≤ 1) }
    {
        self.registrations <= 1
    }

    pub fn release(&mut self)
        requires { 1 < self.old.snapshot.registrations }
        ensures { self.new ≡ record self.old { snapshot = record self.old.snapshot { registrations = self.old.snapshot.registrations - 1 } } }
    {
        self.registrations -= 1;
    }

    pub fn keeps(&self, p: Seq) -> bool
        ensures { result ≡ set.contains self.now.snapshot.old_commits p }
    {
        self.old_commits.contains(&p)
    }

    /// Whether there is a number under it.
    pub fn keeps_any(&self) -> bool
        ensures { result ≡ not (set.len self.now.snapshot.old_commits == 0) }
    {
        !self.old_commits.is_empty()
    }

    /// Takes the memory for one number more.
    pub fn reserve(&mut self) -> Result<(), AllocError>
        ensures ok { OnOk result (0 < self.new.room) }
        ensures same_snapshot { self.new.snapshot ≡ self.old.snapshot }
    {
        self.old_commits.reserve(1)
    }

    /// Puts the number under it, and says whether it is the only one there.
    pub fn keep(&mut self, p: Seq) -> bool
        requires { 0 < self.old.room }
        ensures kept { self.new.snapshot ≡ record self.old.snapshot { old_commits = set.insert self.old.snapshot.old_commits p } }
        ensures first { result ≡ (set.len self.old.snapshot.old_commits == 0) }
    {
        let first = self.old_commits.is_empty();
        self.old_commits.insert(p).unwrap();
        first
    }
}
