ghost use Rattle.std.specs.Prelude.{◌≡◌, IfOk, OnOk, Some, ◌<◌};
ghost use Rattle.std.specs.Option.{option_copied};
ghost use Rattle.wp_machine.specs.Effect.{with_released_any};
ghost use Rattle.std.specs.FinMap as finite;
ghost use Rattle.wp_model.specs.Snapshots.{is_old_commit, after_register, after_keep, after_release};
ghost use Rattle.std.specs.FinSet as set;
ghost use Rattle.wp_core.specs.Changes.{with_registered, with_old_commit, with_released};

use crate::lists::add_first;
use crate::pairs::{newest_of, take_of};
use std::alloc::{AllocError, Global};
use std::marker::Model;
use wp_model::Seq;

/// A live snapshot: how often it is registered, and the prepare numbers that the old commit map has under it.
pub struct LiveSnapshot {
    pub registrations: u64,
    pub old_commits: Vec<Seq>,
}

impl Model for LiveSnapshot {
    ghost use Rattle.std.specs.FinSet as set;
    ghost use Rattle.wp_model.specs.Snapshots.{LiveSnapshot, snapshot_code};

    ghost Value = { LiveSnapshot };

    ghost coded = { snapshot_code };

    ghost view = { λ s. record { registrations = s.registrations; old_commits = set.from_list s.old_commits.items } };
}

impl LiveSnapshot {
    fn copy(&self, alloc: Global) -> Result<LiveSnapshot, AllocError>
        ensures { IfOk result (λ copy. copy ≡ self.now) }
    {
        Ok(LiveSnapshot {
            registrations: self.registrations,
            old_commits: Vec::from_slice(alloc, &self.old_commits)?,
        })
    }

    #[tactic(auto, using(crate::proofs::Maps::contains_number))]
    fn keeps(&self, p: Seq) -> bool
        ensures { result ≡ set.contains self.now.old_commits p }
    {
        self.old_commits.contains(&p)
    }

    /// Registered once more.
    fn registered(&self, alloc: Global) -> Result<LiveSnapshot, AllocError>
        ensures { IfOk result (λ more. Some more ≡ after_register (Some self.now)) }
    {
        let mut more = self.copy(alloc)?;
        more.registrations = more.registrations.checked_add(1).ok_or(AllocError)?;
        Ok(more)
    }

    /// Registered once less.
    fn released(&self, alloc: Global) -> Result<LiveSnapshot, AllocError>
        requires { 1 < self.now.registrations }
        ensures { IfOk result (λ less. Some less ≡ after_release (Some self.now)) }
    {
        let mut less = self.copy(alloc)?;
        less.registrations -= 1;
        Ok(less)
    }

    /// With `p` under it.
    fn keeping(&self, p: Seq, alloc: Global) -> Result<LiveSnapshot, AllocError>
        ensures { IfOk result (λ more. Some more ≡ after_keep p (Some self.now)) }
    {
        let mut more = self.copy(alloc)?;
        more.old_commits.insert(0, p)?;
        Ok(more)
    }
}

/// The live numbers, each with its snapshot. The newest pair comes first: of two of one number the first counts.
pub struct Snapshots {
    pub live: Vec<(Seq, LiveSnapshot)>,
}

impl Model for Snapshots {
    ghost use Rattle.std.specs.FinMap as map;
    ghost use Rattle.wp_model.specs.Snapshots.{Snapshots, snapshots_code};

    ghost Value = { Snapshots };

    ghost coded = { snapshots_code };

    ghost view = { λ s. map.from_entries s.live.items };
}

impl Snapshots {
    #[tactic(auto, using(crate::proofs::Maps::newest_is_got))]
    pub fn at(&self, s: Seq) -> Option<&LiveSnapshot>
        ensures { option_copied result ≡ finite.get self.now s }
    {
        newest_of(&self.live, s)
    }

    pub fn is_old_commit(&self, s: Seq, p: Seq) -> bool
        ensures { result ≡ is_old_commit self.now s p }
    {
        match self.at(s) {
            Some(snapshot) => snapshot.keeps(p),
            None => false,
        }
    }

    /// One registration more. A count at its type's end can't rise: that too is answered as want of memory.
    pub fn register(&mut self, s: Seq, alloc: Global) -> Result<(), AllocError>
        ensures { OnOk result (self.new ≡ with_registered self.old s) }
    {
        let snapshot = match self.at(s) {
            Some(snapshot) => snapshot.registered(alloc)?,
            None => LiveSnapshot {
                registrations: 1,
                old_commits: Vec::new(alloc),
            },
        };
        add_first(&mut self.live, (s, snapshot))
    }

    /// `p` under a live number.
    #[tactic(auto, using(crate::proofs::Maps::remove_missing))]
    pub fn keep(&mut self, s: Seq, p: Seq, alloc: Global) -> Result<(), AllocError>
        ensures { OnOk result (self.new ≡ with_old_commit self.old s p) }
    {
        if let Some(snapshot) = self.at(s) {
            let kept = snapshot.keeping(p, alloc)?;
            self.live.insert(0, (s, kept))?;
        }
        Ok(())
    }
}

impl Snapshots {
    /// One registration less. With the last goes what is under the number.
    #[tactic(auto, using(crate::proofs::Maps::remove_missing))]
    pub fn release(&mut self, s: Seq, alloc: Global) -> Result<(), AllocError>
        ensures { OnOk result (self.new ≡ with_released self.old s) }
    {
        let Some(snapshot) = self.at(s) else {
            return Ok(());
        };
        if snapshot.registrations <= 1 {
            take_of(&mut self.live, s);
            return Ok(());
        }
        let less = snapshot.released(alloc)?;
        add_first(&mut self.live, (s, less))
    }

    pub fn release_any(&mut self, number: Option<Seq>, alloc: Global) -> Result<(), AllocError>
        ensures { OnOk result (self.new ≡ with_released_any self.old number) }
    {
        match number {
            Some(s) => self.release(s, alloc),
            None => Ok(()),
        }
    }
}

impl Snapshots {
    pub fn new(alloc: Global) -> Snapshots
        ensures { result ≡ finite.empty }
    {
        Snapshots {
            live: Vec::new(alloc),
        }
    }
}

// Written out, so that no crate above proves anew how all that it holds is let go.
impl Drop for LiveSnapshot {
    fn drop(self) {
        let Self {
            registrations: _registrations,
            old_commits: _old_commits,
        } = self;
    }
}

impl Drop for Snapshots {
    fn drop(self) {
        let Self { live: _live } = self;
    }
}
