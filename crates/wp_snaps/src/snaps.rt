ghost use Rattle.std.specs.Prelude.{◌≡◌, ℕ, ◌==◌, not, OnOk, OnErr, IsTrue, ◌↔◌};
ghost use Rattle.std.specs.List.{Contains};
ghost use Rattle.std.specs.List.Sorted.{IsStrictlyIncreasing};
ghost use Rattle.std.specs.FinMap as map;
ghost use Rattle.wp_model.specs.Snapshots.{ChangesWhere, IsLive, is_old_commit, overlaps, after_register, after_release, after_keep, NoOldCommits};

use crate::kept::{keep_each, reserve_each};
use crate::live::Live;
use crate::snapshot::LiveSnapshot;
use std::alloc::{AllocError, Global};
use std::collections::BTreeMap;
use std::marker::Model;
use wp_model::Seq;

/// The live snapshots with the old commit map, which the holder of the snapshots turn changes.
pub struct Snaps {
    alloc: Global,
    live: BTreeMap<Seq, LiveSnapshot>,
    /// How many live numbers have something under them.
    kept: usize,
}

impl Model for Snaps {
    ghost use Rattle.wp_model.specs.Snapshots.{Snapshots, snapshots_code};
    ghost use Rattle.std.specs.Prelude.{◌≡◌};
    ghost use Rattle.std.specs.FinSet as set;
    ghost use Rattle.wp_snaps.specs.KeptNumbers.{kept_numbers};
    ghost use Rattle.wp_snaps.specs.Room.{snapshots_of};

    ghost Value = { Snapshots };

    ghost coded = { snapshots_code };

    ghost view = { λ s. snapshots_of s.live };

    ghost invariant = { λ s. s.kept ≡ set.len (kept_numbers (snapshots_of s.live)) };
}

impl Snaps {
    pub fn new(alloc: Global) -> Snaps
        ensures { result ≡ map.empty }
    {
        Snaps {
            alloc,
            live: BTreeMap::new(alloc),
            kept: 0,
        }
    }

    /// Registers the number once more; the first time makes it live. A count at its type's end can't rise: that
    /// too is answered as want of memory, since no memory holds so many registrations.
    pub fn register(&mut self, s: Seq) -> Result<(), AllocError>
        ensures ok { OnOk result (ChangesWhere (λ q. q == s) after_register self.old self.new) }
        ensures err { OnErr result (self.new ≡ self.old) }
    {
        if let Some(snapshot) = self.live.get_mut(&s) {
            return snapshot.register();
        }
        self.live.insert(s, LiveSnapshot::new(self.alloc))?;
        Ok(())
    }

    /// Takes one registration of the number back. With the last goes what is under it.
    pub fn release(&mut self, s: Seq)
        requires { IsLive self.old s }
        ensures { ChangesWhere (λ q. q == s) after_release self.old self.new }
    {
        let snapshot = self.live.get_mut(&s).unwrap();
        if snapshot.is_registered_once() {
            self.kept -= usize::from(snapshot.keeps_any());
            self.live.remove(&s);
        } else {
            snapshot.release();
        }
    }

    /// Keeps `p`, whose pair (`p`, `c`) is about to leave the commit cache, under each live number that overlaps
    /// the pair. The memory for all of them is taken before the first is changed.
    pub fn keep_evicted(&mut self, p: Seq, c: Seq) -> Result<(), AllocError>
        ensures ok { OnOk result (ChangesWhere (overlaps p c) (after_keep p) self.old self.new) }
        ensures err { OnErr result (self.new ≡ self.old) }
    {
        reserve_each(&mut self.live, p, c)?;
        let more = keep_each(&mut self.live, p, c);
        // Each of them is live, so their number is one that a length can be.
        let _live = self.live.len();
        self.kept += more;
        Ok(())
    }

    /// Whether the old commit map is empty, in constant time.
    pub fn none_kept(&self) -> bool
        ensures { IsTrue result ↔ NoOldCommits self.now }
    {
        self.kept == 0
    }

    /// Whether a `p` whose pair left the commit cache is visible at `s`.
    pub fn shows(&self, s: Seq, p: Seq) -> bool
        requires { IsLive self.now s }
        ensures { result ≡ not (is_old_commit self.now s p) }
    {
        !self.live.get(&s).unwrap().keeps(p)
    }

    /// The live numbers, ascending, each once.
    pub fn live(&self) -> Live<'_>
        ensures ascending { IsStrictlyIncreasing result }
        ensures each { (s : ℕ) → Contains result s ↔ IsLive self.now s }
    {
        Live::new(self.live.keys())
    }
}

// Written out, so that no crate above proves anew how all that it holds is let go.
impl Drop for Snaps {
    fn drop(self) {
        let Self {
            alloc: _alloc,
            live: _live,
            kept: _kept,
        } = self;
    }
}
