ghost use Rattle.std.specs.Prelude.{◌≡◌, ℕ, IfOk};
ghost use Rattle.std.specs.FinMap as map;
ghost use Rattle.wp_keep.specs.Keep.{by_commits, commits_in, is_committed};

use crate::newer::least;
use crate::pair::Pair;
use std::alloc::{AllocError, Global};
use std::collections::BTreeMap;
use std::marker::Model;
use wp_model::Seq;

/// By which number each number is committed.
#[derive(Drop)]
pub(crate) struct Commits {
    by_number: BTreeMap<Seq, Seq>,
}

impl Model for Commits {
    ghost use Rattle.std.specs.Prelude.{ℕ};
    ghost use Rattle.std.specs.Ordering.{nat_cmp};
    ghost use Rattle.std.specs.Coded.{coded_ℕ};
    ghost use Rattle.std.specs.FinMap as map;

    ghost Value = { map.FinMap nat_cmp ℕ };

    ghost coded = { map.code coded_ℕ coded_ℕ };

    ghost view = { λ c. map.from_entries c.by_number.entries };
}

fn commits_of(alloc: Global, committed: &[Pair]) -> Result<BTreeMap<Seq, Seq>, AllocError>
    ensures { IfOk result (λ commits. (p n : ℕ) → by_commits (commits_in commits.entries) p n ≡ is_committed committed.now p n) }
{
    let mut commits = BTreeMap::new(alloc);
    for pair in committed {
        let commit = least(commits.get(&pair.number).copied(), pair.commit);
        commits.insert(pair.number, commit)?;
    }
    Ok(commits)
}

impl Commits {
    /// Of several pairs of one number the least commit counts.
    pub fn of(alloc: Global, committed: &[Pair]) -> Result<Commits, AllocError>
        ensures { IfOk result (λ commits. (p n : ℕ) → by_commits commits p n ≡ is_committed committed.now p n) }
    {
        Ok(Commits {
            by_number: commits_of(alloc, committed)?,
        })
    }

    pub fn commit_of(&self, number: Seq) -> Option<Seq>
        ensures { result ≡ map.get self.now number }
    {
        self.by_number.get(&number).copied()
    }
}
