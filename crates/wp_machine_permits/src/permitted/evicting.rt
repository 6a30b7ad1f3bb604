//! Whether the pair of a word may be evicted.
ghost use Rattle.std.specs.Prelude.{◌≡◌, true, false, Some, length, IfOk};
ghost use Rattle.wp_judge.specs.Words.{CommitPair, commit_pair, fits};
ghost use Rattle.wp_core.specs.Cache.{pair_at, cache_place};
ghost use Rattle.wp_core.specs.Conditions.{MayBeEvicted};

use crate::needs::{is_apart, is_in_old_commits, pair_at};
use std::alloc::AllocError;
use wp_judge::{LAST_SEQ, fits};
use wp_machine::{Cache, World};
use wp_model::Seq;

/// Whether the pair fits a word of the cache.
pub(super) fn fits_word(cache: &Cache, p: Seq, c: Seq) -> bool
    ensures { result ≡ true → fits (length cache.now) (commit_pair p c) ≡ true }
{
    p <= c && c <= LAST_SEQ && fits(cache.bits(), p, c)
}

/// Whether it fits none.
pub(super) fn fits_no_word(cache: &Cache, p: Seq, c: Seq) -> bool
    ensures { result ≡ true → fits (length cache.now) (commit_pair p c) ≡ false }
{
    p <= c && c <= LAST_SEQ && !fits(cache.bits(), p, c)
}

fn may_be_evicted(world: &World, p: Seq, c: Seq) -> Result<bool, AllocError>
    ensures { IfOk result (λ yes. yes ≡ true → MayBeEvicted world.now (commit_pair p c)) }
{
    let kept = is_in_old_commits(&world.snapshots, p, c, world.alloc)?;
    Ok(c <= world.max_evicted && kept && is_apart(&world.prepared, p, c))
}

/// What is in the word of the version may be evicted.
pub(super) fn may_clear(world: &World, p: Seq) -> Result<bool, AllocError>
    ensures { IfOk result (λ yes. yes ≡ true → (gone : CommitPair) → pair_at world.now.cache (cache_place (length world.now.cache) p) ≡ Some gone → MayBeEvicted world.now gone) }
{
    match pair_at(&world.cache, world.cache.place_of(p)) {
        Some((p, c)) => may_be_evicted(world, p, c),
        None => Ok(true),
    }
}
