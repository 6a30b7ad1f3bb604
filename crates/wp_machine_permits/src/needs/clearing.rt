//! What is so of a word of the cache, before its pair may be evicted.
ghost use Rattle.std.specs.Prelude.{◌≡◌, ◌↔◌, ◌≤◌, ◌<◌, true, length, IfOk};
ghost use Rattle.std.specs.Option.{option_map};
ghost use Rattle.wp_judge.specs.Words.{commit_pair, numbers_of};
ghost use Rattle.wp_model.specs.Snapshots.{is_old_commit};
ghost use Rattle.wp_core.specs.Cache.{pair_at, cached};
ghost use Rattle.wp_core.specs.Sound.Prepared.{IsInOldCommits};
ghost use Rattle.wp_core.specs.Sound.Views.{IsClearing, IsApart};
ghost use Rattle.wp_machine_permits.specs.Each.{Each};

use crate::needs::live::numbers;
use std::alloc::{AllocError, Global};
use wp_judge::unpack;
use wp_machine::{Cache, PreparedSets, Snapshots};
use wp_model::Seq;

/// The pair in the word at the place, if that is one.
pub(crate) fn pair_at(cache: &Cache, place: usize) -> Option<(Seq, Seq)>
    requires { place < length cache.now }
    ensures { result ≡ option_map numbers_of (pair_at cache.now place) }
{
    unpack(cache.bits(), place, cache.words()[place])
}

/// The decision that the cache has for a version.
pub(crate) fn cached(cache: &Cache, p: Seq) -> Option<Seq>
    ensures { result ≡ cached cache.now p }
{
    match pair_at(cache, cache.place_of(p)) {
        Some((q, c)) if q == p => Some(c),
        _ => None,
    }
}

/// Whether the word at the place has the pair, which is published.
pub(crate) fn is_published_at(cache: &Cache, published: Seq, place: usize, p: Seq, c: Seq) -> bool
    ensures { (result ≡ true) ↔ IsClearing published cache.now place (commit_pair p c) (Unit {0}) }
{
    if place >= cache.words().len() {
        return false;
    }
    if pair_at(cache, place) != Some((p, c)) {
        return false;
    }
    c <= published
}

fn is_kept_under(snapshots: &Snapshots, s: Seq, p: Seq, c: Seq) -> bool
    ensures { (result ≡ true) ↔ (p ≤ s → s < c → is_old_commit snapshots.now s p ≡ true) }
{
    if s < p || s >= c {
        return true;
    }
    snapshots.is_old_commit(s, p)
}

fn is_kept_under_each(snapshots: &Snapshots, live: &[Seq], p: Seq, c: Seq) -> bool
    ensures { (result ≡ true) ↔ Each (λ s. p ≤ s → s < c → is_old_commit snapshots.now s p ≡ true) live.now }
{
    for s in live {
        if !is_kept_under(snapshots, *s, p, c) {
            return false;
        }
    }
    true
}

/// Whether the old commit map has the pair under each live snapshot that it overlaps.
pub(crate) fn is_in_old_commits(
    snapshots: &Snapshots,
    p: Seq,
    c: Seq,
    alloc: Global,
) -> Result<bool, AllocError>
    ensures { IfOk result (λ yes. (yes ≡ true) ↔ IsInOldCommits snapshots.now p c) }
{
    let live = numbers(snapshots, alloc)?;
    Ok(is_kept_under_each(snapshots, &live, p, c))
}

/// Whether the version is of no prepared transaction, or a delayed commit with that decision.
pub(crate) fn is_apart(prepared: &PreparedSets, p: Seq, c: Seq) -> bool
    ensures { (result ≡ true) ↔ IsApart prepared.now (commit_pair p c) }
{
    if !prepared.is_prepared(p) {
        return true;
    }
    prepared.commit_of(p) == Some(c)
}
