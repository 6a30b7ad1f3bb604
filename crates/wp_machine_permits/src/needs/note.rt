//! Whether an actor may note a fact.
ghost use Rattle.std.specs.Prelude.{◌≡◌, ◌↔◌, ◌≤◌, true, length, IfOk};
ghost use Rattle.wp_judge.specs.Words.{commit_pair};
ghost use Rattle.wp_core.specs.Steps as step;
ghost use Rattle.wp_core.specs.Needs.{Needs};
ghost use Rattle.wp_core.specs.World.{Participant};
ghost use Rattle.wp_core.specs.Sound.Prepared.{IsInOldCommits};
ghost use Rattle.wp_core.specs.Sound.Views.{IsGuarded, IsClearing, IsApart, HasLeft, IsDelayed, IsUndelayed};
ghost use Rattle.wp_machine_permits.specs.VersionLists.{AreListed, StayUpTo};
ghost use Rattle.wp_machine_permits.specs.Said.{IsSaid};

use crate::needs::clearing::{is_apart, is_in_old_commits, is_published_at};
use crate::needs::decided::is_decided;
use crate::needs::listed::{live_listed, stay_up_to};
use crate::needs::pending::{is_in_heap, is_in_memory, is_nowhere};
use crate::needs::transactions::{has_prior, is_direct_free, is_undecided_at, is_unprepared};
use crate::needs::unchanged::{has_unchanged, locks_stay};
use crate::needs::versions::{are_equal, none_flushed};
use crate::needs::waiting::none_waits;
use std::alloc::AllocError;
use wp_machine::{Actor, Fact, Holders, Noted, Participant, StoreState, World};
use wp_model::{Seq, Version};

/// Whether the actor holds the turn that guards the fact, if one does.
fn is_guarded(holders: &Holders, fact: &Fact, by: usize) -> bool
    ensures { (result ≡ true) ↔ IsGuarded holders.now fact.now by }
{
    match fact.guard() {
        Some(turn) => holders.of(turn) == Some(by),
        None => true,
    }
}

fn is_clear(world: &World, place: usize, p: Seq, c: Seq) -> bool
    ensures { (result ≡ true) ↔ IsClearing (length world.now.writes.history) world.now.cache place (commit_pair p c) (Unit {0}) }
{
    is_published_at(&world.cache, world.writes.published(), place, p, c)
}

fn is_passed(world: &World, place: usize, p: Seq, c: Seq) -> bool
    ensures { (result ≡ true) ↔ IsClearing (length world.now.writes.history) world.now.cache place (commit_pair p c) (c ≤ world.now.max_evicted) }
{
    if !is_clear(world, place, p, c) {
        return false;
    }
    c <= world.max_evicted
}

fn is_kept(world: &World, place: usize, p: Seq, c: Seq) -> Result<bool, AllocError>
    ensures { IfOk result (λ yes. (yes ≡ true)
        ↔ IsClearing (length world.now.writes.history) world.now.cache place (commit_pair p c) (IsInOldCommits world.now.snapshots p c)) }
{
    if !is_clear(world, place, p, c) {
        return Ok(false);
    }
    is_in_old_commits(&world.snapshots, p, c, world.alloc)
}

fn is_decided_apart(world: &World, place: usize, p: Seq, c: Seq) -> bool
    ensures { (result ≡ true)
        ↔ IsClearing (length world.now.writes.history) world.now.cache place (commit_pair p c) (IsApart world.now.prepared (commit_pair p c)) }
{
    if !is_clear(world, place, p, c) {
        return false;
    }
    is_apart(&world.prepared, p, c)
}

fn words_stay(world: &World, max: Seq, words: &[u64]) -> bool
    ensures { (result ≡ true) ↔ ((world.now.max_evicted ≡ max) × (world.now.cache ≡ words.now)) }
{
    if world.max_evicted != max {
        return false;
    }
    world.cache.words() == words
}

fn has_left(world: &World, p: Seq) -> Result<bool, AllocError>
    ensures { IfOk result (λ yes. yes ≡ true → HasLeft world.now.writes.history world.now.prepared p) }
{
    if world.prepared.is_prepared(p) {
        return Ok(false);
    }
    is_decided(world.writes.entries(), p, world.alloc)
}

/// Whether the pending entry's pair, if it has one, is a delayed commit.
fn is_delayed(world: &World) -> Result<bool, AllocError>
    ensures { IfOk result (λ yes. yes ≡ true → IsDelayed world.now.writes world.now.prepared) }
{
    Ok(match world.writes.pending_pair()? {
        Some((p, c)) => world.prepared.commit_of(p) == Some(c),
        None => true,
    })
}

/// Whether the pending entry's pair is no delayed commit. Err: want of memory, or a number past its type's end.
pub(crate) fn is_undelayed(world: &World) -> Result<bool, AllocError>
    ensures { IfOk result (λ yes. yes ≡ true → IsUndelayed world.now.writes world.now.prepared) }
{
    Ok(match world.writes.pending_pair()? {
        Some((p, c)) => world.prepared.commit_of(p) != Some(c),
        None => true,
    })
}

fn tables_stay(store: &StoreState, versions: &[Version], floor: Seq) -> bool
    ensures { (result ≡ true) ↔ ((store.now.tables ≡ versions.now) × (store.now.floor ≡ floor)) }
{
    if store.floor != floor {
        return false;
    }
    are_equal(store.tables(), versions)
}

fn are_live_listed(world: &World, floor: Seq, listed: &[Seq]) -> Result<bool, AllocError>
    ensures { IfOk result (λ yes. (yes ≡ true) ↔ ((floor ≤ length world.now.writes.history) × AreListed world.now.snapshots floor listed.now)) }
{
    if floor > world.writes.published() {
        return Ok(false);
    }
    live_listed(&world.snapshots, floor, listed, world.alloc)
}

fn frozen_stay(world: &World, n: Seq, versions: &[Version]) -> Result<bool, AllocError>
    ensures { IfOk result (λ yes. (yes ≡ true) ↔ ((n ≤ length world.now.writes.history) × StayUpTo n world.now.store.memory versions.now)) }
{
    if n > world.writes.published() {
        return Ok(false);
    }
    stay_up_to(n, &world.store.memory, versions, world.alloc)
}

/// Whether what is noted of words and pairs is so.
fn is_so_of_pairs(world: &World, fact: &Fact) -> Result<bool, AllocError>
    ensures { (a : Participant) → IfOk result (λ yes. yes ≡ true → IsSaid world.now a fact.now) }
{
    match &fact.says {
        Noted::Passed(place, p, c) => Ok(is_passed(world, *place, *p, *c)),
        Noted::InOldCommits(place, p, c) => is_kept(world, *place, *p, *c),
        Noted::Apart(place, p, c) => Ok(is_decided_apart(world, *place, *p, *c)),
        Noted::WordsStay(max, words) => Ok(words_stay(world, *max, words)),
        Noted::HasLeft(p) => has_left(world, *p),
        Noted::PairDelayed => is_delayed(world),
        Noted::PairNotDelayed => is_undelayed(world),
        Noted::NoneWaits => none_waits(world),
        Noted::DelayedFlagStays(value) => Ok(world.delayed_flag == *value),
        Noted::OldFlagStays(value) => Ok(world.old_flag == *value),
        _ => Ok(false),
    }
}

/// Whether what is noted of versions and numbers is so.
fn is_so_of_versions(world: &World, fact: &Fact) -> Result<bool, AllocError>
    ensures { (a : Participant) → IfOk result (λ yes. yes ≡ true → IsSaid world.now a fact.now) }
{
    match &fact.says {
        Noted::VersionsInMemory => is_in_memory(&world.writes, &world.store),
        Noted::VersionsNowhere => is_nowhere(&world.writes, &world.store),
        Noted::NumberInHeap => is_in_heap(&world.writes, &world.prepared),
        Noted::NumberNotInHeap => Ok(!is_in_heap(&world.writes, &world.prepared)?),
        Noted::TablesStay(versions, floor) => Ok(tables_stay(&world.store, versions, *floor)),
        Noted::LiveListed(floor, listed) => are_live_listed(world, *floor, listed),
        Noted::NothingFlushed => Ok(none_flushed(
            &world.store.memory,
            world.installed.last.flushed,
        )),
        Noted::FrozenStay(n, versions) => frozen_stay(world, *n, versions),
        _ => is_so_of_pairs(world, fact),
    }
}

/// Whether what the participant notes is so.
fn is_so(world: &World, participant: &Participant, fact: &Fact) -> Result<bool, AllocError>
    ensures { IfOk result (λ yes. yes ≡ true → IsSaid world.now participant.now fact.now) }
{
    let alloc = world.alloc;
    let history = &world.writes.history;
    let locks = &world.locks;
    match &fact.says {
        Noted::UndecidedAt(name, p) => is_undecided_at(
            locks,
            history,
            participant,
            name,
            *p,
            alloc,
        ),
        Noted::PriorValues(name, p, batch) => has_prior(
            history,
            participant,
            name,
            *p,
            batch,
            alloc,
        ),
        Noted::Unprepared(name) => is_unprepared(history, participant, name, alloc),
        Noted::DirectFree(key) => is_direct_free(locks, history, participant, key, alloc),
        Noted::Unchanged(name, key, n) => has_unchanged(history, participant, name, key, *n, alloc),
        Noted::LocksStay(name, p, keys) => locks_stay(locks, history, name, *p, keys, alloc),
        _ => is_so_of_versions(world, fact),
    }
}

/// Whether the actor may note the fact.
pub(crate) fn may_note(
    world: &World,
    by: usize,
    actor: &Actor,
    fact: &Fact,
) -> Result<bool, AllocError>
    ensures { IfOk result (λ yes. yes ≡ true → Needs world.now by actor.now (step.note fact.now)) }
{
    if !actor.live {
        return Ok(false);
    }
    if !is_guarded(&world.holders, fact, by) {
        return Ok(false);
    }
    let so = is_so(world, &actor.participant, fact)?;
    Ok(so)
}
