//! Whether a word may be stored.
ghost use Rattle.std.specs.Prelude.{◌≡◌, ◌≢◌, ◌⊎◌, ◌<◌, ℕ, true, Some, option_map, IfOk};
ghost use Rattle.std.specs.FinSet as set;
ghost use Rattle.wp_core.specs.World.{Actor};
ghost use Rattle.wp_core.specs.Entries.{pending_pair};
ghost use Rattle.wp_model.specs.PreparedSets.{NoneDelayed};
ghost use Rattle.wp_model.specs.Snapshots.{NoOldCommits};
ghost use Rattle.wp_core.specs.Steps as step;
ghost use Rattle.wp_machine.specs.Machine.{word_step};
ghost use Rattle.wp_machine_permits.specs.Offered.{IsOffered};

use crate::permitted::empty::{has_no_old_commits, heap_is_from, none_delayed};
use crate::permitted::evicting::{fits_word, may_clear};
use crate::permitted::publishing::may_publish;
use std::alloc::AllocError;
use wp_machine::{Actor, Turn, WordStep, World};
use wp_model::Seq;

/// Either the flag is up, or the heap has no number up to the new bound.
fn may_move(world: &World, m: Seq) -> bool
    ensures { result ≡ true → (world.now.delayed_flag ≢ 0) ⊎ ((p : ℕ) → set.contains world.now.prepared.heap p ≡ true → m < p) }
{
    if world.delayed_flag != 0 {
        return true;
    }
    match m.checked_add(1) {
        Some(least) => heap_is_from(&world.prepared, least),
        None => false,
    }
}

/// The bound may rise so far.
fn may_rise(world: &World, by: usize, m: Seq) -> bool
    ensures { result ≡ true → (a : Actor) → IsOffered world.now by a (Some (step.store_max_evicted m)) }
{
    world.holders.holds(Turn::Write, by)
        && world.holders.holds(Turn::Prepared, by)
        && world.max_evicted <= m
        && m <= world.writes.published()
        && may_move(world, m)
}

/// The pending entry's pair may come into its word.
fn may_store_word(world: &World, by: usize) -> Result<bool, AllocError>
    ensures { IfOk result (λ yes. yes ≡ true → (a : Actor) → IsOffered world.now by a (option_map step.store_word (pending_pair world.now.writes.history world.now.writes.pending))) }
{
    if !world.holders.holds(Turn::Write, by) {
        return Ok(false);
    }
    let Some((p, c)) = world.writes.pending_pair()? else {
        return Ok(false);
    };
    if !fits_word(&world.cache, p, c) {
        return Ok(false);
    }
    let clear = may_clear(world, p)?;
    Ok(clear)
}

fn may_store_delayed_flag(world: &World, value: u64) -> bool
    ensures { result ≡ true → value ≡ 0 → NoneDelayed world.now.prepared }
{
    if value != 0 {
        return true;
    }
    none_delayed(&world.prepared)
}

fn may_store_old_flag(world: &World, value: u64) -> bool
    ensures { result ≡ true → value ≡ 0 → NoOldCommits world.now.snapshots }
{
    if value != 0 {
        return true;
    }
    has_no_old_commits(&world.snapshots)
}

pub(super) fn word(
    world: &World,
    by: usize,
    actor: &Actor,
    kind: &WordStep,
) -> Result<bool, AllocError>
    ensures { IfOk result (λ yes. yes ≡ true → IsOffered world.now by actor.now (word_step world.now.writes kind.now)) }
{
    match kind {
        WordStep::StoreMaxEvicted(m) => Ok(may_rise(world, by, *m)),
        WordStep::StoreDelayedFlag(value) => Ok(
            world.holders.holds(Turn::Prepared, by) && may_store_delayed_flag(world, *value),
        ),
        WordStep::StoreOldFlag(value) => Ok(
            world.holders.holds(Turn::Snapshots, by) && may_store_old_flag(world, *value),
        ),
        WordStep::StorePublished => may_publish(world, by, actor),
        WordStep::StoreWord => may_store_word(world, by),
    }
}
