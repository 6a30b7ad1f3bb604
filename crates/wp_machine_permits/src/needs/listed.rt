//! What is so of the live numbers, and of tables that stay.
ghost use Rattle.std.specs.Prelude.{◌≡◌, ◌↔◌, ◌≤◌, ◌⊎◌, ℕ, true, IfOk};
ghost use Rattle.wp_model.specs.declared.version.Version.{Version};
ghost use Rattle.wp_model.specs.Versions.{version_at};
ghost use Rattle.wp_model.specs.Covered.{is_among};
ghost use Rattle.wp_model.specs.Snapshots.{IsLive};
ghost use Rattle.wp_machine_permits.specs.Each.{Each};
ghost use Rattle.wp_machine_permits.specs.VersionLists.{AreSame, IsListed, AreListed, StayUpTo};

use crate::needs::live::numbers;
use crate::needs::versions::{are_same, up_to};
use std::alloc::{AllocError, Global};
use wp_machine::Snapshots;
use wp_model::{Seq, Version};

fn is_listed(s: Seq, floor: Seq, listed: &[Seq]) -> bool
    ensures { (result ≡ true) ↔ IsListed floor listed.now s }
{
    if floor <= s {
        return true;
    }
    listed.contains(&s)
}

fn are_listed(live: &[Seq], floor: Seq, listed: &[Seq]) -> bool
    ensures { (result ≡ true) ↔ Each (λ s. IsListed floor listed.now s) live.now }
{
    for s in live {
        if !is_listed(*s, floor, listed) {
            return false;
        }
    }
    true
}

/// Whether each live number is listed, or from the floor on.
pub(crate) fn live_listed(
    snapshots: &Snapshots,
    floor: Seq,
    listed: &[Seq],
    alloc: Global,
) -> Result<bool, AllocError>
    ensures { IfOk result (λ yes. (yes ≡ true) ↔ AreListed snapshots.now floor listed.now) }
{
    let live = numbers(snapshots, alloc)?;
    Ok(are_listed(&live, floor, listed))
}

/// Whether memory has up to `n` what the versions have.
pub(crate) fn stay_up_to(
    n: Seq,
    memory: &[Version],
    versions: &[Version],
    alloc: Global,
) -> Result<bool, AllocError>
    ensures { IfOk result (λ yes. (yes ≡ true) ↔ StayUpTo n memory.now versions.now) }
{
    let here = up_to(n, memory, alloc)?;
    let there = up_to(n, versions, alloc)?;
    Ok(are_same(&here, &there))
}
