//! Whether a step with the store turn may be made.
ghost use Rattle.std.specs.Prelude.{◌≡◌, true, IfOk};
ghost use Rattle.wp_machine.specs.Machine.{store_step};
ghost use Rattle.wp_machine_permits.specs.Offered.{IsOffered};

use crate::needs::{may_move_versions, may_replace_versions};
use std::alloc::AllocError;
use wp_machine::{Actor, StoreStep, Turn, World};

#[tactic(auto, using(crate::proofs::Pending::has_next, crate::proofs::Pending::has_none))]
pub(super) fn store(
    world: &World,
    by: usize,
    actor: &Actor,
    kind: &StoreStep,
) -> Result<bool, AllocError>
    ensures { IfOk result (λ yes. yes ≡ true → IsOffered world.now by actor.now (store_step world.now.writes world.now.store kind.now)) }
{
    match kind {
        StoreStep::AddVersions | StoreStep::TakeVersions => {
            Ok(world.holders.holds(Turn::Write, by) && world.holders.holds(Turn::Store, by))
        }
        StoreStep::MoveVersions(memory, moved) => may_move_versions(world, by, memory, moved),
        StoreStep::ReplaceVersions(replaced, floor) => {
            may_replace_versions(world, by, replaced, *floor)
        }
    }
}
