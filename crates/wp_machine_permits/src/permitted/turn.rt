//! Whether a turn may be taken or given.
ghost use Rattle.std.specs.Prelude.{◌≡◌, true};
ghost use Rattle.wp_core.specs.Conditions.{MayGive};
ghost use Rattle.wp_model.specs.PreparedSets.{NoneDelayed};
ghost use Rattle.wp_model.specs.Snapshots.{NoOldCommits};
ghost use Rattle.wp_core.specs.Turns.{turn_of};
ghost use Rattle.wp_machine.specs.Machine.{turn_step};
ghost use Rattle.wp_machine_permits.specs.Offered.{IsOffered};

use crate::needs::has_last_tables;
use crate::permitted::empty::{has_no_old_commits, none_delayed};
use wp_machine::{Actor, Turn, TurnStep, World};

/// With nothing delayed the flag is down.
fn delayed_flag_is_right(world: &World) -> bool
    ensures { result ≡ true → NoneDelayed world.now.prepared → world.now.delayed_flag ≡ 0 }
{
    if world.delayed_flag == 0 {
        return true;
    }
    !none_delayed(&world.prepared)
}

/// With the old commit map empty the flag is down.
fn old_flag_is_right(world: &World) -> bool
    ensures { result ≡ true → NoOldCommits world.now.snapshots → world.now.old_flag ≡ 0 }
{
    if world.old_flag == 0 {
        return true;
    }
    !has_no_old_commits(&world.snapshots)
}

fn may_give(world: &World, turn: Turn) -> bool
    ensures { result ≡ true → MayGive world.now (turn_of turn) }
{
    match turn {
        Turn::Write => world.writes.pending.is_empty() && world.writes.none_next(),
        Turn::Prepared => delayed_flag_is_right(world),
        Turn::Snapshots => old_flag_is_right(world),
        Turn::Store | Turn::Locks => true,
        Turn::Tables => has_last_tables(world),
    }
}

pub(super) fn turn(world: &World, by: usize, actor: &Actor, kind: &TurnStep) -> bool
    ensures { result ≡ true → IsOffered world.now by actor.now (turn_step kind.now) }
{
    match kind {
        TurnStep::Take(turn) => world.holders.of(*turn).is_none() && actor.live,
        TurnStep::Give(turn) => world.holders.holds(*turn, by) && may_give(world, *turn),
    }
}
