//! Taking out of the prepared sets what the evicted bound has passed.
ghost use Rattle.std.specs.Prelude.{◌≡◌, true, [], ◌∷◌, OnOk};
ghost use Rattle.wp_core.specs.States.{writes, prepared, snapshots};
ghost use Rattle.wp_core.specs.Views.{none_waits};
ghost use Rattle.wp_rule.specs.Knows.{Noted};
ghost use Rattle.wp_commits.specs.Bound.{NotedWords};
ghost use Rattle.wp_shared.specs.Notes.{is_flag, GoesOn, DelayedFlagTells, OldFlagTells};
ghost use Rattle.wp_shared.specs.Seats.{held_by};

use crate::pair_note::PairNote;
use crate::steps;
use std::alloc::AllocError;
use std::sync::Wait;
use wp_outside::Disk;
use wp_prepared::Prepared;
use wp_shared::{Log, Seat, Shared};
use wp_snaps::Snaps;

/// Under the two turns: each delayed commit that the bound has passed is kept under each live number that it overlaps, and then its
/// number leaves the prepared sets.
fn pass_all<D: Disk + Drop>(
    store: &Shared<D>,
    seat: &mut Seat<D>,
    log: &Log<D>,
    tables: &mut Prepared,
    snaps: &mut Snaps,
) -> Result<(), AllocError>
    requires seat { (seat.old.table ≡ store.now.table) × (seat.old.knows.live ≡ true) }
    requires held { held_by seat.old ≡ snapshots snaps.old ∷ prepared tables.old ∷ writes log.now.state ∷ [] }
    requires words { NotedWords seat.old.knows }
    requires delayed_flag { DelayedFlagTells seat.old.knows tables.old }
    requires old_flag { OldFlagTells seat.old.knows snaps.old }
    ensures seat { GoesOn is_flag (snapshots snaps.new ∷ prepared tables.new ∷ writes log.now.state ∷ []) seat.old.turns seat.old seat.new }
    ensures delayed_flag { DelayedFlagTells seat.new.knows tables.new }
    ensures old_flag { OldFlagTells seat.new.knows snaps.new }
    ensures waits { OnOk result (Noted seat.new.knows none_waits) }
{
    while let Some((p, c)) = steps::passed(store, seat, log, tables) {
        steps::keep(store, seat, log, snaps, p, c)?;
        steps::let_go(store, seat, log, tables, snaps, p, c);
    }
    steps::note(store, seat, PairNote::NoneWaits);
    Ok(())
}

/// Takes each delayed commit that the bound has passed out of the prepared sets, so that none waits. Where the delayed flag says
/// that nothing is delayed, none does, and no turn is taken. Where memory is wanting some may be left.
pub(crate) fn pass<D: Disk + Drop, R: Wait>(
    store: &Shared<D>,
    rt: &R,
    seat: &mut Seat<D>,
    log: &Log<D>,
) -> Result<(), AllocError>
    requires seat { (seat.old.table ≡ store.now.table) × (seat.old.knows.live ≡ true) }
    requires held { held_by seat.old ≡ writes log.now.state ∷ [] }
    requires words { NotedWords seat.old.knows }
    ensures seat { GoesOn is_flag (writes log.now.state ∷ []) seat.old.turns seat.old seat.new }
    ensures waits { OnOk result (Noted seat.new.knows none_waits) }
{
    if steps::none_delayed(store, seat, log) {
        return Ok(());
    }
    let mut tables = store.take_turn::<Prepared, R>(rt, seat);
    let mut snaps = store.take_turn::<Snaps, R>(rt, seat);
    let result = pass_all(store, seat, log, &mut tables, &mut snaps);
    store.give_turn(seat, snaps);
    store.give_turn(seat, tables);
    result
}
