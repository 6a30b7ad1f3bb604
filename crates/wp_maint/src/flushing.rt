//! A flush of what stands in memory.
ghost use Rattle.std.specs.Prelude.{◌≡◌, ◌≤◌, false, length, IfErr};
ghost use Rattle.wp_rule.specs.Knows.{KnowsTables};
ghost use Rattle.wp_shared.specs.Calls.{GoesOnAs};
ghost use Rattle.wp_shared.specs.Seats.{IsFree};
ghost use Rattle.wp_maint.specs.Calls.{Flushes, FlushesFrom, KeepsOnce, InstalledNone, RefusesBeforeDevices, SawWhole, UnlessFault};
ghost use Rattle.wp_maint.specs.Flush.{versions_of, HasReady};
ghost use Rattle.wp_maint.specs.Holding.{HoldsEdits};

use crate::done::Done;
use crate::error::MaintError;
use crate::frozen::{ReadyFlush, freeze_all, make_ready};
use crate::installing::{install, put_table};
use crate::steps::find_held;
use std::sync::Wait;
use wp_outside::{Disk, Failed};
use wp_shared::{Seat, Shared, VersionSet};

/// Writes what is frozen to a table and installs the edit that names it, with the memory that was taken.
fn flush_ready<D: Disk + Drop, R: Wait>(
    store: &Shared<D>,
    rt: &R,
    seat: &mut Seat<D>,
    edits: &mut VersionSet<D>,
    ready: ReadyFlush,
) -> Result<Done, MaintError>
    requires holds { HoldsEdits store.now seat.old edits.old }
    requires in_step { KnowsTables seat.old.knows edits.old.state.last }
    requires running { edits.old.state.halted ≡ false }
    requires ready { HasReady seat.old.knows edits.old ready × (1 ≤ length (versions_of ready.frozen)) }
    requires whole { SawWhole store.now seat.old seat.old.knows.participant.seen }
    ensures holds { HoldsEdits store.now seat.new edits.new }
    ensures in_step { KnowsTables seat.new.knows edits.new.state.last }
    ensures says { FlushesFrom (GoesOnAs seat.old seat.new) store.now seat.old edits.old.state result seat.new }
    ensures untouched { IfErr result (UnlessFault (edits.new ≡ edits.old)) }
{
    let ReadyFlush {
        frozen,
        versions,
        edit,
    } = ready;
    let done = Done {
        at: frozen.at,
        versions,
    };
    match install(store, seat, edits, edit) {
        Ok(table) => {
            put_table(store, rt, seat, edits, frozen, table);
            Ok(done)
        }
        Err(Failed) => Err(MaintError::TableFault),
    }
}

/// Flushes what stands in memory, under the tables turn, where no device has failed.
fn flush_running<D: Disk + Drop, R: Wait>(
    store: &Shared<D>,
    rt: &R,
    seat: &mut Seat<D>,
    edits: &mut VersionSet<D>,
) -> Result<Done, MaintError>
    requires holds { HoldsEdits store.now seat.old edits.old }
    requires in_step { KnowsTables seat.old.knows edits.old.state.last }
    requires running { edits.old.state.halted ≡ false }
    ensures holds { HoldsEdits store.now seat.new edits.new }
    ensures in_step { KnowsTables seat.new.knows edits.new.state.last }
    ensures says { FlushesFrom (GoesOnAs seat.old seat.new) store.now seat.old edits.old.state result seat.new }
    ensures untouched { IfErr result (UnlessFault (edits.new ≡ edits.old)) }
{
    let Ok(found) = freeze_all(store, rt, seat, edits) else {
        return Err(MaintError::Memory);
    };
    let Some(frozen) = found else {
        find_held(store, seat, edits);
        return Err(MaintError::Nothing);
    };
    let Ok(ready) = make_ready(edits, frozen) else {
        return Err(MaintError::Memory);
    };
    flush_ready(store, rt, seat, edits, ready)
}

/// Flushes, under the tables turn.
fn flush_in<D: Disk + Drop, R: Wait>(
    store: &Shared<D>,
    rt: &R,
    seat: &mut Seat<D>,
    edits: &mut VersionSet<D>,
) -> Result<Done, MaintError>
    requires holds { HoldsEdits store.now seat.old edits.old }
    requires in_step { KnowsTables seat.old.knows edits.old.state.last }
    ensures holds { HoldsEdits store.now seat.new edits.new }
    ensures in_step { KnowsTables seat.new.knows edits.new.state.last }
    ensures says { FlushesFrom (GoesOnAs seat.old seat.new) store.now seat.old edits.old.state result seat.new }
    ensures untouched { IfErr result (UnlessFault (edits.new ≡ edits.old)) }
{
    if edits.is_halted() {
        find_held(store, seat, edits);
        return Err(MaintError::TablesStopped(edits.flushed()));
    }
    flush_running(store, rt, seat, edits)
}

/// Writes all that stands in memory to one table more, the newest. Nothing is answered where no version stands there. All memory is taken
/// before the first call of a device. Want of memory, or a device that fails, leaves the versions as they were for readers.
pub fn flush<D: Disk + Drop, R: Wait>(
    store: &Shared<D>,
    rt: &R,
    seat: &mut Seat<D>,
) -> Result<Done, MaintError>
    requires { IsFree store.now.table seat.old }
    ensures answers { Flushes store.now seat.old result seat.new }
    ensures before_devices { IfErr result (λ why. RefusesBeforeDevices (KeepsOnce store.now seat.old seat.new) seat.old why seat.new) }
    ensures behind_install { IfErr result (λ _. InstalledNone seat.old.knows.participant seat.new.knows.participant) }
{
    let mut edits = store.take_turn::<VersionSet<D>, R>(rt, seat);
    edits.devices_agree();
    let result = flush_in(store, rt, seat, &mut edits);
    edits.devices_agree();
    store.give_turn::<VersionSet<D>>(seat, edits);
    result
}
