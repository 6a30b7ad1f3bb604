//! A renewal of the log: it goes on in a segment that begins where the history ends.
ghost use Rattle.std.specs.Prelude.{◌≡◌, ◌<◌, false, [], length, None, IfOk, IfErr};
ghost use Rattle.wp_model.specs.Legal.{undone_last};
ghost use Rattle.wp_core.specs.World.{World};
ghost use Rattle.wp_rule.specs.Knows.{KnowsTables};
ghost use Rattle.wp_parts.specs.VersionSet.{IsEdits};
ghost use Rattle.wp_parts.specs.Log.{IsLog, IsSegmentOf};
ghost use Rattle.wp_shared.specs.Calls.{GoesOnAs};
ghost use Rattle.wp_shared.specs.Notes.{no_fact, GoesOn};
ghost use Rattle.wp_shared.specs.Seats.{IsFree, Stands};
ghost use Rattle.wp_maint.specs.Calls.{InstalledNone, KeepsOnce, LeavesOnce};
ghost use Rattle.wp_maint.specs.Flush.{HasFrozen, HasReady};
ghost use Rattle.wp_maint.specs.Holding.{HoldsEdits};
ghost use Rattle.wp_maint.specs.Installs.{AreLeft};
ghost use Rattle.wp_maint.specs.Renewal.{BeforeDevices, HoldsBoth, IsRefusedBefore, Renews, RenewsFrom, UnlessDeviceFault};
ghost use Rattle.wp_maint.specs.Renewing.{RenewsHolding};

use std::alloc::AllocError;
use std::sync::Wait;
use wp_maint::{
    Frozen, ReadyFlush, RenewError, Renewed, find_edits, find_held, freeze_in, make_ready,
    put_table,
};
use wp_outside::Disk;
use wp_shared::{Log, Seat, Shared, Stock, VersionSet};
use wp_stages::{find_closed, install, write_segment, write_table};
use wp_wal::NewSegment;

/// All the memory that a renewal takes, before a device is called for it.
#[derive(Drop)]
struct ReadyRenewal {
    flush: ReadyFlush,
    segment: NewSegment,
}

/// Freezes what stands in memory, under the store turn, which is taken for it.
fn freeze_held<D: Disk + Drop, R: Wait>(
    store: &Shared<D>,
    rt: &R,
    seat: &mut Seat<D>,
    edits: &VersionSet<D>,
    log: &Log<D>,
) -> Result<Frozen, AllocError>
    requires holds { HoldsBoth store.now seat.old edits.now log.now log.now.state }
    requires in_step { KnowsTables seat.old.knows edits.now.state.last }
    requires seen { (seat.old.knows.participant.seen ≡ log.now.state.history) × (log.now.state.pending ≡ []) }
    ensures goes { GoesOn no_fact seat.old.knows.held seat.old.turns seat.old seat.new }
    ensures frozen { IfOk result (HasFrozen seat.new.knows edits.now.state) }
    ensures stands { (w : World) × Stands store.now seat.new w }
{
    let mut stock = store.take_turn::<Stock, R>(rt, seat);
    let frozen = freeze_in(store, seat, edits, log, &mut stock);
    store.give_turn::<Stock>(seat, stock);
    frozen
}

/// Takes all the memory that the renewal needs.
fn make_renewal_ready<D: Disk + Drop, R: Wait>(
    store: &Shared<D>,
    rt: &R,
    seat: &mut Seat<D>,
    edits: &VersionSet<D>,
    log: &Log<D>,
) -> Result<ReadyRenewal, AllocError>
    requires holds { HoldsBoth store.now seat.old edits.now log.now log.now.state }
    requires in_step { KnowsTables seat.old.knows edits.now.state.last }
    requires seen { (seat.old.knows.participant.seen ≡ log.now.state.history) × (log.now.state.pending ≡ []) }
    requires whole { undone_last log.now.state.history ≡ None }
    ensures goes { GoesOn no_fact seat.old.knows.held seat.old.turns seat.old seat.new }
    ensures ready { IfOk result (λ ready. HasReady seat.new.knows edits.now ready.flush × IsSegmentOf log.now ready.segment) }
    ensures stands { (w : World) × Stands store.now seat.new w }
{
    let frozen = freeze_held(store, rt, seat, edits, log)?;
    let flush = make_ready(edits, frozen)?;
    let segment = log.segment()?;
    Ok(ReadyRenewal { flush, segment })
}

/// Renews the log with the memory that was taken.
fn renew_in<D: Disk + Drop, R: Wait>(
    store: &Shared<D>,
    rt: &R,
    seat: &mut Seat<D>,
    edits: &mut VersionSet<D>,
    log: &mut Log<D>,
    ready: ReadyRenewal,
) -> Result<Renewed, RenewError>
    requires holds { HoldsBoth store.now seat.old edits.old log.old log.old.state }
    requires running { (edits.old.state.halted ≡ false) × (log.old.state.closed ≡ false) × (log.old.state.pending ≡ []) }
    requires coupled { edits.old.state.last.segment ≡ log.old.state.segment }
    requires below { log.old.state.segment.base < length log.old.state.history }
    requires whole { undone_last log.old.state.history ≡ None }
    requires in_step { KnowsTables seat.old.knows edits.old.state.last }
    requires seen { (seat.old.knows.participant.seen ≡ log.old.state.history) × (log.old.state.log ≡ log.old.state.history) }
    requires ready { HasReady seat.old.knows edits.old ready.flush × IsSegmentOf log.old ready.segment }
    requires edits { IsEdits edits.old }
    requires log { IsLog log.old }
    requires stands { (w : World) × Stands store.now seat.old w }
    ensures { RenewsHolding (GoesOnAs seat.old seat.new) store.now seat.old edits.old log.old result seat.new edits.new log.new }
{
    let ReadyRenewal { flush, segment } = ready;
    let ReadyFlush {
        frozen,
        edit,
        versions: _versions,
    } = flush;
    let done = Renewed {
        at: frozen.at,
        carried: log.undecided_count() as u64,
    };
    let tabled = write_table(store, seat, edits, log, edit)?;
    let written = match write_segment(store, seat, edits, log, &segment) {
        Ok(written) => written,
        Err(why) => {
            tabled.give_up(seat.words());
            return Err(why);
        }
    };
    log.shows_waiting(&written);
    let table = install(store, seat, edits, log, written, tabled)?;
    put_table(store, rt, seat, edits, frozen, table);
    Ok(done)
}

/// For the proof alone: the last edit names the segment in use; and with nothing pending the history ends with no undo, and the log spells it.
fn shows_segment<D: Disk + Drop>(
    store: &Shared<D>,
    seat: &mut Seat<D>,
    edits: &VersionSet<D>,
    log: &Log<D>,
)
    requires { HoldsBoth store.now seat.old edits.now log.now log.now.state }
    ensures same { seat.new ≡ seat.old }
    ensures segment { edits.now.state.last.segment ≡ log.now.state.segment }
    ensures whole { log.now.state.pending ≡ [] → (undone_last log.now.state.history ≡ None) × (log.now.state.log ≡ log.now.state.history) }
{
    let _ = edits;
    log.devices_agree();
    store.shows_world(seat);
}

/// Renews the log, under both turns, where no device of the tables has failed.
fn renew_held<D: Disk + Drop, R: Wait>(
    store: &Shared<D>,
    rt: &R,
    seat: &mut Seat<D>,
    edits: &mut VersionSet<D>,
    log: &mut Log<D>,
) -> Result<Renewed, RenewError>
    requires holds { HoldsBoth store.now seat.old edits.old log.old log.old.state }
    requires running { edits.old.state.halted ≡ false }
    requires seen { (seat.old.knows.participant.seen ≡ log.old.state.history) × (log.old.state.pending ≡ []) }
    requires in_step { KnowsTables seat.old.knows edits.old.state.last }
    requires stands { (w : World) × Stands store.now seat.old w }
    ensures { RenewsHolding (GoesOnAs seat.old seat.new) store.now seat.old edits.old log.old result seat.new edits.new log.new }
{
    edits.devices_agree();
    log.devices_agree();
    if log.is_closed() {
        find_edits(store, seat);
        find_closed(store, seat, log);
        return Err(RenewError::Stopped(log.published()));
    }
    shows_segment(store, seat, edits, log);
    if log.base() == log.published() {
        find_edits(store, seat);
        return Err(RenewError::Nothing);
    }
    let ready = make_renewal_ready(store, rt, seat, edits, log)?;
    renew_in(store, rt, seat, edits, log, ready)
}

/// Renews the log, under the tables turn.
fn renew_tables<D: Disk + Drop, R: Wait>(
    store: &Shared<D>,
    rt: &R,
    seat: &mut Seat<D>,
    edits: &mut VersionSet<D>,
) -> Result<Renewed, RenewError>
    requires holds { HoldsEdits store.now seat.old edits.old }
    requires in_step { KnowsTables seat.old.knows edits.old.state.last }
    ensures holds { HoldsEdits store.now seat.new edits.new }
    ensures in_step { KnowsTables seat.new.knows edits.new.state.last }
    ensures says { RenewsFrom (GoesOnAs seat.old seat.new) store.now seat.old edits.old.state result seat.new }
    ensures manifest { IfErr result (UnlessDeviceFault (AreLeft edits.old edits.new)) }
    ensures untouched { IfErr result (BeforeDevices (edits.new ≡ edits.old)) }
{
    if edits.is_halted() {
        find_held(store, seat, edits);
        return Err(RenewError::TablesStopped(edits.flushed()));
    }
    let mut log = store.take_log(rt, seat);
    let result = renew_held(store, rt, seat, edits, &mut log);
    log.devices_agree();
    store.give_turn::<Log<D>>(seat, log);
    result
}

/// Makes the published number the base of the log: writes what stands in memory to one table more, and a segment that carries the
/// undecided prepares, beside the log or over what is dead of it; and installs an edit that names both. Writers wait meanwhile, readers
/// do not. What is in the log before is dead from then on, and opening reads no entry up to the base.
///
/// All memory is taken before the first call of a device. With versions in memory the tables' device is asked for its length, written
/// and synced. Unless the segment goes to the beginning of the log's device, that is asked for its length; it is written once and
/// synced. Last the manifest's is called as for any edit.
///
/// After a fault of a device of the tables the store is halted, and the log is stopped. After one of the log's device that is stopped
/// alone: a flush and a compaction go on with the segment in use.
pub fn renew<D: Disk + Drop, R: Wait>(
    store: &Shared<D>,
    rt: &R,
    seat: &mut Seat<D>,
) -> Result<Renewed, RenewError>
    requires { IsFree store.now.table seat.old }
    ensures answers { Renews store.now seat.old result seat.new }
    ensures before_install { IfErr result (λ why. IsRefusedBefore (LeavesOnce store.now seat.old seat.new) seat.old why seat.new) }
    ensures untouched { IfErr result (BeforeDevices (KeepsOnce store.now seat.old seat.new)) }
    ensures behind_install { IfErr result (λ _. InstalledNone seat.old.knows.participant seat.new.knows.participant) }
{
    let mut edits = store.take_turn::<VersionSet<D>, R>(rt, seat);
    edits.devices_agree();
    let result = renew_tables(store, rt, seat, &mut edits);
    edits.devices_agree();
    store.give_turn::<VersionSet<D>>(seat, edits);
    result
}
