//! The stages of a renewal under both turns: its table, its segment, and the edit that names both.
ghost use Rattle.std.specs.Prelude.{◌≡◌, ◌<◌, false, [], length, None, IfOk};
ghost use Rattle.std.specs.Arc.{arc_value};
ghost use Rattle.std.specs.Option.{option_map};
ghost use Rattle.wp_model.specs.Legal.{undone_last};
ghost use Rattle.wp_tableset.specs.Changes.{one_part};
ghost use Rattle.wp_core.specs.World.{World};
ghost use Rattle.wp_parts.specs.VersionSet.{IsEdits};
ghost use Rattle.wp_parts.specs.Installs.{IsReadyFor};
ghost use Rattle.wp_parts.specs.Log.{IsSegmentOf};
ghost use Rattle.wp_shared.specs.Seats.{Stands};
ghost use Rattle.wp_maint.specs.Renewal.{HoldsBoth};
ghost use Rattle.wp_maint.specs.Renewing.{HasPlace, IsTold, LeavesSegment, WritesTable};

use crate::steps::{
    remember_log_fault, remember_renewal, remember_segment, remember_stop, remember_tables_fault,
    use_segment,
};
use std::sync::Arc;
use wp_maint::{RenewError, find_edits};
use wp_outside::{Disk, Failed};
use wp_shared::{Log, ReadyInstall, Seat, Shared, VersionSet, WrittenInstall};
use wp_table::Table;
use wp_wal::{NewSegment, Written};

/// Writes the table, if there is one. Where the device failed the log is stopped.
pub fn write_table<D: Disk + Drop>(
    store: &Shared<D>,
    seat: &mut Seat<D>,
    edits: &mut VersionSet<D>,
    log: &mut Log<D>,
    edit: ReadyInstall,
) -> Result<WrittenInstall<D>, RenewError>
    requires holds { HoldsBoth store.now seat.old edits.old log.old log.old.state }
    requires running { (edits.old.state.halted ≡ false) × (log.old.state.closed ≡ false) × (log.old.state.pending ≡ []) }
    requires ready { IsReadyFor edits.old edit }
    ensures writes { WritesTable store.now seat.old edits.old log.old edit result seat.new edits.new log.new }
    ensures past { IfOk result (λ tabled. tabled.past ≡ seat.new.knows.participant.past) }
    ensures edits { IsEdits edits.new }
{
    edits.devices_agree();
    log.devices_agree();
    match edits.write_table(edit, seat.words()) {
        Ok(tabled) => {
            edits.devices_agree();
            Ok(tabled)
        }
        Err(Failed) => {
            edits.devices_agree();
            find_edits(store, seat);
            remember_tables_fault(store, seat, edits);
            log.stop();
            log.devices_agree();
            remember_stop(store, seat, edits, log);
            Err(RenewError::TableFault)
        }
    }
}

/// Writes the segment beside the log. Where the device failed the log is closed.
pub fn write_segment<D: Disk + Drop>(
    store: &Shared<D>,
    seat: &mut Seat<D>,
    edits: &VersionSet<D>,
    log: &mut Log<D>,
    segment: &NewSegment,
) -> Result<Written, RenewError>
    requires holds { HoldsBoth store.now seat.old edits.now log.old log.old.state }
    requires running { (log.old.state.closed ≡ false) × (log.old.state.pending ≡ []) }
    requires below { log.old.state.segment.base < length log.old.state.history }
    requires whole { undone_last log.old.state.history ≡ None }
    requires segment { IsSegmentOf log.old segment.now }
    requires stands { (w : World) × Stands store.now seat.old w }
    ensures { HasPlace store.now seat.old edits.now log.old result seat.new log.new }
{
    log.devices_agree();
    match log.write_segment(segment) {
        Ok(written) => {
            log.devices_agree();
            remember_segment(store, seat, edits, log, &written);
            Ok(written)
        }
        Err(_) => {
            log.devices_agree();
            find_edits(store, seat);
            remember_log_fault(store, seat, edits, log);
            Err(RenewError::LogFault)
        }
    }
}

/// Installs the edit that names the segment, and moves the log there. The answer is the edit's table, for readers. Where the device
/// failed the log is stopped.
pub fn install<D: Disk + Drop>(
    store: &Shared<D>,
    seat: &mut Seat<D>,
    edits: &mut VersionSet<D>,
    log: &mut Log<D>,
    written: Written,
    edit: WrittenInstall<D>,
) -> Result<Option<Arc<Table>>, RenewError>
    requires { IsTold store.now seat.old edits.old log.old written edit }
    ensures leaves { LeavesSegment store.now seat.old edits.old log.old written edit result seat.new edits.new log.new }
    ensures table { IfOk result (λ table. option_map arc_value table ≡ one_part edit.edit.asked.versions) }
{
    edits.devices_agree();
    log.devices_agree();
    find_edits(store, seat);
    match edits.install(edit, written.segment()) {
        Ok(table) => {
            edits.devices_agree();
            remember_renewal(store, seat, edits, &written);
            log.use_segment(written);
            log.devices_agree();
            use_segment(store, seat, edits, log);
            Ok(table)
        }
        Err(Failed) => {
            edits.devices_agree();
            remember_tables_fault(store, seat, edits);
            log.stop_with(written);
            log.devices_agree();
            remember_stop(store, seat, edits, log);
            Err(RenewError::TableFault)
        }
    }
}
