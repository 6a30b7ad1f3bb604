//! The steps of the machine that a renewal makes, each as what it leaves of the seat.
ghost use Rattle.std.specs.Prelude.{◌≡◌, ◌≢◌, ◌<◌, true, false, [], ◌∷◌, length, None, Some, IfSome};
ghost use Rattle.wp_core.specs.Effects.{with_failed};
ghost use Rattle.wp_core.specs.Lists.{IsIn};
ghost use Rattle.wp_core.specs.States.{WriteState, Installed, installed, writes};
ghost use Rattle.wp_core.specs.Views.{log_failed, log_stopped, renewed, stopped, tables_failed};
ghost use Rattle.wp_core.specs.World.{World};
ghost use Rattle.wp_model.specs.Flushed.{IsEditCovered};
ghost use Rattle.wp_rule.specs.Knows.{KnowsRenewed, NextNamed};
ghost use Rattle.wp_parts.specs.Log.{with_next, with_segment};
ghost use Rattle.wp_shared.specs.Calls.{with_events};
ghost use Rattle.wp_shared.specs.Notes.{no_fact, with_participant, GoesOn};
ghost use Rattle.wp_shared.specs.Seats.{Stands};
ghost use Rattle.wp_maint.specs.Holding.{is_of_flushed};

use std::marker::Brand;
use wp_outside::Disk;
use wp_shared::{Log, Seat, Shared, VersionSet};
use wp_wal::Written;

/// The seat remembers that it found the log closed.
pub fn find_closed<D: Disk + Drop>(store: &Shared<D>, seat: &mut Seat<D>, log: &Log<D>)
    requires seat { seat.old.table ≡ store.now.table }
    requires held { IsIn (writes log.now.state) seat.old.knows.held × (log.now.state.closed ≡ true) }
    ensures { seat.new ≡ with_participant (with_events (stopped (length log.now.state.history) ∷ []) seat.old.knows.participant) seat.old }
{
    store.make_about::<Brand, Log<D>>(seat, log);
}

/// A segment was written beside the log in use.
pub(crate) fn remember_segment<D: Disk + Drop>(
    store: &Shared<D>,
    seat: &mut Seat<D>,
    edits: &VersionSet<D>,
    log: &Log<D>,
    written: &Written,
)
    requires seat { seat.old.table ≡ store.now.table }
    requires held { seat.old.knows.held ≡ writes log.now.state ∷ installed edits.now.state ∷ [] }
    requires may { (log.now.state.pending ≡ []) × (log.now.state.closed ≡ false) × (log.now.state.next ≡ None)
        × (written.now.segment.place ≢ log.now.state.segment.place) × (written.now.segment.base ≡ length log.now.state.history) }
    ensures goes { GoesOn no_fact (writes (with_next log.now.state written.now.segment) ∷ installed edits.now.state ∷ []) seat.old.turns seat.old seat.new }
    ensures stands { (w : World) × Stands store.now seat.new w }
{
    store.make_about::<Brand, Written>(seat, written);
}

/// The write of a segment failed, and the log is closed.
pub(crate) fn remember_log_fault<D: Disk + Drop>(
    store: &Shared<D>,
    seat: &mut Seat<D>,
    edits: &VersionSet<D>,
    log: &Log<D>,
)
    requires seat { seat.old.table ≡ store.now.table }
    requires held { (d : WriteState) × (seat.old.knows.held ≡ writes d ∷ installed edits.now.state ∷ []) × (log.now.state ≡ record d { closed = true })
        × (d.closed ≡ false) × (d.pending ≡ []) × (d.failed ≡ []) × (d.next ≡ None) × (d.segment.base < length d.history) }
    ensures goes { GoesOn no_fact (writes log.now.state ∷ installed edits.now.state ∷ []) seat.old.turns (with_participant (with_events (log_failed [] ∷ []) seat.old.knows.participant) seat.old) seat.new }
    ensures stands { (w : World) × Stands store.now seat.new w }
{
    store.make_about::<Brand, Log<D>>(seat, log);
}

/// The edit that names the segment was installed.
pub(crate) fn remember_renewal<D: Disk + Drop>(
    store: &Shared<D>,
    seat: &mut Seat<D>,
    edits: &VersionSet<D>,
    written: &Written,
)
    requires seat { seat.old.table ≡ store.now.table }
    requires held { (t : Installed) × (d : WriteState) × (seat.old.knows.held ≡ writes d ∷ installed t ∷ []) × (edits.now.state ≡ record t { last = edits.now.state.last })
        × (d.next ≡ Some written.now.segment) × KnowsRenewed seat.old.knows d t edits.now.state.last }
    ensures goes { (d : WriteState) (t : Installed) → seat.old.knows.held ≡ writes d ∷ installed t ∷ []
        → GoesOn is_of_flushed (writes d ∷ installed edits.now.state ∷ []) seat.old.turns (with_participant (with_events (renewed edits.now.state.last ∷ []) seat.old.knows.participant) seat.old) seat.new }
    ensures stands { (w : World) × Stands store.now seat.new w }
{
    store.make_about::<Brand, VersionSet<D>>(seat, edits);
}

/// The segment that the last edit names is the one in use.
pub(crate) fn use_segment<D: Disk + Drop>(
    store: &Shared<D>,
    seat: &mut Seat<D>,
    edits: &VersionSet<D>,
    log: &Log<D>,
)
    requires seat { seat.old.table ≡ store.now.table }
    requires held { (d : WriteState) × (seat.old.knows.held ≡ writes d ∷ installed edits.now.state ∷ []) × (d.closed ≡ false)
        × (d.next ≡ Some edits.now.state.last.segment) × (log.now.state ≡ with_segment d edits.now.state.last.segment) }
    ensures goes { GoesOn no_fact (writes log.now.state ∷ installed edits.now.state ∷ []) seat.old.turns seat.old seat.new }
    ensures stands { (w : World) × Stands store.now seat.new w }
{
    store.make_about::<Brand, Log<D>>(seat, log);
}

/// A device of the tables failed in a renewal: before its edit was asked for, or in its install.
pub(crate) fn remember_tables_fault<D: Disk + Drop>(
    store: &Shared<D>,
    seat: &mut Seat<D>,
    edits: &VersionSet<D>,
)
    requires seat { seat.old.table ≡ store.now.table }
    requires held { (t : Installed) × (d : WriteState) × (seat.old.knows.held ≡ writes d ∷ installed t ∷ []) × (edits.now.state ≡ with_failed t edits.now.state.failed) × (t.halted ≡ false)
        × IfSome edits.now.state.failed (λ edit. IsEditCovered seat.old.knows.participant.seen edit × NextNamed d edit) }
    ensures goes { (d : WriteState) (t : Installed) → seat.old.knows.held ≡ writes d ∷ installed t ∷ []
        → GoesOn no_fact (writes d ∷ installed edits.now.state ∷ []) seat.old.turns (with_participant (with_events (tables_failed edits.now.state.last edits.now.state.failed ∷ []) seat.old.knows.participant) seat.old) seat.new }
    ensures stands { (w : World) × Stands store.now seat.new w }
{
    store.make_about::<Brand, VersionSet<D>>(seat, edits);
}

/// The log is stopped, since a device of the tables failed.
pub(crate) fn remember_stop<D: Disk + Drop>(
    store: &Shared<D>,
    seat: &mut Seat<D>,
    edits: &VersionSet<D>,
    log: &Log<D>,
)
    requires seat { seat.old.table ≡ store.now.table }
    requires held { (d : WriteState) × (seat.old.knows.held ≡ writes d ∷ installed edits.now.state ∷ []) × (log.now.state ≡ record d { closed = true; stopped = true })
        × (d.closed ≡ false) × (d.pending ≡ []) × (d.next ≢ Some edits.now.state.last.segment) × (edits.now.state.halted ≡ true) }
    ensures goes { GoesOn no_fact (writes log.now.state ∷ installed edits.now.state ∷ []) seat.old.turns (with_participant (with_events (log_stopped ∷ []) seat.old.knows.participant) seat.old) seat.new }
    ensures stands { (w : World) × Stands store.now seat.new w }
{
    store.make_about::<Brand, Log<D>>(seat, log);
}
