//! Steps of the machine that a record takes by a load alone, each as what it leaves of the seat.
ghost use Rattle.std.specs.Prelude.{◌≡◌, true, false, [], ◌∷◌, ◌++◌};
ghost use Rattle.wp_model.specs.History.{is_prepare};
ghost use Rattle.wp_core.specs.Entries.{next_of};
ghost use Rattle.wp_core.specs.Lists.{IsIn};
ghost use Rattle.wp_core.specs.States.{WriteState, writes};
ghost use Rattle.wp_core.specs.Views.{versions_in_memory, number_not_in_heap};
ghost use Rattle.wp_rule.specs.Knows.{HasNoVersions};
ghost use Rattle.wp_shared.specs.Notes.{noting};
ghost use Rattle.wp_shared.specs.Seats.{held_by};
ghost use Rattle.wp_records.specs.Stages.{holding, as_failed, IsUnlogged};

use std::marker::Brand;
use wp_outside::Disk;
use wp_shared::{Log, Seat, Shared};

// ---- the pending record

/// The pending record was appended to the log.
pub(crate) fn log_pending<D: Disk + Drop>(store: &Shared<D>, seat: &mut Seat<D>, log: &Log<D>)
    requires seat { seat.old.table ≡ store.now.table }
    requires held { (t : WriteState) × (held_by seat.old ≡ writes t ∷ []) × IsUnlogged t × (log.now.state ≡ record t { logged = true; log = t.log ++ t.pending }) }
    ensures { seat.new ≡ holding log.now.state seat.old }
{
    store.make::<Brand>(seat);
}

/// The append of the pending record failed, and the log is closed.
pub(crate) fn close_log<D: Disk + Drop>(store: &Shared<D>, seat: &mut Seat<D>, log: &Log<D>)
    requires seat { seat.old.table ≡ store.now.table }
    requires held { (t : WriteState) × (held_by seat.old ≡ writes t ∷ []) × IsUnlogged t × (log.now.state ≡ record t { closed = true; failed = t.pending }) }
    ensures { seat.new ≡ holding log.now.state (as_failed log.now.state.failed seat.old) }
{
    store.make::<Brand>(seat);
}

// ---- versions

/// Notes that all versions of the pending entry are in memory, since it has none.
pub(crate) fn note_no_versions<D: Disk + Drop>(store: &Shared<D>, seat: &mut Seat<D>, log: &Log<D>)
    requires seat { (seat.old.table ≡ store.now.table) × (seat.old.knows.live ≡ true) }
    requires held { IsIn (writes log.now.state) (held_by seat.old) }
    requires none { HasNoVersions (next_of log.now.state.pending) }
    ensures { seat.new ≡ noting versions_in_memory seat.old }
{
    store.make::<Brand>(seat);
}

// ---- the number of a Prepare

/// Notes that the number of the pending entry is not in the prepared heap, since that is no Prepare.
pub(crate) fn note_no_number<D: Disk + Drop>(store: &Shared<D>, seat: &mut Seat<D>, log: &Log<D>)
    requires seat { (seat.old.table ≡ store.now.table) × (seat.old.knows.live ≡ true) }
    requires held { IsIn (writes log.now.state) (held_by seat.old) }
    requires none { is_prepare (next_of log.now.state.pending) ≡ false }
    ensures { seat.new ≡ noting number_not_in_heap seat.old }
{
    store.make::<Brand>(seat);
}
