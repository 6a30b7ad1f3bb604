//! The steps of the machine that these calls make: each as an equation of the seat, made where the published number is loaded.
ghost use Rattle.std.specs.Prelude.{◌≡◌, true, length, Some, None, is_some};
ghost use Rattle.std.specs.FinMap as finite;
ghost use Rattle.wp_model.specs.declared.holder.Holder.TheVariants.{Client};
ghost use Rattle.wp_model.specs.History.{named};
ghost use Rattle.wp_model.specs.LockState.{LockState};
ghost use Rattle.wp_locks.specs.Locks.{is_free_for};
ghost use Rattle.wp_core.specs.Changes.{without_key};
ghost use Rattle.wp_core.specs.Conditions.{NoneNext};
ghost use Rattle.wp_core.specs.Lists.{IsIn};
ghost use Rattle.wp_core.specs.States.{writes, locks};
ghost use Rattle.wp_core.specs.Views.{unprepared, undecided_at};
ghost use Rattle.wp_core.specs.World.{World};
ghost use Rattle.wp_shared.specs.Notes.{with_note, seat_of};
ghost use Rattle.wp_shared.specs.Seats.{Stands, held_by};
ghost use Rattle.wp_shared.specs.Turns.{history_in};
ghost use Rattle.wp_open_txns.specs.Actors.{with_direct, with_stopped, with_base};
ghost use Rattle.wp_open_txns.specs.Turns.{IsWithoutDirect};

use std::marker::Brand;
use wp_locks::Locks;
use wp_model::{Key, Name, Seq};
use wp_outside::Disk;
use wp_shared::{Log, Seat, Shared};

/// The seat locked the key, which nobody held, for its direct write. It still holds the state as it was before.
pub(crate) fn lock_direct<D: Disk + Drop>(store: &Shared<D>, seat: &mut Seat<D>, key: &Key)
    requires seat { (seat.old.table ≡ store.now.table) × (seat.old.knows.live ≡ true) }
    requires none { seat.old.knows.participant.direct ≡ None }
    requires free { (t : LockState) × IsIn (locks t) (held_by seat.old) × (is_free_for (finite.get t.keys key.now) (Client seat.old.knows.participant.client) ≡ true) }
    ensures { (t : LockState) → IsIn (locks t) (held_by seat.old) → seat.new ≡ seat_of seat.old (with_direct t key.now seat.old.knows) }
{
    store.make_about::<Brand, Key>(seat, key);
}

/// The seat freed the key of its direct write.
pub(crate) fn free_direct<D: Disk + Drop>(
    store: &Shared<D>,
    seat: &mut Seat<D>,
    tables: &Locks,
    key: &Key,
)
    requires seat { seat.old.table ≡ store.now.table }
    requires held { IsIn (locks tables.now) (held_by seat.old) }
    requires has { seat.old.knows.participant.direct ≡ Some key.now }
    ensures without { IsWithoutDirect seat.old seat.new (without_key tables.now key.now) }
    ensures stands { (w : World) × Stands store.now seat.new w }
{
    store.make_about::<Brand, Key>(seat, key);
}

/// The seat found the log closed.
pub(crate) fn find_log_closed<D: Disk + Drop>(store: &Shared<D>, seat: &mut Seat<D>, log: &Log<D>)
    requires seat { seat.old.table ≡ store.now.table }
    requires held { IsIn (writes log.now.state) (held_by seat.old) }
    requires closed { log.now.state.closed ≡ true }
    ensures { seat.new ≡ seat_of seat.old (with_stopped (length (history_in log.now)) seat.old.knows) }
{
    store.make::<Brand>(seat);
}

/// The seat found the log with this base.
pub(crate) fn find_base<D: Disk + Drop>(store: &Shared<D>, seat: &mut Seat<D>, log: &Log<D>)
    requires seat { seat.old.table ≡ store.now.table }
    requires held { IsIn (writes log.now.state) (held_by seat.old) }
    requires waits { NoneNext log.now.state }
    ensures { seat.new ≡ seat_of seat.old (with_base (length (history_in log.now)) log.now.state.segment.base seat.old.knows) }
{
    store.make::<Brand>(seat);
}

/// The seat noted that its transaction of this name is the undecided prepare with this number.
pub(crate) fn note_undecided<D: Disk + Drop>(
    store: &Shared<D>,
    seat: &mut Seat<D>,
    log: &Log<D>,
    name: &Name,
    number: Seq,
)
    requires seat { (seat.old.table ≡ store.now.table) × (seat.old.knows.live ≡ true) }
    requires held { IsIn (writes log.now.state) (held_by seat.old) }
    requires has { is_some (finite.get seat.old.knows.participant.transactions name.now) ≡ true }
    requires prepare { named (history_in log.now) name.now ≡ Some number }
    ensures { seat.new ≡ seat_of seat.old (with_note (undecided_at name.now number) seat.old.knows) }
{
    store.make_about::<Brand, (&Name, Seq)>(seat, &(name, number));
}

/// The seat noted that no undecided prepare has the name of its transaction.
pub(crate) fn note_unprepared<D: Disk + Drop>(
    store: &Shared<D>,
    seat: &mut Seat<D>,
    log: &Log<D>,
    name: &Name,
)
    requires seat { (seat.old.table ≡ store.now.table) × (seat.old.knows.live ≡ true) }
    requires held { IsIn (writes log.now.state) (held_by seat.old) }
    requires has { is_some (finite.get seat.old.knows.participant.transactions name.now) ≡ true }
    requires none { named (history_in log.now) name.now ≡ None }
    ensures { seat.new ≡ seat_of seat.old (with_note (unprepared name.now) seat.old.knows) }
{
    store.make_about::<Brand, Name>(seat, name);
}
