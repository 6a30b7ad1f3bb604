//! The steps of the machine that these calls make: each as an equation of the seat, made where the published number is loaded.
ghost use Rattle.std.specs.Prelude.{◌≡◌, ◌≤◌, ℕ, true, false, List, length, Some, None, is_some};
ghost use Rattle.std.specs.FinSet as set;
ghost use Rattle.std.specs.FinMap as finite;
ghost use Rattle.wp_model.specs.Batch.{is_batch};
ghost use Rattle.wp_model.specs.Changed.{IsUnchanged};
ghost use Rattle.wp_model.specs.declared.entry.Entry.{Entry};
ghost use Rattle.wp_model.specs.declared.holder.Holder.TheVariants.{Txn};
ghost use Rattle.wp_model.specs.LockState.{LockState};
ghost use Rattle.wp_locks.specs.Locks.{is_free_for};
ghost use Rattle.wp_core.specs.Changes.{is_held_by, with_name, without_key, without_transaction};
ghost use Rattle.wp_core.specs.Lists.{IsIn};
ghost use Rattle.wp_core.specs.Sound.Actors.{StartsWith};
ghost use Rattle.wp_core.specs.Sound.Views.{OwnsKey};
ghost use Rattle.wp_core.specs.States.{writes, locks};
ghost use Rattle.wp_core.specs.Views.{locks_stay, unprepared, unchanged};
ghost use Rattle.wp_core.specs.World.{World};
ghost use Rattle.wp_shared.specs.Notes.{noting, seat_of};
ghost use Rattle.wp_shared.specs.Seats.{Stands, held_by, participant_of, seen_by};
ghost use Rattle.wp_shared.specs.Turns.{history_in};
ghost use Rattle.wp_open_txns.specs.Calls.{WasHistory};
ghost use Rattle.wp_open_txns.specs.Actors.{transaction_in, with_claimed, with_found, with_batch, with_told, with_heard};
ghost use Rattle.wp_open_txns.specs.Turns.{IsWithout, IsWithoutKey, LocksUnchanged, TakesPrepare};
ghost use Rattle.wp_open_txns.specs.Txn.{HasPrepared, keys_in};

use crate::txn::PreparedTxn;
use std::marker::Brand;
use wp_locks::Locks;
use wp_model::{Batch, Holder, Key, Name, Seq};
use wp_outside::Disk;
use wp_shared::{Log, Seat, Shared};

/// The seat claimed the name, which was not live. It still holds the state as it was before.
pub(crate) fn claim_name<D: Disk + Drop>(store: &Shared<D>, seat: &mut Seat<D>, name: &Name)
    requires seat { seat.old.table ≡ store.now.table }
    requires free { (t : LockState) × IsIn (locks t) (held_by seat.old) × (finite.get t.names name.now ≡ None) }
    ensures { (t : LockState) → IsIn (locks t) (held_by seat.old) → seat.new ≡ seat_of seat.old (with_claimed t name.now seat.old.knows) }
{
    store.make_about::<Brand, Name>(seat, name);
}

/// The seat found that the name is live.
pub(crate) fn find_name<D: Disk + Drop>(
    store: &Shared<D>,
    seat: &mut Seat<D>,
    tables: &Locks,
    name: &Name,
)
    requires seat { seat.old.table ≡ store.now.table }
    requires held { IsIn (locks tables.now) (held_by seat.old) }
    requires live { is_some (finite.get tables.now.names name.now) ≡ true }
    ensures { (published : ℕ) × (length (seen_by seat.old) ≤ published) × (seat.new ≡ seat_of seat.old (with_found tables.now published None (Txn name.now) seat.old.knows)) }
{
    store.make_about::<Brand, Name>(seat, name);
}

/// The seat found the holder of the key.
pub(crate) fn find_holder<D: Disk + Drop>(
    store: &Shared<D>,
    seat: &mut Seat<D>,
    tables: &Locks,
    key: &Key,
    holder: &Holder,
)
    requires seat { seat.old.table ≡ store.now.table }
    requires held { IsIn (locks tables.now) (held_by seat.old) }
    requires holds { finite.get tables.now.keys key.now ≡ Some holder.now }
    ensures { (published : ℕ) × (length (seen_by seat.old) ≤ published) × (seat.new ≡ seat_of seat.old (with_found tables.now published (Some key.now) holder.now seat.old.knows)) }
{
    store.make_about::<Brand, (&Key, &Holder)>(seat, &(key, holder));
}

/// The seat locked the key, which nobody held, for its transaction of this name, and noted that the key is unchanged since all of the
/// history that it then saw. It still holds the state as it was before.
pub(crate) fn lock_key<D: Disk + Drop>(
    store: &Shared<D>,
    seat: &mut Seat<D>,
    name: &Name,
    key: &Key,
)
    requires seat { seat.old.table ≡ store.now.table }
    requires has { is_some (finite.get seat.old.knows.participant.transactions name.now) ≡ true }
    requires unlocked { set.contains (transaction_in (participant_of seat.old) name.now).locked key.now ≡ false }
    requires noted { IsIn (unprepared name.now) seat.old.knows.notes }
    requires free { (t : LockState) × IsIn (locks t) (held_by seat.old) × (is_free_for (finite.get t.keys key.now) (Txn name.now) ≡ true) }
    ensures { (t : LockState) → IsIn (locks t) (held_by seat.old) → LocksUnchanged seat.old t name.now key.now seat.new }
{
    store.make_about::<Brand, (&Name, &Key)>(seat, &(name, key));
}

/// The seat freed a key of its transaction of this name, which is no undecided prepare. It still holds the state as it was before.
pub(crate) fn free_key<D: Disk + Drop>(
    store: &Shared<D>,
    seat: &mut Seat<D>,
    tables: &Locks,
    name: &Name,
    key: &Key,
)
    requires seat { seat.old.table ≡ store.now.table }
    requires held { IsIn (locks tables.now) (held_by seat.old) }
    requires has { OwnsKey (participant_of seat.old) name.now key.now }
    requires noted { IsIn (unprepared name.now) seat.old.knows.notes }
    ensures without { IsWithoutKey seat.old seat.new (without_key tables.now key.now) name.now key.now }
    ensures stands { (w : World) × Stands store.now seat.new w }
{
    store.make_about::<Brand, (&Name, &Key)>(seat, &(name, key));
}

/// The seat noted that no entry above this number changes the key, which its transaction of this name has locked.
pub(crate) fn note_unchanged<D: Disk + Drop>(
    store: &Shared<D>,
    seat: &mut Seat<D>,
    log: &Log<D>,
    name: &Name,
    key: &Key,
    number: Seq,
)
    requires seat { (seat.old.table ≡ store.now.table) × (seat.old.knows.live ≡ true) }
    requires held { IsIn (writes log.now.state) (held_by seat.old) }
    requires has { OwnsKey (participant_of seat.old) name.now key.now }
    requires unchanged { (number ≤ length (history_in log.now)) × IsUnchanged (history_in log.now) key.now number }
    ensures { seat.new ≡ noting (unchanged name.now key.now number) seat.old }
{
    store.make_about::<Brand, (&Name, &Key, Seq)>(seat, &(name, key, number));
}

/// The seat's transaction of this name has this batch.
pub(crate) fn set_batch<D: Disk + Drop>(
    store: &Shared<D>,
    seat: &mut Seat<D>,
    name: &Name,
    batch: &Batch,
)
    requires seat { seat.old.table ≡ store.now.table }
    requires has { is_some (finite.get seat.old.knows.participant.transactions name.now) ≡ true }
    requires batch { is_batch batch.now ≡ true }
    ensures { seat.new ≡ seat_of seat.old (with_batch name.now batch.now seat.old.knows) }
{
    store.make_about::<Brand, (&Name, &Batch)>(seat, &(name, batch));
}

/// The seat freed its transaction, which is no undecided prepare, with its name and its keys. The locks had just those keys for it
/// that it locked.
pub(crate) fn free_transaction<D: Disk + Drop>(
    store: &Shared<D>,
    seat: &mut Seat<D>,
    tables: &Locks,
    name: &Name,
)
    requires seat { seat.old.table ≡ store.now.table }
    requires held { IsIn (locks tables.now) (held_by seat.old) }
    requires has { is_some (finite.get seat.old.knows.participant.transactions name.now) ≡ true }
    requires noted { IsIn (unprepared name.now) seat.old.knows.notes }
    ensures without { IsWithout seat.old seat.new (without_transaction tables.now name.now) name.now }
    ensures keys { (key : List ℕ) → is_held_by tables.now (Txn name.now) key ≡ set.contains (transaction_in (participant_of seat.old) name.now).locked key }
    ensures stands { (w : World) × Stands store.now seat.new w }
{
    store.make_about::<Brand, Name>(seat, name);
}

/// The seat noted which keys are held for its transaction, and stay so while that is undecided.
pub(crate) fn note_locks<D: Disk + Drop>(store: &Shared<D>, seat: &mut Seat<D>, txn: &PreparedTxn)
    requires seat { (seat.old.table ≡ store.now.table) × (seat.old.knows.live ≡ true) }
    requires prepared { HasPrepared seat.old txn.now }
    ensures { seat.new ≡ noting (locks_stay txn.now.name txn.now.number (keys_in txn.now.batch txn.now.locked)) seat.old }
{
    store.make_about::<Brand, PreparedTxn>(seat, txn);
}

/// The seat left its transaction, which is an undecided prepare, to whoever takes it.
pub(crate) fn leave_name<D: Disk + Drop>(
    store: &Shared<D>,
    seat: &mut Seat<D>,
    tables: &Locks,
    txn: &PreparedTxn,
)
    requires seat { seat.old.table ≡ store.now.table }
    requires held { IsIn (locks tables.now) (held_by seat.old) }
    requires prepared { HasPrepared seat.old txn.now }
    ensures without { IsWithout seat.old seat.new (with_name tables.now txn.now.name None) txn.now.name }
    ensures live { is_some (finite.get tables.now.names txn.now.name) ≡ true }
    ensures stands { (w : World) × Stands store.now seat.new w }
{
    store.make_about::<Brand, Name>(seat, &txn.name);
}

/// The seat took the undecided prepare of this name, which nobody had. It still holds the state as it was before.
pub(crate) fn take_name<D: Disk + Drop>(store: &Shared<D>, seat: &mut Seat<D>, name: &Name)
    requires seat { seat.old.table ≡ store.now.table }
    requires left { (t : LockState) × IsIn (locks t) (held_by seat.old) × (finite.get t.names name.now ≡ Some None) }
    ensures { (t : LockState) → IsIn (locks t) (held_by seat.old) → TakesPrepare seat.old t name.now seat.new }
{
    store.make_about::<Brand, Name>(seat, name);
}

/// The seat told under the label how much it has seen. It still holds the state as it was before.
pub(crate) fn tell_label<D: Disk + Drop>(store: &Shared<D>, seat: &mut Seat<D>, label: &Name)
    requires seat { seat.old.table ≡ store.now.table }
    requires held { (t : LockState) × IsIn (locks t) (held_by seat.old) }
    ensures told { (t : LockState) → IsIn (locks t) (held_by seat.old) → seat.new ≡ seat_of seat.old (with_told t label.now seat.old.knows) }
    ensures stands { (w : World) × Stands store.now seat.new w }
{
    store.make_about::<Brand, Name>(seat, label);
}

/// The seat heard this number under the label, and saw no less of the history. The answer is how much that is.
pub(crate) fn hear_label<D: Disk + Drop>(
    store: &Shared<D>,
    seat: &mut Seat<D>,
    tables: &Locks,
    label: &Name,
    number: Seq,
) -> Seq
    requires seat { seat.old.table ≡ store.now.table }
    requires held { IsIn (locks tables.now) (held_by seat.old) }
    requires there { finite.get tables.now.labels label.now ≡ Some number }
    ensures heard { (history : List Entry) × StartsWith history (seen_by seat.old) × (number ≤ length history) × (result ≡ length history)
        × (seat.new ≡ seat_of seat.old (with_heard history label.now number seat.old.knows)) }
    ensures published { WasHistory store.now seat.old (seen_by seat.new) }
{
    store.make_about::<Brand, (&Name, Seq)>(seat, &(label, number))
}
