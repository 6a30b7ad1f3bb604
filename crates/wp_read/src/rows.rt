//! The rows of a snapshot, from key to key.
//!
//! A key is found under the store turn, with its newest version, and decided without it. A key that has a row at a live
//! snapshot has a version in the store at each moment, so it is never passed over, whatever is flushed or dropped
//! meanwhile. One that has none may lose its versions or come new: then it is read, and has no row.
ghost use Rattle.std.specs.Prelude.{◌≡◌, true, Some, None, IfOk, IfSome, OnOk};
ghost use Rattle.std.specs.Option.{option_map};
ghost use Rattle.std.specs.Ordering.{is_gt};
ghost use Rattle.wp_model.specs.Batch.{key_cmp};
ghost use Rattle.wp_model.specs.Rows.{is_from};
ghost use Rattle.wp_core.specs.Lists.{IsIn};
ghost use Rattle.wp_core.specs.Reading.{Registration};
ghost use Rattle.wp_core.specs.Turns.{store_turn};
ghost use Rattle.wp_shared.specs.Calls.{Continues};
ghost use Rattle.wp_shared.specs.Notes.{is_under, GoesOn};
ghost use Rattle.wp_shared.specs.Seats.{IsFree, held_by, participant_of, seen_by};
ghost use Rattle.wp_shared.specs.Turns.{comes_last};
ghost use Rattle.wp_read.specs.Rows.{HasNoRow, HasWords, IsInRange, IsRowOf, SkipsNoRow};
ghost use Rattle.wp_read.specs.Values.{ShowsValue};
ghost use Rattle.wp_read.specs.declared.values.TheConstants.{FIRST_COPIES};

use crate::registration::Snapshot;
use crate::values::{FIRST_COPIES, decided, row_behind};
use std::alloc::AllocError;
use std::sync::Wait;
use wp_model::{Key, Seq, Value, Versions};
use wp_outside::Disk;
use wp_shared::{Seat, Shared, Stock};

/// A key that was come to, and its row: the number of its version and the value, or none where it has no row.
#[derive(Drop)]
pub struct KeyRow {
    pub key: Key,
    pub row: Option<(Seq, Value)>,
}

/// Copies the next key behind a place, and its newest version, under the store turn, which comes behind all that the
/// seat holds.
fn copy_next<D: Disk + Drop, R: Wait>(
    store: &Shared<D>,
    rt: &R,
    seat: &mut Seat<D>,
    key: &Key,
    above: bool,
) -> Result<Option<(Key, Versions)>, AllocError>
    requires seat { (seat.old.table ≡ store.now.table) × (seat.old.knows.live ≡ true) }
    requires order { comes_last store_turn (held_by seat.old) ≡ true }
    ensures goes { GoesOn (is_under store_turn) (held_by seat.old) seat.old.turns seat.old seat.new }
    ensures from { IfOk result (λ found. IfSome found (λ next. is_from above key.now next.0 ≡ true)) }
    ensures skips { IfOk result (λ found. (r : Registration) → IsIn r seat.old.knows.participant.registered
        → SkipsNoRow (seen_by seat.old) r.number above key.now (option_map (λ next. next.0) found)) }
    ensures shows { IfOk result (λ found. IfSome found (λ next. (r : Registration) → IsIn r seat.old.knows.participant.registered
        → ShowsValue (seen_by seat.old) next.0 r.number FIRST_COPIES next.1)) }
    ensures words { OnOk result ((r : Registration) → IsIn r seat.old.knows.participant.registered → HasWords (seen_by seat.old) r.number) }
{
    let stock = store.take_turn::<Stock, R>(rt, seat);
    let found = stock.next_version(key, above);
    store.give_turn::<Stock>(seat, stock);
    found
}

/// The row of the key, whose newest version was copied.
fn row_in<D: Disk + Drop, R: Wait>(
    store: &Shared<D>,
    rt: &R,
    seat: &mut Seat<D>,
    key: &Key,
    newest: Versions,
    snapshot: &Snapshot,
) -> Result<Option<(Seq, Value)>, AllocError>
    requires free { IsFree store.now.table seat.old }
    requires registered { IsIn snapshot.now seat.old.knows.participant.registered }
    requires shows { ShowsValue (seen_by seat.old) key.now snapshot.now.number FIRST_COPIES newest }
    ensures continues { Continues store.now seat.old seat.new (participant_of seat.old) }
    ensures same { participant_of seat.new ≡ participant_of seat.old }
    ensures row { IfOk result (λ row. IsRowOf (seen_by seat.old) key.now snapshot.now.number row) }
{
    let first = decided(store, rt, seat, newest, FIRST_COPIES, &[], snapshot);
    row_behind(store, rt, seat, key, snapshot, first)
}

fn is_past(key: &Key, to: &Key) -> bool
    ensures { result ≡ is_gt (key_cmp key.now to.now) }
{
    key > to
}

/// The least key that the store has a version of, that is above `key`, or, where `above` is false, not below it, and
/// that is not above `to`, with its row at the snapshot. The store turn is held once to find it, and then as in a `get`,
/// where its newest version is not the one. A refused call leaves nothing but what it loaded.
pub fn next_row<D: Disk + Drop, R: Wait>(
    store: &Shared<D>,
    rt: &R,
    seat: &mut Seat<D>,
    key: &Key,
    above: bool,
    to: &Key,
    snapshot: &Snapshot,
) -> Result<Option<KeyRow>, AllocError>
    requires free { IsFree store.now.table seat.old }
    requires registered { IsIn snapshot.now seat.old.knows.participant.registered }
    ensures continues { Continues store.now seat.old seat.new (participant_of seat.old) }
    ensures same { participant_of seat.new ≡ participant_of seat.old }
    ensures none { IfOk result (λ found. found ≡ None → HasNoRow (seen_by seat.old) snapshot.now.number above key.now to.now) }
    ensures skips { IfOk result (λ found. IfSome found (λ next. IsInRange above key.now to.now next.key
        × SkipsNoRow (seen_by seat.old) snapshot.now.number above key.now (Some next.key))) }
    ensures row { IfOk result (λ found. IfSome found (λ next. IsRowOf (seen_by seat.old) next.key snapshot.now.number next.row)) }
    // Each key that has a row there is in its range.
    ensures words { OnOk result (HasWords (seen_by seat.old) snapshot.now.number) }
{
    let found = copy_next(store, rt, seat, key, above)?;
    let Some((next, newest)) = found else {
        return Ok(None);
    };
    if is_past(&next, to) {
        return Ok(None);
    }
    let row = row_in(store, rt, seat, &next, newest, snapshot)?;
    Ok(Some(KeyRow { key: next, row }))
}
