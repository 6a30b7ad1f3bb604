//! The value of a key at a snapshot.
ghost use Rattle.std.specs.Prelude.{◌≡◌, ◌≤◌, ◌<◌, ◌==◌, ◌∷◌, ◌++◌, ℕ, true, List, length, IfOk, MatchOption};
ghost use Rattle.std.specs.List.{list_any};
ghost use Rattle.std.specs.Option.{option_map};
ghost use Rattle.wp_model.specs.Decision.{IsCommittedAt};
ghost use Rattle.wp_model.specs.History.{value_at};
ghost use Rattle.wp_core.specs.Lists.{IsIn};
ghost use Rattle.wp_core.specs.Reading.{Registration};
ghost use Rattle.wp_core.specs.Sound.Reader.{IsRight};
ghost use Rattle.wp_core.specs.Sound.Snapshots.{has_versions_at};
ghost use Rattle.wp_core.specs.Turns.{store_turn};
ghost use Rattle.wp_shared.specs.Calls.{Continues};
ghost use Rattle.wp_shared.specs.Notes.{is_under, GoesOn};
ghost use Rattle.wp_shared.specs.Seats.{IsFree, held_by, participant_of, seen_by};
ghost use Rattle.wp_shared.specs.Turns.{comes_last};
ghost use Rattle.wp_read.specs.Rows.{IsRowOf};
ghost use Rattle.wp_read.specs.Values.{AreVersions, IsFirstCommitted, NoneCommitted, NoneLater, Says, ShowsValue};

use crate::deciding::visible;
use crate::registration::Snapshot;
use std::alloc::AllocError;
use std::sync::Wait;
use wp_model::{Key, Seq, Value, Version, Versions};
use wp_outside::Disk;
use wp_shared::{Seat, Shared, Stock};

/// How many versions of a key are copied at first: mostly the newest is the one.
pub(crate) const FIRST_COPIES: usize = 1;

/// How many times as many are copied next.
const GROWTH: usize = 4;

/// Copies the newest `most` versions of the key, under the store turn, which comes behind all that the seat holds.
pub(crate) fn copy_newest<D: Disk + Drop, R: Wait>(
    store: &Shared<D>,
    rt: &R,
    seat: &mut Seat<D>,
    key: &Key,
    most: usize,
) -> Result<Versions, AllocError>
    requires seat { (seat.old.table ≡ store.now.table) × (seat.old.knows.live ≡ true) }
    requires order { comes_last store_turn (held_by seat.old) ≡ true }
    ensures goes { GoesOn (is_under store_turn) (held_by seat.old) seat.old.turns seat.old seat.new }
    ensures found { IfOk result (λ found. (r : Registration) → IsIn r seat.old.knows.participant.registered → ShowsValue (seen_by seat.old) key.now r.number most found) }
{
    let stock = store.take_turn::<Stock, R>(rt, seat);
    let found = stock.collect(key, most);
    store.give_turn::<Stock>(seat, stock);
    found
}

fn has_number(versions: &[Version], p: Seq) -> bool
    ensures { result ≡ list_any (λ v. v.number == p) versions.now }
{
    versions.iter().any(|version| version.number == p)
}

/// Decides the version `p`, without a load where it is above the snapshot or was found invisible before.
fn is_visible<D: Disk + Drop, R: Wait>(
    store: &Shared<D>,
    rt: &R,
    seat: &mut Seat<D>,
    p: Seq,
    earlier: &[Version],
    snapshot: &Snapshot,
) -> bool
    requires free { IsFree store.now.table seat.old }
    requires registered { IsIn snapshot.now seat.old.knows.participant.registered }
    requires version { p ≤ snapshot.now.number → has_versions_at (seen_by seat.old) p ≡ true }
    requires none_later { NoneLater (seen_by seat.old) snapshot.now.number }
    requires earlier { NoneCommitted (seen_by seat.old) snapshot.now.number earlier.now }
    ensures continues { Continues store.now seat.old seat.new (participant_of seat.old) }
    ensures same { participant_of seat.new ≡ participant_of seat.old }
    ensures right { IsRight (seen_by seat.old) p snapshot.now.number result }
{
    if snapshot.number() < p {
        return false;
    }
    if has_number(earlier, p) {
        return false;
    }
    visible(store, rt, seat, p, snapshot)
}

/// The place of the first of the versions that is visible. The earlier ones are not.
fn first_visible<D: Disk + Drop, R: Wait>(
    store: &Shared<D>,
    rt: &R,
    seat: &mut Seat<D>,
    found: &[Version],
    earlier: &[Version],
    snapshot: &Snapshot,
) -> Option<usize>
    requires free { IsFree store.now.table seat.old }
    requires registered { IsIn snapshot.now seat.old.knows.participant.registered }
    requires versions { AreVersions (seen_by seat.old) snapshot.now.number found.now }
    requires none_later { NoneLater (seen_by seat.old) snapshot.now.number }
    requires earlier { NoneCommitted (seen_by seat.old) snapshot.now.number earlier.now }
    ensures continues { Continues store.now seat.old seat.new (participant_of seat.old) }
    ensures same { participant_of seat.new ≡ participant_of seat.old }
    ensures first { MatchOption result (NoneCommitted (seen_by seat.old) snapshot.now.number found.now)
        (IsFirstCommitted (seen_by seat.old) snapshot.now.number found.now) }
{
    for i in 0..found.len() {
        if is_visible(store, rt, seat, found[i].number, earlier, snapshot) {
            return Some(i);
        }
    }
    None
}

/// The version with this place.
pub(crate) fn take_version(found: Versions, i: usize) -> Version
    requires { i < length found }
    ensures { (front back : List Version) (v : Version) → found ≡ front ++ v ∷ back → length front ≡ i → result ≡ v }
{
    found.into_vec().remove(i)
}

/// Its number and its value, if it has one.
fn row_of(version: Version) -> Option<(Seq, Value)>
    ensures { result ≡ option_map (λ value. (version.number, value)) version.value }
{
    let Version { number, value, .. } = version;
    match value {
        Some(value) => Some((number, value)),
        None => None,
    }
}

/// The value of a row, if there is one.
fn value_of(row: Option<(Seq, Value)>) -> Option<Value>
    ensures { result ≡ option_map (λ row. row.1) row }
{
    match row {
        Some((_, value)) => Some(value),
        None => None,
    }
}

/// What a round of copies gives.
pub(crate) enum Round {
    /// The key's row, its number and its value, or none.
    Done(Option<(Seq, Value)>),
    /// None of these versions is visible, and there may be more.
    More(Versions),
}

/// Decides the versions, which are the newest ones of a key and at most `most`, the newest first. The earlier ones are
/// not visible.
pub(crate) fn decided<D: Disk + Drop, R: Wait>(
    store: &Shared<D>,
    rt: &R,
    seat: &mut Seat<D>,
    found: Versions,
    most: usize,
    earlier: &[Version],
    snapshot: &Snapshot,
) -> Round
    requires free { IsFree store.now.table seat.old }
    requires registered { IsIn snapshot.now seat.old.knows.participant.registered }
    requires versions { AreVersions (seen_by seat.old) snapshot.now.number found }
    requires none_later { NoneLater (seen_by seat.old) snapshot.now.number }
    requires earlier { NoneCommitted (seen_by seat.old) snapshot.now.number earlier.now }
    ensures continues { Continues store.now seat.old seat.new (participant_of seat.old) }
    ensures same { participant_of seat.new ≡ participant_of seat.old }
    ensures says { (key : List ℕ) → ShowsValue (seen_by seat.old) key snapshot.now.number most found
        → Says (seen_by seat.old) key snapshot.now.number result }
{
    match first_visible(store, rt, seat, found.as_slice(), earlier, snapshot) {
        Some(i) => Round::Done(row_of(take_version(found, i))),
        None => {
            if found.as_slice().len() < most {
                return Round::Done(None);
            }
            Round::More(found)
        }
    }
}

/// Copies the newest `most` versions of the key, and decides them. The earlier ones are not visible.
fn look_through<D: Disk + Drop, R: Wait>(
    store: &Shared<D>,
    rt: &R,
    seat: &mut Seat<D>,
    key: &Key,
    snapshot: &Snapshot,
    most: usize,
    earlier: &[Version],
) -> Result<Round, AllocError>
    requires free { IsFree store.now.table seat.old }
    requires registered { IsIn snapshot.now seat.old.knows.participant.registered }
    requires earlier { NoneCommitted (seen_by seat.old) snapshot.now.number earlier.now }
    ensures continues { Continues store.now seat.old seat.new (participant_of seat.old) }
    ensures same { participant_of seat.new ≡ participant_of seat.old }
    ensures says { IfOk result (λ round. Says (seen_by seat.old) key.now snapshot.now.number round) }
{
    let found = copy_newest(store, rt, seat, key, most)?;
    Ok(decided(store, rt, seat, found, most, earlier, snapshot))
}

/// The row of the key, by rounds of copies behind the first, which gave this. It copies four times as many each time
/// that none of them is visible. That it would copy more than a length can be is answered as want of memory, since no
/// memory holds so many.
pub(crate) fn row_behind<D: Disk + Drop, R: Wait>(
    store: &Shared<D>,
    rt: &R,
    seat: &mut Seat<D>,
    key: &Key,
    snapshot: &Snapshot,
    first: Round,
) -> Result<Option<(Seq, Value)>, AllocError>
    requires free { IsFree store.now.table seat.old }
    requires registered { IsIn snapshot.now seat.old.knows.participant.registered }
    requires first { Says (seen_by seat.old) key.now snapshot.now.number first }
    ensures continues { Continues store.now seat.old seat.new (participant_of seat.old) }
    ensures same { participant_of seat.new ≡ participant_of seat.old }
    ensures row { IfOk result (λ row. IsRowOf (seen_by seat.old) key.now snapshot.now.number row) }
{
    let mut most = FIRST_COPIES;
    let mut earlier = match first {
        Round::Done(row) => return Ok(row),
        Round::More(found) => found,
    };
    'rounds: loop {
        most = most.checked_mul(GROWTH).ok_or(AllocError)?;
        match look_through(store, rt, seat, key, snapshot, most, earlier.as_slice())? {
            Round::Done(row) => return Ok(row),
            Round::More(found) => earlier = found,
        }
    }
}

/// The value of the key at the snapshot: of its newest version that is visible there. It copies few versions at first,
/// and more each time that none of them is visible. No turn is held while a version is decided but for a look behind
/// one.
pub fn get<D: Disk + Drop, R: Wait>(
    store: &Shared<D>,
    rt: &R,
    seat: &mut Seat<D>,
    key: &Key,
    snapshot: &Snapshot,
) -> Result<Option<Value>, AllocError>
    requires free { IsFree store.now.table seat.old }
    requires registered { IsIn snapshot.now seat.old.knows.participant.registered }
    ensures continues { Continues store.now seat.old seat.new (participant_of seat.old) }
    ensures same { participant_of seat.new ≡ participant_of seat.old }
    ensures value { IfOk result (λ value. value ≡ value_at (seen_by seat.new) key.now snapshot.now.number) }
{
    let first = look_through(store, rt, seat, key, snapshot, FIRST_COPIES, &[])?;
    let row = row_behind(store, rt, seat, key, snapshot, first)?;
    Ok(value_of(row))
}
