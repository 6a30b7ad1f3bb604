//! The client that reads: what it learns, its snapshot, how it decides a version there, and its scan. It may write too, at once, and
//! flush, compact and renew.
ghost use Rattle.std.specs.Prelude.{◌≡◌, ℕ, true, Option, None};
ghost use Rattle.wp_core.specs.Lists.{IsIn};
ghost use Rattle.wp_core.specs.Reading.{Registration};
ghost use Rattle.wp_core.specs.Sound.Snapshots.{has_versions_at};
ghost use Rattle.wp_shared.specs.Calls.{Continues};
ghost use Rattle.wp_shared.specs.Seats.{IsFree};
ghost use Rattle.wp_calls_tests.specs.Ready.{IsReader};

use crate::writer::{is_value, key, refused, value};
use std::alloc::Global;
use std::process::Abort;
use std::sync::Wait;
use wp_memory::MemDisk;
use wp_model::{Change, Row, Seq};
use wp_read::{Free, Look, Snapshot};
use wp_scan::Scan;
use wp_shared::{Seat, Shared};

/// How a version is decided.
#[derive(Clone, Copy)]
pub(super) enum Deciding {
    /// By its word and the bound alone.
    Look,
    /// By loads that need no turn.
    Free,
    Whole,
}

/// How versions are moved.
#[derive(Clone, Copy)]
pub(super) enum Moving {
    Flush,
    Compact,
    Renew,
}

/// What the client does, with what the call has to say.
#[derive(Clone, Copy)]
pub(super) enum Reading {
    Snap(Seq),
    Release,
    /// It reads the key at its snapshot.
    Get(&'static [u8], Option<&'static [u8]>),
    /// It decides its version at its snapshot.
    Decide(Deciding, &'static str),
    /// It puts a value under a key at once.
    Direct(&'static [u8], &'static [u8], Seq),
    /// Its scan gives this row next, at its snapshot.
    Row(&'static [u8], Seq, &'static [u8]),
    /// Its scan gives no row more.
    NoRow,
    /// It moves versions up to this number. The new table has so many, or the log carries so many prepares.
    Move(Moving, Seq, u64),
}

/// Decides the version, or says what would have to be loaded next.
fn told<R: Wait>(
    store: &Shared<MemDisk>,
    rt: &R,
    seat: &mut Seat<MemDisk>,
    p: Seq,
    snapshot: &Snapshot,
    how: Deciding,
) -> &'static str
    requires free { IsFree store.now.table seat.old }
    requires registered { IsIn snapshot.now seat.old.knows.participant.registered }
    requires version { has_versions_at seat.old.knows.participant.seen p ≡ true }
    ensures { Continues store.now seat.old seat.new seat.old.knows.participant }
{
    match how {
        Deciding::Look => match wp_read::look(store, seat, p, snapshot) {
            Look::Decided(true) => "visible",
            Look::Decided(false) => "hidden",
            Look::Ask { .. } => "delayed flag",
        },
        Deciding::Free => match wp_read::decide_free(store, seat, p, snapshot) {
            Free::Decided(true) => "visible",
            Free::Decided(false) => "hidden",
            Free::Prepared(_) => "prepared sets",
            Free::Snapshots(_) => "old commits",
        },
        Deciding::Whole => match wp_read::visible(store, rt, seat, p, snapshot) {
            true => "visible",
            false => "hidden",
        },
    }
}

fn is_row(row: &Row, key: &[u8], number: Seq, value: &[u8]) -> bool {
    row.key.bytes() == key && row.number == number && row.value.bytes() == value
}

/// Whether the scan gives this row next, or else none more, where memory is not wanting.
fn gives<R: Wait>(
    store: &Shared<MemDisk>,
    rt: &R,
    seat: &mut Seat<MemDisk>,
    snapshot: &Snapshot,
    scan: &mut Scan,
    due: Option<(&[u8], Seq, &[u8])>,
) -> Option<bool>
    requires free { IsFree store.now.table seat.old }
    requires registered { IsIn snapshot.now seat.old.knows.participant.registered }
    ensures { Continues store.now seat.old seat.new seat.old.knows.participant }
{
    let Ok(found) = scan.next(store, rt, seat, snapshot) else {
        return None;
    };
    match (found, due) {
        (Some(row), Some((key, number, value))) => Some(is_row(&row, key, number, value)),
        (None, None) => Some(true),
        _ => Some(false),
    }
}

/// Moves versions: up to which number, and how many the new table has, or how many prepares the log carries. None where it was refused.
fn moved<R: Wait>(
    store: &Shared<MemDisk>,
    rt: &R,
    alloc: Global,
    seat: &mut Seat<MemDisk>,
    how: Moving,
) -> Option<(Seq, u64)>
    requires { IsFree store.now.table seat.old }
    ensures { (snapshot : Option Registration) (version : Option ℕ) → IsReader store.now seat.old snapshot version → IsReader store.now seat.new snapshot version }
{
    match how {
        Moving::Flush => match wp_maint::flush(store, rt, seat) {
            Ok(done) => Some((done.at, done.versions)),
            Err(_) => None,
        },
        Moving::Compact => match wp_compact::compact(store, rt, alloc, seat) {
            Ok(done) => Some((done.at, done.versions)),
            Err(_) => None,
        },
        Moving::Renew => match wp_renew::renew(store, rt, seat) {
            Ok(done) => Some((done.at, done.carried)),
            Err(_) => None,
        },
    }
}

/// Takes the step. Whether it says what it has to, where memory is not wanting.
pub(super) fn read<R: Abort + Wait>(
    store: &Shared<MemDisk>,
    rt: &R,
    alloc: Global,
    seat: &mut Seat<MemDisk>,
    snapshot: Option<Snapshot>,
    version: Option<Seq>,
    scan: &mut Scan,
    step: Reading,
) -> (Option<Snapshot>, Option<bool>)
    requires { IsReader store.now seat.old snapshot version }
    ensures { IsReader store.now seat.new result.0 version }
{
    match (step, snapshot) {
        (Reading::Snap(at), None) => match wp_read::snapshot(store, rt, seat) {
            Ok(taken) => {
                let n = taken.number();
                (Some(taken), Some(n == at))
            }
            Err(_) => (None, None),
        },
        (Reading::Release, Some(held)) => {
            wp_read::release(store, rt, seat, held);
            (None, Some(true))
        }
        (Reading::Get(k, value), Some(held)) => {
            let outcome = match wp_read::get(store, rt, seat, &key(rt, alloc, k), &held) {
                Ok(found) => Some(is_value(&found, value)),
                Err(_) => None,
            };
            (Some(held), outcome)
        }
        (Reading::Decide(how, said), Some(held)) => {
            let Some(p) = version else {
                panic!(rt; "the reader has no version");
            };
            let is_so = told(store, rt, seat, p, &held, how) == said;
            (Some(held), Some(is_so))
        }
        (Reading::Direct(k, v, at), snapshot) => {
            let change = Change::Put(key(rt, alloc, k), value(rt, alloc, v));
            let outcome = match wp_txn::write(store, rt, alloc, seat, change) {
                Ok(n) => Some(n == at),
                Err(why) => refused(why),
            };
            (snapshot, outcome)
        }
        (Reading::Row(k, n, v), Some(held)) => {
            let outcome = gives(store, rt, seat, &held, scan, Some((k, n, v)));
            (Some(held), outcome)
        }
        (Reading::NoRow, Some(held)) => {
            let outcome = gives(store, rt, seat, &held, scan, None);
            (Some(held), outcome)
        }
        (Reading::Move(how, at, count), snapshot) => {
            let outcome = match moved(store, rt, alloc, seat, how) {
                Some((n, made)) => Some(n == at && made == count),
                None => None,
            };
            (snapshot, outcome)
        }
        (_step, _snapshot) => panic!(rt; "the reader can't take this step"),
    }
}

/// Learns what the other one has seen, and the published number.
pub(super) fn learn(
    store: &Shared<MemDisk>,
    seat: &mut Seat<MemDisk>,
    other: &mut Seat<MemDisk>,
) -> Seq
    requires free { IsFree store.now.table seat.old }
    requires other { IsFree store.now.table other.old }
    ensures same { other.new ≡ other.old }
    ensures continues { Continues store.now seat.old seat.new seat.old.knows.participant }
    ensures versions { (p : ℕ) → has_versions_at other.old.knows.participant.seen p ≡ true → has_versions_at seat.new.knows.participant.seen p ≡ true }
{
    let note = store.note(other);
    store.learn(seat, note)
}

/// Looks at the version at a snapshot for this alone, which has to have this number.
#[tactic(auto, using(wp_core::proofs::PastsGrow::in_last))]
pub(super) fn glance<R: Wait>(
    store: &Shared<MemDisk>,
    rt: &R,
    seat: &mut Seat<MemDisk>,
    p: Seq,
    at: Seq,
    said: &'static str,
) -> Option<bool>
    requires free { IsFree store.now.table seat.old }
    requires direct { seat.old.knows.participant.direct ≡ None }
    requires version { has_versions_at seat.old.knows.participant.seen p ≡ true }
    ensures free { IsFree store.now.table seat.new }
    ensures direct { seat.new.knows.participant.direct ≡ None }
{
    let Ok(taken) = wp_read::snapshot(store, rt, seat) else {
        return None;
    };
    let number = taken.number();
    let looked = told(store, rt, seat, p, &taken, Deciding::Look);
    wp_read::release(store, rt, seat, taken);
    Some(number == at && looked == said)
}
