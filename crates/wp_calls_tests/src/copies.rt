//! A copy of a store at an old snapshot.
//!
//! Between the snapshot and the copy the two clients write, commit, prepare and roll back, flush, compact and renew. What the snapshot
//! shows is decided, written over and moved by then. The copy is opened, and two clients of it say what it has.
ghost use Rattle.wp_calls_tests.specs.Ready.{HasSnapshot, IsFirst};

use crate::reader::{Moving, Reading};
use crate::scripts::{Step, clients_of, go_on, leave_store, play_on};
use crate::stores::{Seats, new_disks, opened};
use crate::writer::Writing;
use std::alloc::Global;
use std::process::Abort;
use std::sync::Wait;
use std::test::*;
use wp_checkpoint::{Copied, CopyError, CopyRefused};
use wp_copy::{CopyAt, copy_at};
use wp_memory::MemDisk;
use wp_open_txns::undone_at;
use wp_outside::Disks;
use wp_read::{Snapshot, release, snapshot};
use wp_shared::{Seat, Shared};

/// What is done before the snapshot, and between it and the copy.
const BEFORE: &[Step] = &[
    Step::One(Writing::Begin(b"t")),
    Step::One(Writing::Put(b"a", b"1")),
    Step::One(Writing::Put(b"c", b"1")),
    Step::One(Writing::Prepare(1)),
    Step::One(Writing::Leave),
    Step::One(Writing::Direct(b"b", b"1", 2)),
    Step::Two(Reading::Move(Moving::Flush, 2, 3)),
    Step::Two(Reading::Direct(b"d", b"1", 3)),
];

const BEHIND: &[Step] = &[
    Step::One(Writing::Direct(b"d", b"2", 4)),
    Step::One(Writing::Take),
    Step::One(Writing::Commit(5)),
    Step::Two(Reading::Direct(b"b", b"2", 6)),
    Step::One(Writing::Direct(b"a", b"3", 7)),
    Step::Two(Reading::Move(Moving::Flush, 7, 4)),
    Step::Two(Reading::Direct(b"b", b"3", 8)),
    Step::One(Writing::Begin(b"u")),
    Step::One(Writing::Put(b"d", b"3")),
    Step::One(Writing::Prepare(9)),
    Step::Two(Reading::Move(Moving::Compact, 9, 6)),
    Step::Two(Reading::Direct(b"e", b"3", 10)),
    Step::One(Writing::Rollback(12)),
    Step::Two(Reading::Move(Moving::Renew, 12, 0)),
    Step::One(Writing::Direct(b"c", b"4", 13)),
    Step::Two(Reading::Direct(b"b", b"4", 14)),
];

/// What the copy says.
const COPY: &[Step] = &[
    Step::Two(Reading::Snap(3)),
    Step::Two(Reading::Row(b"b", 2, b"1")),
    Step::Two(Reading::Row(b"d", 3, b"1")),
    Step::Two(Reading::NoRow),
    Step::Two(Reading::Release),
    Step::One(Writing::Take),
    Step::One(Writing::Commit(4)),
    Step::Two(Reading::Snap(4)),
    Step::Two(Reading::Get(b"a", Some(b"1"))),
    Step::Two(Reading::Get(b"c", Some(b"1"))),
    Step::Two(Reading::Release),
];

type Outcome = Result<(Copied, Disks<MemDisk>), CopyRefused<MemDisk>>;

/// A snapshot of the first seat.
fn taken<R: Abort + Wait>(store: &Shared<MemDisk>, rt: &R, first: &mut Seat<MemDisk>) -> Snapshot
    requires { IsFirst store.now first.old }
    ensures { HasSnapshot store.now (first.new, result) }
{
    let Ok(taken) = snapshot(store, rt, first) else {
        panic!(rt; "no memory for a snapshot");
    };
    taken
}

/// Copies the store at the snapshot, which is not between an undo and its close.
fn copy_once<R: Abort + Wait>(
    store: &Shared<MemDisk>,
    rt: &R,
    alloc: Global,
    first: Seat<MemDisk>,
    at: Snapshot,
    target: Disks<MemDisk>,
) -> CopyAt<MemDisk, MemDisk>
    requires { HasSnapshot store.now (first, at) }
    ensures { HasSnapshot store.now (result.seat, result.snapshot) }
{
    let mut seat = first;
    match undone_at(store, rt, &mut seat, &at) {
        None => copy_at(store, rt, alloc, seat, at, 1, target),
        Some(p) => panic!(rt; "{p} is undone at the snapshot"),
    }
}

fn is_empty(target: &Disks<MemDisk>) -> bool {
    target.log.bytes().is_empty()
        && target.manifest.bytes().is_empty()
        && target.tables.bytes().is_empty()
}

/// Copies it, once more to the same target where memory was wanting, which is empty then.
fn copy<R: Abort + Wait>(
    store: &Shared<MemDisk>,
    rt: &R,
    alloc: Global,
    first: Seat<MemDisk>,
    at: Snapshot,
    target: Disks<MemDisk>,
) -> CopyAt<MemDisk, MemDisk>
    requires { HasSnapshot store.now (first, at) }
    ensures { HasSnapshot store.now (result.seat, result.snapshot) }
{
    match copy_once(store, rt, alloc, first, at, target) {
        CopyAt {
            seat,
            snapshot,
            outcome: Err(
                CopyRefused {
                    target,
                    why: CopyError::Memory,
                },
            ),
        } => {
            assert!(rt; is_empty(&target), "a refused copy left something");
            copy_once(store, rt, alloc, seat, snapshot, target)
        }
        done => done,
    }
}

/// The copy counts the two rows and the two changes of the prepare, and says what it has to.
fn check<R: Abort + Wait>(rt: &R, alloc: Global, outcome: Outcome) {
    let Ok((copied, target)) = outcome else {
        panic!(rt; "the copy was refused");
    };
    let Copied {
        at,
        versions,
        carried,
    } = copied;
    assert!(rt;
        (at, versions, carried) == (3, 4, 1),
        "copied @{at} {versions} {carried}"
    );
    play_on(rt, alloc, target, "the copy", 0, COPY);
}

fn copy_old<R: Abort + Wait>(rt: &R, alloc: Global) {
    let Seats {
        store,
        first,
        writing,
        reading,
    } = opened(rt, alloc, new_disks(rt, alloc), 0);
    let clients = clients_of(rt, alloc, writing, reading);
    let clients = go_on(&store, rt, alloc, clients, "before", BEFORE);
    let mut first = first;
    let at = taken(&store, rt, &mut first);
    let clients = go_on(&store, rt, alloc, clients, "behind", BEHIND);
    let target = new_disks(rt, alloc);
    let CopyAt {
        seat,
        snapshot,
        outcome,
    } = copy(&store, rt, alloc, first, at, target);
    let mut first = seat;
    release(&store, rt, &mut first, snapshot);
    check(rt, alloc, outcome);
    leave_store(rt, alloc, "behind", store, first, clients);
}

#[test]
fn others_change_nothing_of_a_copy(rt: HostRuntime) {
    copy_old(&rt, rt.alloc());
}
