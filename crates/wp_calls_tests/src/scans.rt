//! What comes between two rows of a scan.
//!
//! Two keys of the range have no version at the snapshot that is more than a deletion, one has a prepare that is undecided there. Behind
//! the first row others write under the key that was given, behind it, and outside the range, and decide the prepare. A flush, a
//! compaction, which leaves nothing of the two keys, and a renewal move what the scan has not come to. The rows are those of the snapshot.
use crate::reader::{Moving, Reading};
use crate::scripts::{Step, play};
use crate::writer::Writing;
use std::test::*;

const SCAN: &[Step] = &[
    Step::One(Writing::Begin(b"t")),
    Step::One(Writing::Put(b"a", b"1")),
    Step::One(Writing::Put(b"c", b"1")),
    Step::One(Writing::Prepare(1)),
    Step::One(Writing::Rollback(3)),
    Step::One(Writing::Direct(b"b", b"1", 4)),
    Step::One(Writing::Direct(b"d", b"1", 5)),
    Step::One(Writing::Direct(b"f", b"1", 6)),
    Step::Two(Reading::Move(Moving::Flush, 6, 7)),
    Step::One(Writing::Begin(b"t")),
    Step::One(Writing::Put(b"e", b"1")),
    Step::One(Writing::Prepare(7)),
    Step::Two(Reading::Snap(7)),
    Step::Two(Reading::Row(b"b", 4, b"1")),
    Step::One(Writing::Commit(8)),
    Step::One(Writing::Direct(b"b", b"2", 9)),
    Step::One(Writing::Direct(b"d", b"2", 10)),
    Step::One(Writing::Direct(b"g", b"2", 11)),
    Step::Two(Reading::Move(Moving::Flush, 11, 4)),
    Step::Two(Reading::Move(Moving::Compact, 11, 7)),
    Step::Two(Reading::Row(b"d", 5, b"1")),
    Step::One(Writing::Direct(b"f", b"2", 12)),
    Step::Two(Reading::Move(Moving::Renew, 12, 0)),
    Step::Two(Reading::Row(b"f", 6, b"1")),
    Step::Two(Reading::NoRow),
    Step::Two(Reading::NoRow),
    Step::Two(Reading::Release),
];

#[test]
fn rows_are_those_of_the_snapshot(rt: HostRuntime) {
    play(&rt, rt.alloc(), "what comes between two rows", 0, SCAN);
}
