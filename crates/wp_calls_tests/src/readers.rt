//! A reader whose look at a version is split by what another client does.
//!
//! The second client reads at one snapshot. Between its look, its loads without a turn and the whole decision the first one
//! evicts, commits, rolls back and cleans up. What is decided is whether the version stands at the snapshot, and the value that is
//! read there stays the same.
use crate::reader::{Deciding, Reading};
use crate::scripts::{Step, play};
use crate::writer::Writing;
use std::test::*;

const PREPARE_AT_3: &[Step] = &[
    Step::One(Writing::Begin(b"t")),
    Step::One(Writing::Put(b"k", b"1")),
    Step::One(Writing::Prepare(1)),
    Step::TwoLearns(1),
    Step::One(Writing::Direct(b"x", b"1", 2)),
    Step::One(Writing::Direct(b"x", b"2", 3)),
    Step::Two(Reading::Snap(3)),
    Step::Two(Reading::Decide(Deciding::Look, "delayed flag")),
    Step::Two(Reading::Decide(Deciding::Free, "prepared sets")),
    Step::One(Writing::Commit(4)),
    Step::Two(Reading::Decide(Deciding::Look, "hidden")),
    Step::Two(Reading::Decide(Deciding::Free, "hidden")),
    Step::OneLooks(4, "visible"),
    Step::One(Writing::Direct(b"x", b"3", 5)),
    Step::Two(Reading::Decide(Deciding::Look, "delayed flag")),
    Step::Two(Reading::Decide(Deciding::Free, "old commits")),
    Step::Two(Reading::Decide(Deciding::Whole, "hidden")),
    Step::Two(Reading::Get(b"k", None)),
    Step::Two(Reading::Release),
];

const WRITE_AT_3: &[Step] = &[
    Step::One(Writing::Begin(b"t")),
    Step::One(Writing::Put(b"k", b"1")),
    Step::One(Writing::Prepare(1)),
    Step::One(Writing::Direct(b"x", b"1", 2)),
    Step::TwoLearns(2),
    Step::One(Writing::Direct(b"x", b"2", 3)),
    Step::Two(Reading::Snap(3)),
    Step::Two(Reading::Decide(Deciding::Look, "delayed flag")),
    Step::Two(Reading::Decide(Deciding::Free, "prepared sets")),
    Step::Two(Reading::Decide(Deciding::Whole, "visible")),
    Step::One(Writing::Commit(4)),
    Step::Two(Reading::Decide(Deciding::Free, "visible")),
    Step::One(Writing::Direct(b"x", b"3", 5)),
    Step::Two(Reading::Decide(Deciding::Look, "delayed flag")),
    Step::Two(Reading::Decide(Deciding::Free, "old commits")),
    Step::Two(Reading::Decide(Deciding::Whole, "visible")),
    Step::Two(Reading::Get(b"x", Some(b"2"))),
    Step::Two(Reading::Release),
];

const PAIR_GOES: &[Step] = &[
    Step::One(Writing::Begin(b"t")),
    Step::One(Writing::Put(b"z", b"0")),
    Step::One(Writing::Prepare(1)),
    Step::One(Writing::Leave),
    Step::One(Writing::Direct(b"k", b"1", 2)),
    Step::TwoLearns(2),
    Step::Two(Reading::Snap(2)),
    Step::Two(Reading::Decide(Deciding::Look, "visible")),
    Step::One(Writing::Direct(b"k", b"2", 3)),
    Step::Two(Reading::Decide(Deciding::Look, "delayed flag")),
    Step::Two(Reading::Decide(Deciding::Free, "prepared sets")),
    Step::Two(Reading::Decide(Deciding::Whole, "visible")),
    Step::Two(Reading::Get(b"k", Some(b"1"))),
    Step::One(Writing::Take),
    Step::One(Writing::Commit(4)),
    Step::Two(Reading::Decide(Deciding::Free, "visible")),
    Step::Two(Reading::Decide(Deciding::Whole, "visible")),
    Step::Two(Reading::Get(b"k", Some(b"1"))),
    Step::Two(Reading::Release),
];

const COMMIT_BEHIND: &[Step] = &[
    Step::One(Writing::Begin(b"t")),
    Step::One(Writing::Put(b"k", b"5")),
    Step::One(Writing::Prepare(1)),
    Step::TwoLearns(1),
    Step::Two(Reading::Snap(1)),
    Step::Two(Reading::Decide(Deciding::Look, "hidden")),
    Step::One(Writing::Commit(2)),
    Step::Two(Reading::Decide(Deciding::Look, "hidden")),
    Step::One(Writing::Direct(b"x", b"1", 3)),
    Step::Two(Reading::Decide(Deciding::Look, "delayed flag")),
    Step::Two(Reading::Decide(Deciding::Free, "old commits")),
    Step::Two(Reading::Decide(Deciding::Whole, "hidden")),
    Step::Two(Reading::Get(b"k", None)),
    Step::Two(Reading::Release),
    Step::Two(Reading::Snap(3)),
    Step::Two(Reading::Decide(Deciding::Look, "visible")),
    Step::Two(Reading::Get(b"k", Some(b"5"))),
    Step::Two(Reading::Release),
];

const DELAYED: &[Step] = &[
    Step::One(Writing::Begin(b"t")),
    Step::One(Writing::Put(b"k", b"5")),
    Step::One(Writing::Prepare(1)),
    Step::TwoLearns(1),
    Step::Two(Reading::Snap(1)),
    Step::One(Writing::Leave),
    Step::One(Writing::Direct(b"x", b"1", 2)),
    Step::One(Writing::Direct(b"x", b"2", 3)),
    Step::Two(Reading::Decide(Deciding::Look, "delayed flag")),
    Step::Two(Reading::Decide(Deciding::Free, "prepared sets")),
    Step::Two(Reading::Decide(Deciding::Whole, "hidden")),
    Step::One(Writing::Take),
    Step::One(Writing::Commit(4)),
    Step::Two(Reading::Decide(Deciding::Look, "hidden")),
    Step::One(Writing::Direct(b"x", b"3", 5)),
    Step::Two(Reading::Decide(Deciding::Look, "delayed flag")),
    Step::Two(Reading::Decide(Deciding::Free, "old commits")),
    Step::Two(Reading::Decide(Deciding::Whole, "hidden")),
    Step::Two(Reading::Get(b"k", None)),
    Step::Two(Reading::Release),
    Step::Two(Reading::Snap(5)),
    Step::Two(Reading::Decide(Deciding::Whole, "visible")),
    Step::Two(Reading::Get(b"k", Some(b"5"))),
    Step::Two(Reading::Release),
];

const ROLLBACK_BEHIND: &[Step] = &[
    Step::One(Writing::Direct(b"k", b"1", 1)),
    Step::One(Writing::Begin(b"t")),
    Step::One(Writing::Put(b"k", b"2")),
    Step::One(Writing::Prepare(2)),
    Step::TwoLearns(2),
    Step::Two(Reading::Snap(2)),
    Step::Two(Reading::Decide(Deciding::Look, "hidden")),
    Step::One(Writing::Rollback(4)),
    Step::Two(Reading::Decide(Deciding::Look, "hidden")),
    Step::Two(Reading::Get(b"k", Some(b"1"))),
    Step::One(Writing::Direct(b"x", b"1", 5)),
    Step::Two(Reading::Decide(Deciding::Look, "delayed flag")),
    Step::Two(Reading::Decide(Deciding::Free, "old commits")),
    Step::Two(Reading::Decide(Deciding::Whole, "hidden")),
    Step::Two(Reading::Get(b"k", Some(b"1"))),
    Step::Two(Reading::Release),
    Step::Two(Reading::Snap(5)),
    Step::Two(Reading::Decide(Deciding::Whole, "visible")),
    Step::Two(Reading::Get(b"k", Some(b"1"))),
    Step::Two(Reading::Release),
];

const CASES: [(&str, &[Step]); 6] = [
    ("the prepared sets, for a prepare", PREPARE_AT_3),
    ("the prepared sets, for a write", WRITE_AT_3),
    ("a write whose pair goes", PAIR_GOES),
    ("a commit behind the snapshot", COMMIT_BEHIND),
    ("a delayed prepare", DELAYED),
    ("a rollback behind the snapshot", ROLLBACK_BEHIND),
];

#[test]
fn a_split_reader_decides_as_at_once(rt: HostRuntime) {
    for (name, steps) in CASES {
        play(&rt, rt.alloc(), name, 0, steps);
    }
}
