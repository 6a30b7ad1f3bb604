//! Two transactions that one record commits.
//!
//! A snapshot from before shows neither of them, and one behind the record shows both. In a cache of one word the two are refused, and
//! are committed one after the other.
use crate::reader::{Deciding, Reading};
use crate::scripts::{Step, play};
use crate::writer::Writing;
use std::test::*;

const TOGETHER: &[Step] = &[
    Step::One(Writing::Begin(b"t")),
    Step::One(Writing::Put(b"k", b"1")),
    Step::One(Writing::Prepare(1)),
    Step::One(Writing::Leave),
    Step::One(Writing::Begin(b"u")),
    Step::One(Writing::Put(b"j", b"2")),
    Step::One(Writing::Prepare(2)),
    Step::TwoLearns(2),
    Step::Two(Reading::Snap(2)),
    Step::One(Writing::CommitBoth(b"t", 4)),
    Step::Two(Reading::Decide(Deciding::Look, "hidden")),
    Step::Two(Reading::Get(b"k", None)),
    Step::Two(Reading::Get(b"j", None)),
    Step::Two(Reading::Release),
    Step::Two(Reading::Snap(4)),
    Step::Two(Reading::Decide(Deciding::Look, "visible")),
    Step::Two(Reading::Get(b"k", Some(b"1"))),
    Step::Two(Reading::Get(b"j", Some(b"2"))),
    Step::Two(Reading::Release),
];

const CROWDED: &[Step] = &[
    Step::One(Writing::Begin(b"t")),
    Step::One(Writing::Put(b"k", b"1")),
    Step::One(Writing::Prepare(1)),
    Step::One(Writing::Leave),
    Step::One(Writing::Begin(b"u")),
    Step::One(Writing::Put(b"j", b"2")),
    Step::One(Writing::Prepare(2)),
    Step::One(Writing::Crowded(b"t", 1, 2)),
    Step::One(Writing::Commit(3)),
    Step::One(Writing::Take),
    Step::One(Writing::Commit(4)),
];

#[test]
fn one_record_commits_two_where_the_cache_has_a_word_for_each(rt: HostRuntime) {
    play(&rt, rt.alloc(), "two words", 1, TOGETHER);
    play(&rt, rt.alloc(), "one word", 0, CROWDED);
}
