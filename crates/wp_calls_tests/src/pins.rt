//! What a transaction locks behind its pin.
//!
//! The second client writes between the pin and a lock. A key that it left alone has the value that it had at the pin; for one that it
//! changed the answer is the number of that write, until the transaction pins anew.
use crate::reader::Reading;
use crate::scripts::{Step, play};
use crate::writer::Writing;
use std::test::*;

const LOCKS: &[Step] = &[
    Step::One(Writing::Direct(b"k", b"1", 1)),
    Step::One(Writing::Begin(b"t")),
    Step::One(Writing::Pin(1)),
    Step::Two(Reading::Direct(b"x", b"2", 2)),
    Step::One(Writing::Lock(b"k", Some(b"1"))),
    Step::One(Writing::Lock(b"y", None)),
    Step::One(Writing::Conflict(b"x", 2)),
    Step::One(Writing::Pin(2)),
    Step::One(Writing::Lock(b"x", Some(b"2"))),
    Step::One(Writing::Lock(b"k", Some(b"1"))),
    Step::One(Writing::Put(b"k", b"3")),
    Step::One(Writing::Prepare(3)),
    Step::One(Writing::Commit(4)),
];

#[test]
fn what_is_locked_is_what_stood_at_the_pin(rt: HostRuntime) {
    play(&rt, rt.alloc(), "locks behind a pin", 0, LOCKS);
}
