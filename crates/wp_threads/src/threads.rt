//! The sessions of all clients at once.
ghost use Rattle.std.specs.Prelude.{◌≡◌, map};
ghost use Rattle.wp_replies.specs.Known.{StoredState};
ghost use Rattle.wp_seats.specs.New.{AreNew, clients_of};
ghost use Rattle.wp_threads.specs.SoFar.{IsFound};
ghost use Rattle.wp_threads.specs.Over.{AreOver};
ghost use Rattle.wp_threads.specs.Each.{IsNewAt, HasRunAt, AllStay};
ghost use Rattle.wp_seats.specs.Lists.{seat_of, answers_of};

use crate::session::run_session;
use std::alloc::Global;
use std::sync::Wait;
use std::thread;
use std::thread::Threads;
use wp_outside::{Disk, Gate};
use wp_seats::Session;
use wp_shared::Shared;
use wp_text::Part;

/// Runs the session of the part at this place.
fn run_at<D: Disk + Drop, G: Gate, R: Wait>(
    store: &Shared<D>,
    rt: &R,
    alloc: Global,
    gate: &G,
    parts: &[Part],
    place: usize,
    session: &mut Session<D>,
)
    requires { IsNewAt store.now parts.now place session.old.seat }
    ensures { HasRunAt store.now parts.now place session.new.answers session.old.seat session.new.seat }
{
    let part = &parts[place];
    session.answers = run_session(store, rt, alloc, gate, place + 1, part, &mut session.seat);
}

/// Runs each session on a thread of its own where one can be made.
pub(crate) fn run_all<D: Disk + Drop + Send, G: Gate + Sync, R: Threads + Wait + Sync>(
    store: &Shared<D>,
    rt: &R,
    alloc: Global,
    gate: &G,
    parts: &[Part],
    sessions: &mut [Session<D>],
)
    requires { AreNew store.now (clients_of parts.now) (map seat_of sessions.old) }
    ensures over { (found : StoredState) → IsFound store.now found → AreOver store.now found parts.now (map answers_of sessions.new) (map seat_of sessions.new) }
    ensures stay { AllStay store.now (map seat_of sessions.old) (map seat_of sessions.new) }
{
    let threads = sessions.len().max(1);
    thread::for_each_mut(
        rt,
        sessions,
        threads,
        &|place, session: &mut Session<D>|
            requires { IsNewAt store.now parts.now place session.old.seat }
            ensures { HasRunAt store.entry.now parts.entry.now place session.new.answers session.old.seat session.new.seat }
        { run_at(store, rt, alloc, gate, parts, place, session) },
    );
}
