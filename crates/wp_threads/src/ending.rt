//! The end of all sessions: their seats are handed in, and the store is ended.
ghost use Rattle.std.specs.Prelude.{◌≡◌, ◌≤◌, ◌<◌, [], map, vec_len, vec_capacity};
ghost use Rattle.wp_model.specs.Flushed.{InstalledEdit};
ghost use Rattle.wp_rule.specs.Shows.{WasLast};
ghost use Rattle.wp_parts.specs.Parts.{content};
ghost use Rattle.wp_parts.specs.Devices.{devices_of};
ghost use Rattle.wp_shared.specs.Ending.{AreAll};
ghost use Rattle.wp_seats.specs.New.{AreNew, clients_of};
ghost use Rattle.wp_seats.specs.Lists.{seat_of};
ghost use Rattle.wp_threads.specs.Explained.{HaveRun};
ghost use Rattle.wp_threads.specs.Idle.{IsUnused};

use crate::threads::run_all;
use std::alloc::Global;
use std::sync::Wait;
use std::thread::Threads;
use wp_history::History;
use wp_outside::{Disk, Disks, Gate};
use wp_seats::{Session, part_all};
use wp_shared::{Finished, Seat, Shared};
use wp_text::{Answered, Part};

/// What the sessions leave.
#[derive(Drop)]
pub struct ScriptRun<D> {
    pub answers: Vec<Answered>,
    pub history: History,
    pub disks: Disks<D>,
}

/// Ends a store at which no session ran: its first seat is handed in alone, which may have read. The list has room for it.
pub fn end_idle<D: Disk + Drop>(
    store: Shared<D>,
    first: Seat<D>,
    seats: Vec<Seat<D>>,
    answers: Vec<Answered>,
) -> ScriptRun<D>
    requires unused { IsUnused store first }
    requires empty { (seats.items ≡ []) × (answers.items ≡ []) }
    requires room { 0 < vec_capacity seats }
    ensures base { (first : InstalledEdit) → WasLast content store.first first → result.history.base ≡ first.segment.base }
    ensures run { HaveRun store [] [] result.history.entries (devices_of D.moments D.faults result.disks) }
    ensures answers { result.answers.items ≡ [] }
{
    let mut seats = seats;
    seats.push_reserved(first);
    let left = store.finish(seats);
    let Finished { history, disks } = left;
    ScriptRun {
        answers,
        history,
        disks,
    }
}

/// Runs the sessions, each on a thread of its own where one can be made, and ends the store. The lists for what they leave have
/// room, so that it takes memory for replies and for what the calls of the store take, and no other.
pub(crate) fn run_to_end<D: Disk + Drop + Send, G: Gate + Sync, R: Threads + Wait + Sync>(
    rt: &R,
    alloc: Global,
    store: Shared<D>,
    gate: &G,
    parts: &[Part],
    sessions: Vec<Session<D>>,
    seats: Vec<Seat<D>>,
    answers: Vec<Answered>,
) -> ScriptRun<D>
    requires new { AreNew store (clients_of parts.now) (map seat_of sessions.items) }
    requires all { AreAll (map seat_of sessions.items) }
    requires empty { (seats.items ≡ []) × (answers.items ≡ []) }
    requires room { (vec_len sessions ≤ vec_capacity seats) × (vec_len sessions ≤ vec_capacity answers) }
    ensures base { (first : InstalledEdit) → WasLast content store.first first → result.history.base ≡ first.segment.base }
    ensures run { HaveRun store parts.now result.answers.items result.history.entries (devices_of D.moments D.faults result.disks) }
{
    let mut sessions = sessions;
    run_all(&store, rt, alloc, gate, parts, sessions.as_mut_slice());
    let (seats, answers) = part_all(sessions, seats, answers);
    let left = store.finish(seats);
    let Finished { history, disks } = left;
    ScriptRun {
        answers,
        history,
        disks,
    }
}
