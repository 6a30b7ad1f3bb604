//! A script's sessions at an opened store.
ghost use Rattle.std.specs.Prelude.{◌≡◌};
ghost use Rattle.wp_model.specs.Flushed.{InstalledEdit};
ghost use Rattle.wp_rule.specs.Shows.{WasLast};
ghost use Rattle.wp_parts.specs.Parts.{content};
ghost use Rattle.wp_parts.specs.Devices.{devices_of};
ghost use Rattle.wp_seats.specs.New.{IsFirst, others_of};
ghost use Rattle.wp_threads.specs.Explained.{HaveRun};

use crate::ending::{ScriptRun, end_idle, run_to_end};
use std::alloc::Global;
use std::sync::Wait;
use std::thread::Threads;
use wp_outside::{Disk, Gate};
use wp_seats::{Room, seat_all};
use wp_shared::{Seat, Shared};
use wp_text::Part;

/// Runs the sessions of a script at an opened store, each on a thread of its own where one can be made, and ends the store. The
/// first seat is the first client's; where the script has no part, it is handed in as it is. Besides the room for its lists it
/// takes memory for replies and for what the calls of the store take: where that is wanting, a session breaks off alone.
pub fn run_script<D: Disk + Drop + Send, G: Gate + Sync, R: Threads + Wait + Sync>(
    rt: &R,
    alloc: Global,
    store: Shared<D>,
    first: Seat<D>,
    gate: &G,
    parts: &[Part],
    room: Room<D>,
) -> ScriptRun<D>
    requires first { IsFirst store parts.now first }
    requires room { room ≡ others_of parts.now }
    ensures base { (first : InstalledEdit) → WasLast content store.first first → result.history.base ≡ first.segment.base }
    ensures run { HaveRun store parts.now result.answers.items result.history.entries (devices_of D.moments D.faults result.disks) }
{
    let (names, sessions, seats, answers) = room.into_lists();
    if parts.is_empty() {
        return end_idle(store, first, seats, answers);
    }
    let sessions = seat_all(&store, alloc, first, names, sessions);
    run_to_end(rt, alloc, store, gate, parts, sessions, seats, answers)
}
