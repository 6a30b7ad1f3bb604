//! One client's session at its seat.
ghost use Rattle.std.specs.Prelude.{ℕ, List, []};
ghost use Rattle.wp_shared.specs.Seats.{IsFree};
ghost use Rattle.wp_replies.specs.Known.{StoredState};
ghost use Rattle.wp_client.specs.Answers.{Stays};
ghost use Rattle.wp_client.specs.Holdings.{Holds};
ghost use Rattle.wp_seats.specs.New.{IsNew};
ghost use Rattle.wp_threads.specs.SoFar.{IsFound, IsSessionSoFar};
ghost use Rattle.wp_threads.specs.Came.{TakesNext, HasComeTo};
ghost use Rattle.wp_threads.specs.Over.{IsOver};

use std::alloc::Global;
use std::sync::Wait;
use wp_answers::{Holdings, answer, end};
use wp_outside::{Disk, Gate};
use wp_shared::{Seat, Shared};
use wp_text::{Answered, Command, Part, Reply};

/// Answers the next command, and says whether memory was left for it. The reply has its place before.
fn answer_next<D: Disk + Drop, R: Wait>(
    store: &Shared<D>,
    rt: &R,
    alloc: Global,
    seat: &mut Seat<D>,
    held: &mut Holdings,
    replies: &mut Vec<Reply>,
    command: &Command,
) -> bool
    requires { Holds store.now seat.old held.old }
    ensures holds { Holds store.now seat.new held.new }
    ensures next { TakesNext store.now seat.old seat.new held.old held.new command.now replies.old.items replies.new.items result }
{
    if replies.reserve(1).is_err() {
        return false;
    }
    match answer(store, rt, alloc, seat, held, command) {
        Ok(reply) => {
            replies.push_reserved(reply);
            true
        }
        Err(_) => false,
    }
}

/// Answers the commands in their order, as far as memory is left. Where it is wanting for one, the gate is told of no reply to
/// it: who waits there for that reply waits as long as the gate lets it.
fn answer_all<D: Disk + Drop, G: Gate, R: Wait>(
    store: &Shared<D>,
    rt: &R,
    alloc: Global,
    gate: &G,
    client: usize,
    seat: &mut Seat<D>,
    held: &mut Holdings,
    commands: &[Command],
) -> Answered
    requires { Holds store.now seat.old held.old }
    ensures came { (found : StoredState) (name : List ℕ) → IsFound store.now found → IsSessionSoFar store.now found name [] [] seat.old held.old → HasComeTo store.now found name commands.now result seat.new held.new }
    ensures stays { Stays seat.old seat.new }
    ensures holds { Holds store.now seat.new held.new }
{
    let mut replies = Vec::new(alloc);
    for command in commands {
        let line = replies.len() + 1;
        gate.pass(client, line);
        let answered = answer_next(store, rt, alloc, seat, held, &mut replies, command);
        if !answered {
            return Answered::new(replies, false);
        }
        gate.done(client, line);
    }
    Answered::new(replies, true)
}

/// Runs one client's session.
pub(crate) fn run_session<D: Disk + Drop, G: Gate, R: Wait>(
    store: &Shared<D>,
    rt: &R,
    alloc: Global,
    gate: &G,
    client: usize,
    part: &Part,
    seat: &mut Seat<D>,
) -> Answered
    requires { IsNew store.now part.now.client seat.old }
    ensures over { (found : StoredState) → IsFound store.now found → IsOver store.now found part.now result seat.new }
    ensures stays { Stays seat.old seat.new }
    ensures free { IsFree store.now.table seat.new }
{
    let mut held = Holdings::new(alloc);
    let commands = part.commands.as_slice();
    let answers = answer_all(store, rt, alloc, gate, client, seat, &mut held, commands);
    end(store, rt, seat, held);
    answers
}
