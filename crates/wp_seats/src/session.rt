//! A session for each client of a script: made at a seat of its own, and taken apart once it is over.
ghost use Rattle.std.specs.Prelude.{◌≡◌, ◌+◌, ◌<◌, ◌≤◌, [], ◌∷◌, map, vec_len, vec_capacity};
ghost use Rattle.wp_shared.specs.Ending.{AreAll};
ghost use Rattle.wp_seats.specs.New.{AreNew, having_made, first_seat};
ghost use Rattle.wp_seats.specs.Lists.{seat_of, answers_of};

use std::alloc::Global;
use wp_model::Name;
use wp_outside::Disk;
use wp_shared::{Seat, Shared};
use wp_text::Answered;

/// A client's seat, and what the client was answered there.
#[derive(Drop)]
pub struct Session<D: Disk + Drop> {
    pub seat: Seat<D>,
    pub answers: Answered,
}

/// A session for each of these clients, at a seat that the first seat makes. The list has room.
fn seat_others<D: Disk + Drop>(
    store: &Shared<D>,
    alloc: Global,
    first: Seat<D>,
    names: Vec<Name>,
    sessions: Vec<Session<D>>,
) -> (Seat<D>, Vec<Session<D>>)
    requires first { first ≡ first_seat store.now first.knows.participant.client }
    requires empty { sessions.items ≡ [] }
    requires room { vec_len names < vec_capacity sessions }
    ensures first { result.0 ≡ having_made store.now first.knows.participant.client (vec_len names) }
    ensures others { AreNew store.now names.items (map seat_of result.1.items) }
    ensures count { vec_len result.1 ≡ vec_len names }
    ensures capacity { vec_capacity result.1 ≡ vec_capacity sessions }
{
    let mut first = first;
    let mut sessions = sessions;
    for name in names {
        let session = Session {
            seat: store.seat(&mut first, name),
            answers: Answered::none(alloc),
        };
        sessions.push_reserved(session);
    }
    (first, sessions)
}

/// The sessions, with this one before them. The list has room.
fn put_first<D: Disk + Drop>(session: Session<D>, sessions: Vec<Session<D>>) -> Vec<Session<D>>
    requires { vec_len sessions < vec_capacity sessions }
    ensures items { result.items ≡ session ∷ sessions.items }
    ensures count { vec_len result ≡ vec_len sessions + 1 }
{
    let mut sessions = sessions;
    if sessions.insert(0, session).is_err() {
        unreachable!();
    }
    sessions
}

/// A session for each client, the first seat's first. The list has room.
pub fn seat_all<D: Disk + Drop>(
    store: &Shared<D>,
    alloc: Global,
    first: Seat<D>,
    names: Vec<Name>,
    sessions: Vec<Session<D>>,
) -> Vec<Session<D>>
    requires first { first ≡ first_seat store.now first.knows.participant.client }
    requires empty { sessions.items ≡ [] }
    requires room { vec_len names < vec_capacity sessions }
    ensures new { AreNew store.now (first.knows.participant.client ∷ names.items) (map seat_of result.items) }
    ensures all { AreAll (map seat_of result.items) }
    ensures count { vec_len result ≡ vec_len names + 1 }
{
    let (first, others) = seat_others(store, alloc, first, names, sessions);
    let session = Session {
        seat: first,
        answers: Answered::none(alloc),
    };
    put_first(session, others)
}

/// The seats, and what the clients were answered. Both lists have room.
pub fn part_all<D: Disk + Drop>(
    sessions: Vec<Session<D>>,
    seats: Vec<Seat<D>>,
    answers: Vec<Answered>,
) -> (Vec<Seat<D>>, Vec<Answered>)
    requires empty { (seats.items ≡ []) × (answers.items ≡ []) }
    requires room { (vec_len sessions ≤ vec_capacity seats) × (vec_len sessions ≤ vec_capacity answers) }
    ensures seats { result.0.items ≡ map seat_of sessions.items }
    ensures answers { result.1.items ≡ map answers_of sessions.items }
{
    let mut seats = seats;
    let mut all = answers;
    for session in sessions {
        let Session { seat, answers } = session;
        seats.push_reserved(seat);
        all.push_reserved(answers);
    }
    (seats, all)
}
