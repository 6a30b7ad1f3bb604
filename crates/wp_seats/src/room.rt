//! The memory that the sessions of a script take at once, before the first of them.
ghost use Rattle.std.specs.Prelude.{◌≡◌, ◌<◌, ◌≤◌, [], IfOk, vec_len, vec_capacity};
ghost use Rattle.wp_seats.specs.New.{clients_of, others_of};

use crate::session::Session;
use std::alloc::{AllocError, Global};
use std::marker::Model;
use wp_model::Name;
use wp_outside::Disk;
use wp_shared::Seat;
use wp_text::{Answered, Part};

/// Lists for the sessions of a script, each with room for all of them, and the names of the clients behind the first.
#[derive(Drop)]
pub struct Room<D: Disk + Drop> {
    names: Vec<Name>,
    sessions: Vec<Session<D>>,
    seats: Vec<Seat<D>>,
    answers: Vec<Answered>,
}

impl<D: Disk + Drop> Model for Room<D> {
    ghost use Rattle.std.specs.Prelude.{ℕ, List, vec_len, vec_capacity};
    ghost use Rattle.wp_seats.specs.Room.{HasRoom};

    ghost Value = { List (List ℕ) };

    ghost view = { λ r. r.names.items };

    ghost invariant = { λ r. HasRoom (vec_len r.names) (vec_len r.sessions) (vec_capacity r.sessions) × HasRoom (vec_len r.names) (vec_len r.seats) (vec_capacity r.seats) × HasRoom (vec_len r.names) (vec_len r.answers) (vec_capacity r.answers) };
}

/// Copies of the clients' names.
fn names_of(alloc: Global, parts: &[Part]) -> Result<Vec<Name>, AllocError>
    ensures { IfOk result (λ names. names.items ≡ clients_of parts.now) }
{
    let mut names = Vec::with_capacity(alloc, parts.len())?;
    for part in parts {
        names.push(part.client.copy(alloc)?)?;
    }
    Ok(names)
}

/// Copies of the names of the clients behind the first.
fn names_behind(alloc: Global, parts: &[Part]) -> Result<Vec<Name>, AllocError>
    ensures { IfOk result (λ names. names.items ≡ others_of parts.now) }
{
    let first = parts.len().min(1);
    names_of(alloc, &parts[first..])
}

impl<D: Disk + Drop> Room<D> {
    /// Room for the sessions of this script. To be made before the store is opened: so where memory is wanting for it, nothing is
    /// to be ended.
    pub fn new(alloc: Global, parts: &[Part]) -> Result<Room<D>, AllocError>
        ensures { IfOk result (λ room. room ≡ others_of parts.now) }
    {
        let names = names_behind(alloc, parts)?;
        let count = names.len() + 1;
        Ok(Room {
            names,
            sessions: Vec::with_capacity(alloc, count)?,
            seats: Vec::with_capacity(alloc, count)?,
            answers: Vec::with_capacity(alloc, count)?,
        })
    }

    /// The names, and the lists for sessions, seats and answers.
    pub fn into_lists(self) -> (Vec<Name>, Vec<Session<D>>, Vec<Seat<D>>, Vec<Answered>)
        ensures names { result.0.items ≡ self }
        ensures empty { (result.1.items ≡ []) × (result.2.items ≡ []) × (result.3.items ≡ []) }
        ensures room { (vec_len result.0 < vec_capacity result.1) × (vec_len result.0 < vec_capacity result.2) × (vec_len result.0 < vec_capacity result.3) }
    {
        let Room {
            names,
            sessions,
            seats,
            answers,
        } = self;
        (names, sessions, seats, answers)
    }
}
