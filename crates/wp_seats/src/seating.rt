//! What a script's sessions need before their store is opened.
ghost use Rattle.std.specs.Prelude.{IfOk};
ghost use Rattle.wp_seats.specs.Seating.{IsFirstClient, IsSeating};

use crate::room::Room;
use std::alloc::{AllocError, Global};
use wp_model::Name;
use wp_outside::Disk;
use wp_text::Part;

/// Whose the store's first seat is to be, and room for the sessions.
#[derive(Drop)]
pub struct Seating<D: Disk + Drop> {
    pub client: Name,
    pub room: Room<D>,
}

/// The first client. Where the script has no part nobody does anything at the first seat, and its name is never seen.
fn first_client(alloc: Global, parts: &[Part]) -> Result<Name, AllocError>
    ensures { IfOk result (IsFirstClient parts.now) }
{
    match parts.first() {
        Some(part) => part.client.copy(alloc),
        None => Name::read(alloc, b"open").map_err(|_| AllocError),
    }
}

impl<D: Disk + Drop> Seating<D> {
    /// For this script. Where memory is wanting for it, no device was called yet.
    pub fn new(alloc: Global, parts: &[Part]) -> Result<Seating<D>, AllocError>
        ensures { IfOk result (λ seating. IsSeating parts.now seating.client seating.room) }
    {
        Ok(Seating {
            client: first_client(alloc, parts)?,
            room: Room::new(alloc, parts)?,
        })
    }
}
