//! The value of a key as it is now.
ghost use Rattle.std.specs.Prelude.{IfOk, OnErr};
ghost use Rattle.wp_shared.specs.Calls.{Continues};
ghost use Rattle.wp_shared.specs.Seats.{IsFree, participant_of};
ghost use Rattle.wp_read.specs.Fresh.{ReadsFresh};

use crate::at_once::{Begun, begin_read};
use crate::registering::release;
use crate::values::get;
use std::alloc::AllocError;
use std::sync::Wait;
use wp_model::{Key, Seq, Value};
use wp_outside::Disk;
use wp_shared::{Seat, Shared};

/// The value of the key as it is now, and the number of the last entry that it is of.
pub fn get_now<D: Disk + Drop, R: Wait>(
    store: &Shared<D>,
    rt: &R,
    seat: &mut Seat<D>,
    key: &Key,
) -> Result<(Option<Value>, Seq), AllocError>
    requires { IsFree store.now.table seat.old }
    ensures read { IfOk result (λ read. ReadsFresh store.now seat.old seat.new key.now read.0 read.1) }
    ensures refused { OnErr result (Continues store.now seat.old seat.new (participant_of seat.old)) }
{
    let snapshot = match begin_read(store, rt, seat, key)? {
        Begun::Read(value, at) => return Ok((value, at)),
        Begun::Registered(snapshot) => snapshot,
    };
    let at = snapshot.number();
    let outcome = get(store, rt, seat, key, &snapshot);
    release(store, rt, seat, snapshot);
    Ok((outcome?, at))
}
