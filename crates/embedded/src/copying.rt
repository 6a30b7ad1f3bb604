//! A copy of the store as it is, by its only seat.
ghost use Rattle.embedded.specs.Alone.{IsAlone};

use crate::error::BankError;
use basilcorbel::{
    Copied, CopyAt, CopyRefused, Disk, Disks, Seat, Shared, copy_at, release, snapshot, undone_at,
};
use std::alloc::Global;
use std::sync::Wait;

/// The number of the copy, as a store.
const ID: u32 = 2;

/// Copies what the store holds to empty devices.
pub(crate) fn copy<D: Disk + Drop, E: Disk + Drop, R: Wait>(
    store: &Shared<D>,
    rt: &R,
    alloc: Global,
    seat: Seat<D>,
    target: Disks<E>,
) -> (Seat<D>, Result<Copied, BankError>)
    requires { IsAlone store.now seat }
    ensures { IsAlone store.now result.0 }
{
    let mut seat = seat;
    let Ok(at) = snapshot(store, rt, &mut seat) else {
        return (seat, Err(BankError::Memory));
    };
    if let Some(_p) = undone_at(store, rt, &mut seat, &at) {
        release(store, rt, &mut seat, at);
        return (seat, Err(BankError::Undone));
    }
    let CopyAt {
        mut seat,
        snapshot,
        outcome,
    } = copy_at(store, rt, alloc, seat, at, ID, target);
    release(store, rt, &mut seat, snapshot);
    match outcome {
        Ok((copied, _target)) => (seat, Ok(copied)),
        Err(CopyRefused { why, .. }) => (seat, Err(BankError::Copying(why))),
    }
}
