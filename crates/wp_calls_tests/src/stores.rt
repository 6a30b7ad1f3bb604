//! Stores over devices in memory, each with a seat for each of two clients.
ghost use Rattle.std.specs.Prelude.{◌≡◌, ◌≤◌, None};
ghost use Rattle.wp_shared.specs.Seats.{IsFree};
ghost use Rattle.wp_calls_tests.specs.Ready.{IsFirst};

use std::alloc::Global;
use std::process::Abort;
use wp_memory::MemDisk;
use wp_model::Name;
use wp_opened::open_shared;
use wp_outside::Disks;
use wp_shared::{Seat, Shared};

/// The greatest number that an entry may get.
const MOST: u64 = 4_294_967_295;

/// A new device.
fn device<R: Abort>(rt: &R, alloc: Global) -> MemDisk {
    let Ok(disk) = MemDisk::new(alloc, Vec::new(alloc), 1 << 16, 1 << 14, Vec::new(alloc)) else {
        panic!(rt; "no memory for a device");
    };
    disk
}

pub(super) fn new_disks<R: Abort>(rt: &R, alloc: Global) -> Disks<MemDisk> {
    Disks {
        log: device(rt, alloc),
        manifest: device(rt, alloc),
        tables: device(rt, alloc),
    }
}

pub(super) fn name<R: Abort>(rt: &R, alloc: Global, bytes: &[u8]) -> Name {
    let Ok(name) = Name::read(alloc, bytes) else {
        panic!(rt; "no memory for a name");
    };
    name
}

/// A store: its first seat, and two that this one made.
pub(super) struct Seats {
    pub(super) store: Shared<MemDisk>,
    pub(super) first: Seat<MemDisk>,
    pub(super) writing: Seat<MemDisk>,
    pub(super) reading: Seat<MemDisk>,
}

/// Opens such a store with a commit cache of so many bits, at most 16.
pub(super) fn opened<R: Abort>(rt: &R, alloc: Global, disks: Disks<MemDisk>, bits: u32) -> Seats
    requires { bits ≤ 16 }
    ensures first { IsFirst result.store result.first }
    ensures writing { IsFree result.store.table result.writing × (result.writing.knows.participant.direct ≡ None) }
    ensures reading { IsFree result.store.table result.reading × (result.reading.knows.participant.direct ≡ None) }
{
    let Ok((store, mut first, _id)) = open_shared(
        alloc,
        name(rt, alloc, b"a"),
        disks,
        bits,
        MOST,
        1,
    ) else {
        panic!(rt; "no memory for the store");
    };
    let writing = store.seat(&mut first, name(rt, alloc, b"b"));
    let reading = store.seat(&mut first, name(rt, alloc, b"c"));
    Seats {
        store,
        first,
        writing,
        reading,
    }
}

/// Ends the store.
pub(super) fn end<R: Abort>(rt: &R, alloc: Global, seats: Seats)
    requires first { IsFirst seats.store seats.first }
    requires writing { IsFree seats.store.table seats.writing }
    requires reading { IsFree seats.store.table seats.reading }
{
    let Seats {
        store,
        first,
        writing,
        reading,
    } = seats;
    let Ok(all) = Vec::from_array(alloc, [first, writing, reading]) else {
        panic!(rt; "no memory for the seats");
    };
    store.finish(all);
}
