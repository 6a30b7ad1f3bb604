//! The rows of a range of keys at one moment, by calls of a store's only seat.
ghost use Rattle.std.specs.Prelude.{◌≡◌, map, IfOk};
ghost use Rattle.basilcorbel.specs.Lists.{IsIn};
ghost use Rattle.basilcorbel.specs.Rows.{pair_of, rows};
ghost use Rattle.embedded.specs.Alone.{IsAlone};

use basilcorbel::{Disk, Key, Row, Scan, Seat, Seq, Shared, Snapshot, release, snapshot};
use std::alloc::{AllocError, Global};
use std::sync::Wait;

/// The keys of a range that have a value once so many entries are read.
#[derive(Drop)]
pub(crate) struct Listing {
    pub(crate) at: Seq,
    pub(crate) rows: Vec<Row>,
}

/// The rows of the range at the snapshot, one by one.
fn rows_at<D: Disk + Drop, R: Wait>(
    store: &Shared<D>,
    rt: &R,
    alloc: Global,
    seat: &mut Seat<D>,
    from: &Key,
    to: &Key,
    at: &Snapshot,
) -> Result<Vec<Row>, AllocError>
    requires alone { IsAlone store.now seat.old }
    requires registered { IsIn at.now seat.old.knows.participant.registered }
    ensures alone { IsAlone store.now seat.new }
    ensures registered { IsIn at.now seat.new.knows.participant.registered }
    ensures rows { IfOk result (λ found. map pair_of found.items ≡ rows seat.new.knows.participant.seen from.now to.now at.now.number) }
{
    let mut found = Vec::new(alloc);
    let mut scan = Scan::begin(alloc, from, to)?;
    while let Some(row) = scan.next(store, rt, seat, at)? {
        found.push(row)?;
    }
    Ok(found)
}

/// The rows of the range as it is now.
pub(crate) fn list<D: Disk + Drop, R: Wait>(
    store: &Shared<D>,
    rt: &R,
    alloc: Global,
    seat: &mut Seat<D>,
    from: &Key,
    to: &Key,
) -> Result<Listing, AllocError>
    requires { IsAlone store.now seat.old }
    ensures { IsAlone store.now seat.new }
{
    let at = snapshot(store, rt, seat)?;
    let number = at.number();
    let found = rows_at(store, rt, alloc, seat, from, to, &at);
    release(store, rt, seat, at);
    Ok(Listing {
        at: number,
        rows: found?,
    })
}
