//! Scans: the rows of a range of keys, at a fresh snapshot or at one of the client's.
ghost use Rattle.std.specs.Prelude.{◌≡◌, IfOk};
ghost use Rattle.wp_model.specs.Rows.{rows};
ghost use Rattle.wp_core.specs.Lists.{IsIn};
ghost use Rattle.wp_shared.specs.Calls.{Continues};
ghost use Rattle.wp_shared.specs.Seats.{IsFree, participant_of, seen_by};
ghost use Rattle.wp_text.specs.declared.script.Command.TheVariants as commands;
ghost use Rattle.wp_open_txns.specs.Calls.{Keeps};
ghost use Rattle.wp_client.specs.declared.holdings.HeldTxn.TheVariants.{Idle};
ghost use Rattle.wp_client.specs.Answers.{AnswersFrom, IsAnswered};
ghost use Rattle.wp_client.specs.Fresh.{NamesSeen};
ghost use Rattle.wp_client.specs.Holdings.{client_of, HoldsTxn, Holds};

use crate::holdings::{HeldTxn, Holdings};
use std::alloc::{AllocError, Global};
use std::sync::Wait;
use wp_model::{Key, Name};
use wp_outside::Disk;
use wp_read::Snapshot;
use wp_scan::Scan;
use wp_shared::{Seat, Shared};
use wp_text::{Pairs, Reply};

/// All rows of the range at the snapshot.
fn all_rows<D: Disk + Drop, R: Wait>(
    store: &Shared<D>,
    rt: &R,
    alloc: Global,
    seat: &mut Seat<D>,
    from: &Key,
    to: &Key,
    snapshot: &Snapshot,
) -> Result<Pairs, AllocError>
    requires free { IsFree store.now.table seat.old }
    requires registered { IsIn snapshot.now seat.old.knows.participant.registered }
    ensures continues { Continues store.now seat.old seat.new (participant_of seat.old) }
    ensures same { participant_of seat.new ≡ participant_of seat.old }
    ensures rows { IfOk result (λ pairs. pairs ≡ rows (seen_by seat.new) from.now to.now snapshot.now.number) }
{
    let mut pairs = Pairs::none(alloc);
    let mut scan = Scan::begin(alloc, from, to)?;
    while let Some(row) = scan.next(store, rt, seat, snapshot)? {
        pairs.push(row.key, row.value)?;
    }
    Ok(pairs)
}

/// Reads the range as it is now: at a snapshot that is registered for as long as that takes, where memory is wanting too.
fn scan_now<D: Disk + Drop, R: Wait>(
    store: &Shared<D>,
    rt: &R,
    alloc: Global,
    seat: &mut Seat<D>,
    from: &Key,
    to: &Key,
) -> Result<Reply, AllocError>
    requires { HoldsTxn store.now seat.old Idle }
    ensures goes_on { Keeps store.now seat.old seat.new }
    ensures answered { IfOk result (AnswersFrom store.now seat.old seat.new Idle Idle (commands.Scan from.now to.now)) }
    ensures published { IfOk result (NamesSeen store.now seat.old seat.new (commands.Scan from.now to.now)) }
{
    let snapshot = wp_read::snapshot(store, rt, seat)?;
    let at = snapshot.number();
    let found = all_rows(store, rt, alloc, seat, from, to, &snapshot);
    wp_read::release(store, rt, seat, snapshot);
    Ok(Reply::Rows(found?, at))
}

/// Reads the range as it is now, where no transaction is begun.
pub fn scan<D: Disk + Drop, R: Wait>(
    store: &Shared<D>,
    rt: &R,
    alloc: Global,
    seat: &mut Seat<D>,
    txn: &HeldTxn,
    from: &Key,
    to: &Key,
) -> Result<Reply, AllocError>
    requires { HoldsTxn store.now seat.old txn.now }
    ensures goes_on { Keeps store.now seat.old seat.new }
    ensures answered { IfOk result (AnswersFrom store.now seat.old seat.new txn.now txn.now (commands.Scan from.now to.now)) }
    ensures published { IfOk result (NamesSeen store.now seat.old seat.new (commands.Scan from.now to.now)) }
{
    match txn {
        HeldTxn::Idle => scan_now(store, rt, alloc, seat, from, to),
        HeldTxn::Open(_) => Ok(Reply::State),
        HeldTxn::Prepared(_) => Ok(Reply::State),
    }
}

/// Reads the range at the client's snapshot of this label, where there is one.
fn scan_labelled<D: Disk + Drop, R: Wait>(
    store: &Shared<D>,
    rt: &R,
    alloc: Global,
    seat: &mut Seat<D>,
    held: &Holdings,
    from: &Key,
    to: &Key,
    label: &Name,
) -> Result<Reply, AllocError>
    requires holds { Holds store.now seat.old held.now }
    requires idle { held.now.txn ≡ Idle }
    ensures goes_on { Keeps store.now seat.old seat.new }
    ensures answered { IfOk result (IsAnswered store.now seat.old seat.new (client_of held.now) (client_of held.now) (commands.ScanAt from.now to.now label.now)) }
{
    let Some(i) = held.place_of(label) else {
        return Ok(Reply::UnknownSnapshot(label.copy(alloc)?));
    };
    let snapshot = &held.snapshots[i].snapshot;
    let pairs = all_rows(store, rt, alloc, seat, from, to, snapshot)?;
    Ok(Reply::Rows(pairs, snapshot.number()))
}

/// Reads the range at the client's snapshot of this label, where no transaction is begun.
pub fn scan_at<D: Disk + Drop, R: Wait>(
    store: &Shared<D>,
    rt: &R,
    alloc: Global,
    seat: &mut Seat<D>,
    held: &Holdings,
    from: &Key,
    to: &Key,
    label: &Name,
) -> Result<Reply, AllocError>
    requires { Holds store.now seat.old held.now }
    ensures goes_on { Keeps store.now seat.old seat.new }
    ensures answered { IfOk result (IsAnswered store.now seat.old seat.new (client_of held.now) (client_of held.now) (commands.ScanAt from.now to.now label.now)) }
{
    match &held.txn {
        HeldTxn::Idle => scan_labelled(store, rt, alloc, seat, held, from, to, label),
        HeldTxn::Open(_) => Ok(Reply::State),
        HeldTxn::Prepared(_) => Ok(Reply::State),
    }
}
