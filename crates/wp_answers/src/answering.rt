//! One command of a client.
ghost use Rattle.std.specs.Prelude.{◌≡◌, true, IfOk, OnErr};
ghost use Rattle.wp_client.specs.declared.holdings.HeldTxn.TheVariants as held;
ghost use Rattle.wp_client.specs.Answers.{Answers, IsAnswered, IsDueAlone, AnswersFrom, BreaksOff, BreaksOffFrom};
ghost use Rattle.wp_answers.specs.Fresh.{NamesPublished};
ghost use Rattle.wp_client.specs.Holdings.{client_of, HoldsTxn, Holds, HoldsFrom};
ghost use Rattle.wp_answers.specs.Replies.{is_of_txn};
ghost use Rattle.wp_answers.specs.Uncalled.{LeavesDevices};

use crate::changes::change;
use crate::decisions::{commit, leave, prepare, rollback};
use crate::maintenance::{compact, flush, renew};
use crate::settling::settle;
use std::alloc::{AllocError, Global};
use std::mem;
use std::sync::Wait;
use wp_client::{
    HeldTxn, Holdings, begin, free, get, get_at, hear, lock, pin, scan, scan_at, snap, take, tell,
};
use wp_outside::Disk;
use wp_shared::{Seat, Shared};
use wp_text::{Command, Reply};

/// Takes the transaction out, and leaves none.
fn take_out(place: &mut HeldTxn) -> HeldTxn
    ensures value { result ≡ place.old }
    ensures left { place.new ≡ held.Idle }
{
    mem::replace(place, HeldTxn::Idle)
}

/// Puts the transaction where none is.
fn put_back(place: &mut HeldTxn, txn: HeldTxn)
    requires { place.old ≡ held.Idle }
    ensures { place.new ≡ txn }
{
    match mem::replace(place, txn) {
        HeldTxn::Idle => {}
        HeldTxn::Open(_open) => unreachable!(),
        HeldTxn::Prepared(_prepared) => unreachable!(),
    }
}

/// A command that may change which transaction the client has.
fn decide<D: Disk + Drop, R: Wait>(
    store: &Shared<D>,
    rt: &R,
    alloc: Global,
    seat: &mut Seat<D>,
    txn: HeldTxn,
    command: &Command,
) -> (HeldTxn, Result<Reply, AllocError>)
    requires has { HoldsTxn store.now seat.old txn }
    requires of_txn { is_of_txn command.now ≡ true }
    ensures holds { HoldsFrom store.now seat.old seat.new txn result.0 }
    ensures answered { IfOk result.1 (AnswersFrom store.now seat.old seat.new txn result.0 command.now) }
    ensures err { OnErr result.1 (BreaksOffFrom seat.old seat.new txn result.0 command.now) }
    ensures uncalled { OnErr result.1 (LeavesDevices store.now seat.old seat.new command.now txn) }
{
    match command {
        Command::Begin(name) => begin(store, rt, alloc, seat, txn, name),
        Command::Take(name) => take(store, rt, alloc, seat, txn, name),
        Command::Prepare => prepare(store, rt, alloc, seat, txn),
        Command::Commit => commit(store, rt, alloc, seat, txn),
        Command::Rollback => rollback(store, rt, alloc, seat, txn),
        Command::Leave => {
            let (left, reply) = leave(store, rt, seat, txn);
            (left, Ok(reply))
        }
        _ => unreachable!(),
    }
}

/// The same, in the client's holdings.
fn change_txn<D: Disk + Drop, R: Wait>(
    store: &Shared<D>,
    rt: &R,
    alloc: Global,
    seat: &mut Seat<D>,
    txn: &mut HeldTxn,
    command: &Command,
) -> Result<Reply, AllocError>
    requires has { HoldsTxn store.now seat.old txn.old }
    requires of_txn { is_of_txn command.now ≡ true }
    ensures holds { HoldsFrom store.now seat.old seat.new txn.old txn.new }
    ensures answered { IfOk result (AnswersFrom store.now seat.old seat.new txn.old txn.new command.now) }
    ensures err { OnErr result (BreaksOffFrom seat.old seat.new txn.old txn.new command.now) }
    ensures uncalled { OnErr result (LeavesDevices store.now seat.old seat.new command.now txn.old) }
{
    let (left, outcome) = decide(store, rt, alloc, seat, take_out(txn), command);
    put_back(txn, left);
    outcome
}

/// Does what the command asks for.
fn obey<D: Disk + Drop, R: Wait>(
    store: &Shared<D>,
    rt: &R,
    alloc: Global,
    seat: &mut Seat<D>,
    held: &mut Holdings,
    command: &Command,
) -> Result<Reply, AllocError>
    requires { Holds store.now seat.old held.old }
    ensures holds { Holds store.now seat.new held.new }
    ensures answered { IfOk result (IsAnswered store.now seat.old seat.new (client_of held.old) (client_of held.new) command.now) }
    ensures published { IfOk result (NamesPublished store.now seat.old seat.new command.now) }
    ensures err { OnErr result (BreaksOff seat.old seat.new (client_of held.old) command.now) }
    ensures uncalled { OnErr result (LeavesDevices store.now seat.old seat.new command.now held.old.txn) }
    ensures kept { OnErr result (held.new ≡ held.old) }
{
    match command {
        Command::Put(_, _) | Command::Del(_) => {
            change(store, rt, alloc, seat, &mut held.txn, command)
        }
        Command::Get(key) => get(store, rt, alloc, seat, &held.txn, key),
        Command::GetAt(key, label) => get_at(store, rt, alloc, seat, held, key, label),
        Command::Scan(from, to) => scan(store, rt, alloc, seat, &held.txn, from, to),
        Command::ScanAt(from, to, label) => {
            scan_at(store, rt, alloc, seat, held, from, to, label)
        }
        Command::Snap(label) => snap(store, rt, alloc, seat, held, label),
        Command::Pin => pin(store, rt, seat, &mut held.txn),
        Command::Lock(key) => lock(store, rt, alloc, seat, &mut held.txn, key),
        Command::Free(label) => free(store, rt, alloc, seat, held, label),
        Command::Tell(label) => tell(store, rt, alloc, seat, label),
        Command::Hear(label) => hear(store, rt, alloc, seat, label),
        Command::Begin(_)
        | Command::Take(_)
        | Command::Prepare
        | Command::Commit
        | Command::Rollback
        | Command::Leave => change_txn(store, rt, alloc, seat, &mut held.txn, command),
        Command::Settle(names) => settle(store, rt, alloc, seat, &held.txn, names),
        Command::Flush => flush(store, rt, seat),
        Command::Compact => compact(store, rt, alloc, seat),
        Command::Renew => renew(store, rt, seat),
    }
}

/// Answers a command. Want of memory is no answer.
pub fn answer<D: Disk + Drop, R: Wait>(
    store: &Shared<D>,
    rt: &R,
    alloc: Global,
    seat: &mut Seat<D>,
    held: &mut Holdings,
    command: &Command,
) -> Result<Reply, AllocError>
    requires { Holds store.now seat.old held.old }
    ensures holds { Holds store.now seat.new held.new }
    ensures answered { IfOk result (Answers store.now seat.old seat.new (client_of held.old) (client_of held.new) command.now) }
    ensures alone { IfOk result (IsDueAlone store.now seat.old seat.new (client_of held.old) (client_of held.new) command.now) }
    ensures published { IfOk result (NamesPublished store.now seat.old seat.new command.now) }
    ensures err { OnErr result (BreaksOff seat.old seat.new (client_of held.old) command.now) }
    ensures uncalled { OnErr result (LeavesDevices store.now seat.old seat.new command.now held.old.txn) }
    ensures kept { OnErr result (held.new ≡ held.old) }
{
    let outcome = obey(store, rt, alloc, seat, held, command);
    store.shows_world(seat);
    outcome
}
