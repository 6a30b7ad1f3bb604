//! Changes. Where no transaction is begun a change is written at once; an open one takes it in.
ghost use Rattle.std.specs.Prelude.{◌≡◌, true, IfOk, OnErr};
ghost use Rattle.wp_client.specs.declared.holdings.HeldTxn.TheVariants as held;
ghost use Rattle.wp_client.specs.Answers.{AnswersFrom, BreaksOffFrom};
ghost use Rattle.wp_client.specs.Holdings.{HoldsTxn, HoldsFrom};
ghost use Rattle.wp_client.specs.Replies.{asking, acknowledging};
ghost use Rattle.wp_model.specs.declared.change.Change.{Change};
ghost use Rattle.wp_answers.specs.Replies.{is_change};
ghost use Rattle.wp_answers.specs.Uncalled.{LeavesDevices};

use std::alloc::{AllocError, Global};
use std::sync::Wait;
use wp_client::{HeldTxn, refusal, stage};
use wp_model::{Change, Seq};
use wp_outside::Disk;
use wp_shared::{Seat, Shared};
use wp_text::{Command, Reply};

/// A copy of the change that the command asks for.
fn change_of(alloc: Global, command: &Command) -> Result<Change, AllocError>
    requires { is_change command.now ≡ true }
    ensures { IfOk result (λ change. command.now ≡ asking change) }
{
    match command {
        Command::Put(key, value) => Ok(Change::Put(key.copy(alloc)?, value.copy(alloc)?)),
        Command::Del(key) => Ok(Change::Del(key.copy(alloc)?)),
        _ => unreachable!(),
    }
}

/// The reply to the change, which is written with this number.
fn acknowledging(command: &Command, n: Seq) -> Reply
    requires { is_change command.now ≡ true }
    ensures { (change : Change) → command.now ≡ asking change → result ≡ acknowledging change n }
{
    match command {
        Command::Put(_, _) => Reply::Put(n),
        Command::Del(_) => Reply::Del(n),
        _ => unreachable!(),
    }
}

/// Writes the change at once.
fn write_now<D: Disk + Drop, R: Wait>(
    store: &Shared<D>,
    rt: &R,
    alloc: Global,
    seat: &mut Seat<D>,
    command: &Command,
) -> Result<Reply, AllocError>
    requires has { HoldsTxn store.now seat.old held.Idle }
    requires of_change { is_change command.now ≡ true }
    ensures holds { HoldsFrom store.now seat.old seat.new held.Idle held.Idle }
    ensures answered { IfOk result (AnswersFrom store.now seat.old seat.new held.Idle held.Idle command.now) }
    ensures err { OnErr result (BreaksOffFrom seat.old seat.new held.Idle held.Idle command.now) }
    ensures uncalled { OnErr result (LeavesDevices store.now seat.old seat.new command.now held.Idle) }
{
    let change = change_of(alloc, command)?;
    match wp_txn::write(store, rt, alloc, seat, change) {
        Ok(n) => Ok(acknowledging(command, n)),
        Err(why) => refusal(why),
    }
}

/// Puts or deletes the key.
pub(crate) fn change<D: Disk + Drop, R: Wait>(
    store: &Shared<D>,
    rt: &R,
    alloc: Global,
    seat: &mut Seat<D>,
    txn: &mut HeldTxn,
    command: &Command,
) -> Result<Reply, AllocError>
    requires has { HoldsTxn store.now seat.old txn.old }
    requires of_change { is_change command.now ≡ true }
    ensures holds { HoldsFrom store.now seat.old seat.new txn.old txn.new }
    ensures answered { IfOk result (AnswersFrom store.now seat.old seat.new txn.old txn.new command.now) }
    ensures err { OnErr result (BreaksOffFrom seat.old seat.new txn.old txn.new command.now) }
    ensures uncalled { OnErr result (LeavesDevices store.now seat.old seat.new command.now txn.old) }
{
    match txn {
        HeldTxn::Idle => write_now(store, rt, alloc, seat, command),
        HeldTxn::Open(open) => {
            let change = change_of(alloc, command)?;
            stage(store, rt, alloc, seat, open, change)
        }
        HeldTxn::Prepared(_) => Ok(Reply::State),
    }
}
