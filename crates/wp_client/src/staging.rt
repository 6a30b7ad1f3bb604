//! An open transaction takes a change in.
ghost use Rattle.std.specs.Prelude.{IfOk, OnErr};
ghost use Rattle.wp_client.specs.declared.holdings.HeldTxn.TheVariants as held;
ghost use Rattle.wp_client.specs.Answers.{AnswersFrom, BreaksOffFrom};
ghost use Rattle.wp_client.specs.Holdings.{HoldsTxn, HoldsFrom};
ghost use Rattle.wp_client.specs.Replies.{asking};

use crate::refusals::refusal;
use std::alloc::{AllocError, Global};
use std::sync::Wait;
use wp_model::Change;
use wp_open_txns::OpenTxn;
use wp_outside::Disk;
use wp_shared::{Seat, Shared};
use wp_text::Reply;

/// Takes the change into the open transaction.
pub fn stage<D: Disk + Drop, R: Wait>(
    store: &Shared<D>,
    rt: &R,
    alloc: Global,
    seat: &mut Seat<D>,
    txn: &mut OpenTxn,
    change: Change,
) -> Result<Reply, AllocError>
    requires { HoldsTxn store.now seat.old (held.Open txn.old) }
    ensures holds { HoldsFrom store.now seat.old seat.new (held.Open txn.old) (held.Open txn.new) }
    ensures answered { IfOk result (AnswersFrom store.now seat.old seat.new (held.Open txn.old) (held.Open txn.new) (asking change)) }
    ensures err { OnErr result (BreaksOffFrom seat.old seat.new (held.Open txn.old) (held.Open txn.new) (asking change)) }
{
    match wp_open_txns::stage(store, rt, alloc, seat, txn, change) {
        Ok(()) => Ok(Reply::Held),
        Err(why) => refusal(why),
    }
}
