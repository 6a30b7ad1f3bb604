//! Reads. What the client's own transaction says of a key comes first, and else what a snapshot shows.
ghost use Rattle.std.specs.Prelude.{◌≡◌, [], MatchOption, IfOk};
ghost use Rattle.wp_model.specs.Batch.{change_to};
ghost use Rattle.wp_shared.specs.Seats.{IsFree};
ghost use Rattle.wp_text.specs.declared.script.Command.TheVariants.{Get, GetAt};
ghost use Rattle.wp_open_txns.specs.Calls.{Keeps};
ghost use Rattle.wp_replies.specs.Plan as plans;
ghost use Rattle.wp_client.specs.Answers.{AnswersFrom, IsAnswered};
ghost use Rattle.wp_client.specs.Fresh.{NamesSeen};
ghost use Rattle.wp_client.specs.Holdings.{client_of, HoldsTxn, Holds};
ghost use Rattle.wp_client.specs.Replies.{batch_in, own_reply};

use crate::holdings::{HeldTxn, Holdings};
use std::alloc::{AllocError, Global};
use std::sync::Wait;
use wp_model::{Batch, Key, Name, Seq, Value};
use wp_outside::Disk;
use wp_shared::{Seat, Shared};
use wp_text::Reply;

/// The changes of the transaction, where there is one.
fn batch_of(txn: &HeldTxn) -> Option<&Batch>
    ensures { MatchOption result (batch_in txn.now ≡ []) (λ batch. batch.now ≡ batch_in txn.now) }
{
    match txn {
        HeldTxn::Idle => None,
        HeldTxn::Open(open) => Some(open.batch()),
        HeldTxn::Prepared(prepared) => Some(prepared.batch()),
    }
}

/// What the changes say of the key.
pub(crate) fn said_in(alloc: Global, batch: &Batch, key: &Key) -> Result<Option<Reply>, AllocError>
    ensures { IfOk result (λ said. said ≡ own_reply (change_to batch.now key.now)) }
{
    match batch.get(key) {
        Some(Some(value)) => Ok(Some(Reply::GotOwn(value.copy(alloc)?))),
        Some(None) => Ok(Some(Reply::MissingOwn)),
        None => Ok(None),
    }
}

/// What the transaction itself says of the key.
fn own_reply(alloc: Global, txn: &HeldTxn, key: &Key) -> Result<Option<Reply>, AllocError>
    ensures { IfOk result (λ said. said ≡ own_reply (change_to (batch_in txn.now) key.now)) }
{
    match batch_of(txn) {
        Some(batch) => said_in(alloc, batch, key),
        None => Ok(None),
    }
}

/// The value, with the number that it is read at.
pub(crate) fn read_reply(value: Option<Value>, at: Seq) -> Reply
    ensures { result ≡ plans.read_reply value at }
{
    match value {
        Some(value) => Reply::Got(value, at),
        None => Reply::Missing(at),
    }
}

/// Reads the key as it is now.
pub fn get<D: Disk + Drop, R: Wait>(
    store: &Shared<D>,
    rt: &R,
    alloc: Global,
    seat: &mut Seat<D>,
    txn: &HeldTxn,
    key: &Key,
) -> Result<Reply, AllocError>
    requires { HoldsTxn store.now seat.old txn.now }
    ensures goes_on { Keeps store.now seat.old seat.new }
    ensures answered { IfOk result (AnswersFrom store.now seat.old seat.new txn.now txn.now (Get key.now)) }
    ensures published { IfOk result (NamesSeen store.now seat.old seat.new (Get key.now)) }
{
    if let Some(said) = own_reply(alloc, txn, key)? {
        return Ok(said);
    }
    let (value, at) = wp_read::get_now(store, rt, seat, key)?;
    Ok(read_reply(value, at))
}

/// Reads the key at the client's snapshot of this label.
pub fn get_at<D: Disk + Drop, R: Wait>(
    store: &Shared<D>,
    rt: &R,
    alloc: Global,
    seat: &mut Seat<D>,
    held: &Holdings,
    key: &Key,
    label: &Name,
) -> Result<Reply, AllocError>
    requires { Holds store.now seat.old held.now }
    ensures goes_on { Keeps store.now seat.old seat.new }
    ensures answered { IfOk result (IsAnswered store.now seat.old seat.new (client_of held.now) (client_of held.now) (GetAt key.now label.now)) }
{
    let Some(i) = held.place_of(label) else {
        return Ok(Reply::UnknownSnapshot(label.copy(alloc)?));
    };
    let snapshot = &held.snapshots[i].snapshot;
    let value = wp_read::get(store, rt, seat, key, snapshot)?;
    Ok(read_reply(value, snapshot.number()))
}
