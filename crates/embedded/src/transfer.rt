//! A transfer, and what it leaves, by calls of a store's only seat.
ghost use Rattle.std.specs.Prelude.{◌≡◌, IfOk};
ghost use Rattle.basilcorbel.specs.History.{value_at};
ghost use Rattle.basilcorbel.specs.Lists.{IsIn};
ghost use Rattle.basilcorbel.specs.Txn.{HasOpen, HasPrepared};
ghost use Rattle.embedded.specs.Alone.{IsAlone};

use basilcorbel::{
    Change, Disk, Key, Name, OpenTxn, PreparedTxn, Refused, Seat, Seq, Shared, Snapshot, TxnError,
    Value, abandon, begin, commit, get, leave, prepare, release, snapshot, stage,
};
use std::alloc::{AllocError, Global};
use std::sync::Wait;

/// What two accounts have once so many entries are read.
#[derive(Drop)]
pub(crate) struct Balances {
    pub(crate) at: Seq,
    pub(crate) payer: Option<Value>,
    pub(crate) payee: Option<Value>,
}

/// Takes both changes into the open transaction.
fn stage_both<D: Disk + Drop, R: Wait>(
    store: &Shared<D>,
    rt: &R,
    alloc: Global,
    seat: &mut Seat<D>,
    txn: &mut OpenTxn,
    debit: Change,
    credit: Change,
) -> Result<(), TxnError>
    requires alone { IsAlone store.now seat.old }
    requires open { HasOpen seat.old txn.old }
    ensures alone { IsAlone store.now seat.new }
    ensures open { HasOpen seat.new txn.new }
{
    stage(store, rt, alloc, seat, txn, debit)?;
    stage(store, rt, alloc, seat, txn, credit)
}

/// Prepares both changes in a transaction of this name. Where one is refused none of it is left.
pub(crate) fn prepare_transfer<D: Disk + Drop, R: Wait>(
    store: &Shared<D>,
    rt: &R,
    alloc: Global,
    seat: &mut Seat<D>,
    name: Name,
    debit: Change,
    credit: Change,
) -> Result<PreparedTxn, TxnError>
    requires { IsAlone store.now seat.old }
    ensures alone { IsAlone store.now seat.new }
    ensures prepared { IfOk result (HasPrepared seat.new) }
{
    let mut txn = begin(store, rt, alloc, seat, name)?;
    if let Err(why) = stage_both(store, rt, alloc, seat, &mut txn, debit, credit) {
        abandon(store, rt, seat, txn);
        return Err(why);
    }
    match prepare(store, rt, alloc, seat, txn) {
        Ok((prepared, _number)) => Ok(prepared),
        Err(Refused { txn, why }) => {
            abandon(store, rt, seat, txn);
            Err(why)
        }
    }
}

/// Commits the transaction. Where that is refused it stays prepared, for who takes it by its name.
pub(crate) fn decide<D: Disk + Drop, R: Wait>(
    store: &Shared<D>,
    rt: &R,
    alloc: Global,
    seat: &mut Seat<D>,
    prepared: PreparedTxn,
) -> Result<Seq, TxnError>
    requires alone { IsAlone store.now seat.old }
    requires prepared { HasPrepared seat.old prepared }
    ensures { IsAlone store.now seat.new }
{
    match commit(store, rt, alloc, seat, prepared) {
        Ok(number) => Ok(number),
        Err(Refused { txn, why }) => {
            leave(store, rt, seat, txn);
            Err(why)
        }
    }
}

/// What both accounts have at the snapshot.
fn read_both<D: Disk + Drop, R: Wait>(
    store: &Shared<D>,
    rt: &R,
    seat: &mut Seat<D>,
    payer: &Key,
    payee: &Key,
    at: &Snapshot,
) -> Result<Balances, AllocError>
    requires alone { IsAlone store.now seat.old }
    requires registered { IsIn at.now seat.old.knows.participant.registered }
    ensures alone { IsAlone store.now seat.new }
    ensures registered { IsIn at.now seat.new.knows.participant.registered }
    ensures payer { IfOk result (λ b. b.payer ≡ value_at seat.new.knows.participant.seen payer.now b.at) }
    ensures payee { IfOk result (λ b. b.payee ≡ value_at seat.new.knows.participant.seen payee.now b.at) }
{
    let payer = get(store, rt, seat, payer, at)?;
    let payee = get(store, rt, seat, payee, at)?;
    Ok(Balances {
        at: at.number(),
        payer,
        payee,
    })
}

/// What both accounts have now, at one moment.
pub(crate) fn look<D: Disk + Drop, R: Wait>(
    store: &Shared<D>,
    rt: &R,
    seat: &mut Seat<D>,
    payer: &Key,
    payee: &Key,
) -> Result<Balances, AllocError>
    requires { IsAlone store.now seat.old }
    ensures { IsAlone store.now seat.new }
{
    let at = snapshot(store, rt, seat)?;
    let found = read_both(store, rt, seat, payer, payee, &at);
    release(store, rt, seat, at);
    found
}
