//! Two prepared transactions that one record decides, by calls of a store's only seat.
ghost use Rattle.std.specs.Prelude.{◌≡◌, ◌≤◌, ◌∷◌, [], length, IfOk};
ghost use Rattle.basilcorbel.specs.Groups.{ArePrepared};
ghost use Rattle.embedded.specs.Alone.{IsAlone};

use basilcorbel::{
    Disk, Name, PreparedTxn, Refused, Seat, Seq, Shared, TxnError, commit_all, leave, take_prepared,
};
use std::alloc::Global;
use std::sync::Wait;

/// Leaves them all as they are, for who takes them by their names.
fn leave_all<D: Disk + Drop, R: Wait>(
    store: &Shared<D>,
    rt: &R,
    seat: &mut Seat<D>,
    mut txns: Vec<PreparedTxn>,
)
    requires alone { IsAlone store.now seat.old }
    requires prepared { ArePrepared seat.old txns.items }
    ensures { IsAlone store.now seat.new }
{
    while !txns.is_empty() {
        let txn = txns.remove(0);
        leave(store, rt, seat, txn);
    }
    txns.destroy_empty();
}

/// Takes both by their names. Where one is refused, neither is taken.
fn take_both<D: Disk + Drop, R: Wait>(
    store: &Shared<D>,
    rt: &R,
    alloc: Global,
    seat: &mut Seat<D>,
    first: &Name,
    second: &Name,
) -> Result<(PreparedTxn, PreparedTxn), TxnError>
    requires { IsAlone store.now seat.old }
    ensures alone { IsAlone store.now seat.new }
    ensures prepared { IfOk result (λ both. ArePrepared seat.new (both.0 ∷ both.1 ∷ [])) }
{
    let one = take_prepared(store, rt, alloc, seat, first)?;
    match take_prepared(store, rt, alloc, seat, second) {
        Ok(other) => Ok((one, other)),
        Err(why) => {
            leave(store, rt, seat, one);
            Err(why)
        }
    }
}

/// Commits them by one record: a crash leaves all of them committed, or none. Where that is refused they stay prepared.
fn commit_each<D: Disk + Drop, R: Wait>(
    store: &Shared<D>,
    rt: &R,
    alloc: Global,
    seat: &mut Seat<D>,
    txns: Vec<PreparedTxn>,
) -> Result<Seq, TxnError>
    requires alone { IsAlone store.now seat.old }
    requires some { (1 ≤ length txns.items) × (length txns.items ≤ 16) }
    requires prepared { ArePrepared seat.old txns.items }
    ensures { IsAlone store.now seat.new }
{
    match commit_all(store, rt, alloc, seat, txns) {
        Ok(number) => Ok(number),
        Err(Refused { txn, why }) => {
            leave_all(store, rt, seat, txn);
            Err(why)
        }
    }
}

/// Takes both transactions by their names, and commits them together. The answer is the number of the second commit.
pub(crate) fn settle<D: Disk + Drop, R: Wait>(
    store: &Shared<D>,
    rt: &R,
    alloc: Global,
    seat: &mut Seat<D>,
    first: &Name,
    second: &Name,
) -> Result<Seq, TxnError>
    requires { IsAlone store.now seat.old }
    ensures { IsAlone store.now seat.new }
{
    let mut txns = Vec::with_capacity(alloc, 2)?;
    match take_both(store, rt, alloc, seat, first, second) {
        Ok((one, other)) => {
            txns.push_reserved(one);
            txns.push_reserved(other);
            commit_each(store, rt, alloc, seat, txns)
        }
        Err(why) => {
            txns.destroy_empty();
            Err(why)
        }
    }
}
