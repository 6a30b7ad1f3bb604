//! What stands in memory is flushed to a table, tables are merged, and the log is renewed. The client's transaction does not count.
ghost use Rattle.std.specs.Prelude.{◌≡◌, Some, None, IfOk, OnErr};
ghost use Rattle.wp_text.specs.declared.script.Command.TheVariants.{Flush, Compact, Renew};
ghost use Rattle.wp_replies.specs.Client.{Client};
ghost use Rattle.wp_shared.specs.Seats.{IsFree};
ghost use Rattle.wp_client.specs.Answers.{BreaksOff, IsAnswered};
ghost use Rattle.wp_answers.specs.Fresh.{NamesPublished};
ghost use Rattle.wp_client.specs.Holdings.{HoldingsState, client_of, Holds};
ghost use Rattle.wp_answers.specs.Replies.{renewal_refusal, tables_refusal};
ghost use Rattle.wp_client.specs.declared.holdings.HeldTxn.{HeldTxn};
ghost use Rattle.wp_answers.specs.Uncalled.{LeavesDevices};

use std::alloc::{AllocError, Global};
use std::sync::Wait;
use wp_maint::{MaintError, RenewError};
use wp_outside::Disk;
use wp_shared::{Seat, Shared};
use wp_text::Reply;

/// Why no table was made, unless memory was wanting.
fn tables_refusal(why: MaintError) -> Result<Reply, AllocError>
    ensures answered { IfOk result (λ answer. tables_refusal why ≡ Some answer) }
    ensures err { OnErr result (tables_refusal why ≡ None) }
{
    match why {
        MaintError::Memory => Err(AllocError),
        MaintError::Nothing => Ok(Reply::Nothing),
        MaintError::TableFault => Ok(Reply::FaultTables),
        MaintError::TablesStopped(flushed) => Ok(Reply::Halted(flushed)),
    }
}

/// Why the log was not renewed, unless memory was wanting.
fn renewal_refusal(why: RenewError) -> Result<Reply, AllocError>
    ensures answered { IfOk result (λ answer. renewal_refusal why ≡ Some answer) }
    ensures err { OnErr result (renewal_refusal why ≡ None) }
{
    match why {
        RenewError::Memory => Err(AllocError),
        RenewError::TablesStopped(flushed) => Ok(Reply::Halted(flushed)),
        RenewError::Stopped(published) => Ok(Reply::Stopped(published)),
        RenewError::Nothing => Ok(Reply::Nothing),
        RenewError::TableFault => Ok(Reply::FaultTables),
        RenewError::LogFault => Ok(Reply::FaultLog),
    }
}

/// Flushes what stands in memory.
pub(crate) fn flush<D: Disk + Drop, R: Wait>(
    store: &Shared<D>,
    rt: &R,
    seat: &mut Seat<D>,
) -> Result<Reply, AllocError>
    requires { IsFree store.now.table seat.old }
    ensures holds { (h : HoldingsState) → Holds store.now seat.old h → Holds store.now seat.new h }
    ensures answered { IfOk result (λ answer. (client : Client) → IsAnswered store.now seat.old seat.new client client Flush answer) }
    ensures published { IfOk result (NamesPublished store.now seat.old seat.new Flush) }
    ensures err { OnErr result ((client : Client) → BreaksOff seat.old seat.new client Flush) }
    ensures uncalled { OnErr result ((txn : HeldTxn) → LeavesDevices store.now seat.old seat.new Flush txn) }
{
    match wp_maint::flush(store, rt, seat) {
        Ok(done) => Ok(Reply::Flushed {
            at: done.at,
            versions: done.versions,
        }),
        Err(why) => tables_refusal(why),
    }
}

/// Merges the tables. What the client's snapshots need stays.
pub(crate) fn compact<D: Disk + Drop, R: Wait>(
    store: &Shared<D>,
    rt: &R,
    alloc: Global,
    seat: &mut Seat<D>,
) -> Result<Reply, AllocError>
    requires { IsFree store.now.table seat.old }
    ensures holds { (h : HoldingsState) → Holds store.now seat.old h → Holds store.now seat.new h }
    ensures answered { IfOk result (λ answer. (h : HoldingsState) → Holds store.now seat.old h → IsAnswered store.now seat.old seat.new (client_of h) (client_of h) Compact answer) }
    ensures published { IfOk result (NamesPublished store.now seat.old seat.new Compact) }
    ensures err { OnErr result ((client : Client) → BreaksOff seat.old seat.new client Compact) }
    ensures uncalled { OnErr result ((txn : HeldTxn) → LeavesDevices store.now seat.old seat.new Compact txn) }
{
    match wp_compact::compact(store, rt, alloc, seat) {
        Ok(done) => Ok(Reply::Compacted {
            at: done.at,
            versions: done.versions,
        }),
        Err(why) => tables_refusal(why),
    }
}

/// Lets the log begin behind the number published.
pub(crate) fn renew<D: Disk + Drop, R: Wait>(
    store: &Shared<D>,
    rt: &R,
    seat: &mut Seat<D>,
) -> Result<Reply, AllocError>
    requires { IsFree store.now.table seat.old }
    ensures holds { (h : HoldingsState) → Holds store.now seat.old h → Holds store.now seat.new h }
    ensures answered { IfOk result (λ answer. (client : Client) → IsAnswered store.now seat.old seat.new client client Renew answer) }
    ensures published { IfOk result (NamesPublished store.now seat.old seat.new Renew) }
    ensures err { OnErr result ((client : Client) → BreaksOff seat.old seat.new client Renew) }
    ensures uncalled { OnErr result ((txn : HeldTxn) → LeavesDevices store.now seat.old seat.new Renew txn) }
{
    match wp_renew::renew(store, rt, seat) {
        Ok(done) => Ok(Reply::Renewed {
            at: done.at,
            carried: done.carried,
        }),
        Err(why) => renewal_refusal(why),
    }
}
