//! The board: what a client tells the others that it has seen, and what it hears of them.
ghost use Rattle.std.specs.Prelude.{IfOk, OnErr};
ghost use Rattle.wp_text.specs.declared.script.Command.TheVariants.{Tell, Hear};
ghost use Rattle.wp_replies.specs.Client.{Client};
ghost use Rattle.wp_shared.specs.Seats.{IsFree};
ghost use Rattle.wp_client.specs.Answers.{BreaksOff, IsAnswered};
ghost use Rattle.wp_client.specs.Fresh.{NamesSeen};
ghost use Rattle.wp_client.specs.Holdings.{HoldingsState, Holds};

use crate::refusals::refusal;
use std::alloc::{AllocError, Global};
use std::sync::Wait;
use wp_model::Name;
use wp_open_txns::TxnError;
use wp_outside::Disk;
use wp_shared::{Seat, Shared};
use wp_text::Reply;

/// Tells the number published under the label.
pub fn tell<D: Disk + Drop, R: Wait>(
    store: &Shared<D>,
    rt: &R,
    alloc: Global,
    seat: &mut Seat<D>,
    label: &Name,
) -> Result<Reply, AllocError>
    requires { IsFree store.now.table seat.old }
    ensures holds { (h : HoldingsState) → Holds store.now seat.old h → Holds store.now seat.new h }
    ensures answered { IfOk result (λ answer. (client : Client) → IsAnswered store.now seat.old seat.new client client (Tell label.now) answer) }
    ensures published { IfOk result (NamesSeen store.now seat.old seat.new (Tell label.now)) }
    ensures err { OnErr result ((client : Client) → BreaksOff seat.old seat.new client (Tell label.now)) }
{
    match wp_open_txns::tell(store, rt, alloc, seat, label) {
        Ok(published) => Ok(Reply::Told(published)),
        Err(why) => refusal(why),
    }
}

/// Hears the number published, where something was told under the label.
pub fn hear<D: Disk + Drop, R: Wait>(
    store: &Shared<D>,
    rt: &R,
    alloc: Global,
    seat: &mut Seat<D>,
    label: &Name,
) -> Result<Reply, AllocError>
    requires { IsFree store.now.table seat.old }
    ensures holds { (h : HoldingsState) → Holds store.now seat.old h → Holds store.now seat.new h }
    ensures answered { IfOk result (λ answer. (client : Client) → IsAnswered store.now seat.old seat.new client client (Hear label.now) answer) }
    ensures published { IfOk result (NamesSeen store.now seat.old seat.new (Hear label.now)) }
    ensures err { OnErr result ((client : Client) → BreaksOff seat.old seat.new client (Hear label.now)) }
{
    let asked = label.copy(alloc)?;
    match wp_open_txns::hear(store, rt, seat, label) {
        Ok(published) => Ok(Reply::Heard(published)),
        Err(TxnError::Silent) => Ok(Reply::Silent(asked)),
        Err(_) => unreachable!(),
    }
}
