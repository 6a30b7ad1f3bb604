//! The client's snapshots, each under a label of its own.
ghost use Rattle.std.specs.Prelude.{◌≡◌, IfOk, OnErr};
ghost use Rattle.wp_text.specs.declared.script.Command.TheVariants.{Snap, Free};
ghost use Rattle.wp_replies.specs.Replies.{refuses_label};
ghost use Rattle.wp_client.specs.Answers.{BreaksOff, IsAnswered};
ghost use Rattle.wp_client.specs.Fresh.{NamesSeen};
ghost use Rattle.wp_client.specs.Holdings.{client_of, Holds};

use crate::holdings::{HeldSnapshot, Holdings};
use std::alloc::{AllocError, Global};
use std::sync::Wait;
use wp_model::Name;
use wp_outside::Disk;
use wp_replies::MOST_SNAPSHOTS;
use wp_shared::{Seat, Shared};
use wp_text::Reply;

/// Why no snapshot is taken under the label: it is the client's already, or there are as many as may be.
fn refused(alloc: Global, held: &Holdings, label: &Name) -> Result<Option<Reply>, AllocError>
    ensures { IfOk result (λ refused. refused ≡ refuses_label (client_of held.now).snapshots label.now) }
{
    if held.place_of(label).is_some() {
        return Ok(Some(Reply::Taken(label.copy(alloc)?)));
    }
    if held.snapshots.len() >= MOST_SNAPSHOTS {
        return Ok(Some(Reply::TooMany));
    }
    Ok(None)
}

/// Takes a snapshot under the label. Room for it is there before it is registered.
pub fn snap<D: Disk + Drop, R: Wait>(
    store: &Shared<D>,
    rt: &R,
    alloc: Global,
    seat: &mut Seat<D>,
    held: &mut Holdings,
    label: &Name,
) -> Result<Reply, AllocError>
    requires { Holds store.now seat.old held.old }
    ensures holds { Holds store.now seat.new held.new }
    ensures answered { IfOk result (IsAnswered store.now seat.old seat.new (client_of held.old) (client_of held.new) (Snap label.now)) }
    ensures published { IfOk result (NamesSeen store.now seat.old seat.new (Snap label.now)) }
    ensures err { OnErr result (BreaksOff seat.old seat.new (client_of held.old) (Snap label.now)) }
    ensures kept { OnErr result (held.new ≡ held.old) }
{
    if let Some(reply) = refused(alloc, held, label)? {
        return Ok(reply);
    }
    let label = label.copy(alloc)?;
    held.snapshots.reserve(1)?;
    let snapshot = wp_read::snapshot(store, rt, seat)?;
    let number = snapshot.number();
    held.snapshots
        .push_reserved(HeldSnapshot { label, snapshot });
    Ok(Reply::Snapped(number))
}

/// Releases the snapshot of the label.
pub fn free<D: Disk + Drop, R: Wait>(
    store: &Shared<D>,
    rt: &R,
    alloc: Global,
    seat: &mut Seat<D>,
    held: &mut Holdings,
    label: &Name,
) -> Result<Reply, AllocError>
    requires { Holds store.now seat.old held.old }
    ensures holds { Holds store.now seat.new held.new }
    ensures answered { IfOk result (IsAnswered store.now seat.old seat.new (client_of held.old) (client_of held.new) (Free label.now)) }
    ensures err { OnErr result (BreaksOff seat.old seat.new (client_of held.old) (Free label.now)) }
    ensures kept { OnErr result (held.new ≡ held.old) }
{
    let Some(i) = held.place_of(label) else {
        return Ok(Reply::UnknownSnapshot(label.copy(alloc)?));
    };
    let HeldSnapshot {
        label: _label,
        snapshot,
    } = held.snapshots.remove(i);
    wp_read::release(store, rt, seat, snapshot);
    Ok(Reply::Freed)
}
