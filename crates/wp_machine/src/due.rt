ghost use Rattle.std.specs.Prelude.{◌≡◌, IfOk};
ghost use Rattle.wp_core.specs.Sound.Pasts.{due_after, tables_due};

use crate::store::InstalledEdit;
use crate::views::{Event, Found};
use std::alloc::AllocError;

/// The tables that are there at least once this is remembered, for one who knew of so many.
fn due_after(due: u64, event: &Event) -> Result<u64, AllocError>
    ensures { IfOk result (λ more. more ≡ due_after due event.now) }
{
    match &event.what {
        Found::Compacted(_, tables) => Ok(*tables),
        Found::Flushed(_) => due.checked_add(1).ok_or(AllocError),
        Found::Claimed(_)
        | Found::Took(_)
        | Found::Locked(_, _)
        | Found::Told(_, _)
        | Found::Heard(_, _)
        | Found::Renewed(_)
        | Found::LogFailed(_)
        | Found::LogStopped
        | Found::TablesFailed(_, _)
        | Found::Stopped(_)
        | Found::Base(_, _)
        | Found::Edit(_, _, _, _, _)
        | Found::Holder(_, _, _, _) => Ok(due),
    }
}

/// The tables that one with this past knows of, where the first edit is this one.
pub(crate) fn tables_due(first: &InstalledEdit, past: &[Event]) -> Result<u64, AllocError>
    ensures { IfOk result (λ due. due ≡ tables_due first.now past.now) }
{
    let mut due = first.tables;
    for event in past {
        due = due_after(due, event)?;
    }
    Ok(due)
}
