//! The history of a world as a value that can be asked, and the entries that may follow it.
ghost use Rattle.std.specs.Prelude.{◌≡◌, true, [], ◌∷◌, ◌++◌, IfOk, IfSome};
ghost use Rattle.wp_machine_permits.specs.Permits.{MayFollow};

use crate::needs;
use std::alloc::{AllocError, Global};
use wp_history::History;
use wp_history_laws::laws::legal_grows;
use wp_machine::World;
use wp_model::Entry;

/// The greatest number of an entry: 2^56 - 1.
const MOST_ENTRIES: u64 = 72057594037927935;

/// Whether the entry may follow those of the history, and leaves them few enough.
pub(super) fn may_follow(history: &History, entry: &Entry) -> bool
    ensures { result ≡ true → MayFollow history.now.entries entry.now }
{
    legal_grows();
    history.published() < MOST_ENTRIES && history.is_legal_next(entry)
}

/// Adds the entry, where it may follow.
fn add(history: &mut History, entry: &Entry, alloc: Global) -> Result<bool, AllocError>
    ensures { IfOk result (λ follows. follows ≡ true → history.new.entries ≡ history.old.entries ++ entry.now ∷ []) }
{
    if !may_follow(history, entry) {
        return Ok(false);
    }
    let copy = entry.copy(alloc)?;
    history.reserve(1)?;
    history.push(copy);
    Ok(true)
}

/// Adds the entries, where each may follow those before it.
pub(super) fn add_all(
    history: &mut History,
    entries: &[Entry],
    alloc: Global,
) -> Result<bool, AllocError>
    ensures { IfOk result (λ follow. follow ≡ true → history.new.entries ≡ history.old.entries ++ entries.now) }
{
    for entry in entries {
        if !add(history, entry, alloc)? {
            return Ok(false);
        }
    }
    Ok(true)
}

/// The history of the world, if it is legal.
pub(super) fn history_of(world: &World) -> Result<Option<History>, AllocError>
    ensures { IfOk result (λ history. IfSome history (λ h. h.entries ≡ world.now.writes.history)) }
{
    needs::history_of(world.writes.entries(), world.alloc)
}
