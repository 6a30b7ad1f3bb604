//! The history of a world, as one that answers questions.
ghost use Rattle.std.specs.Prelude.{◌≡◌, IfOk, IfSome};

use std::alloc::{AllocError, Global};
use wp_history::History;
use wp_model::Entry;

/// 2^56: a legal history has fewer entries.
const FEW: u64 = 72057594037927936;

/// The entries as a history. None where they are not legal.
pub(crate) fn history_of(entries: &[Entry], alloc: Global) -> Result<Option<History>, AllocError>
    ensures base { IfOk result (λ read. IfSome read (λ history. history.base ≡ 0)) }
    ensures entries { IfOk result (λ read. IfSome read (λ history. history.entries ≡ entries.now)) }
{
    let mut history = History::new(alloc);
    for entry in entries {
        if history.published() + 1 >= FEW || !history.is_legal_next(entry) {
            return Ok(None);
        }
        let entry = entry.copy(alloc)?;
        history.reserve(1)?;
        history.push(entry);
    }
    Ok(Some(history))
}
