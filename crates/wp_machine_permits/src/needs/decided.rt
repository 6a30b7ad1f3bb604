//! Which number decides a version.
ghost use Rattle.std.specs.Prelude.{◌≡◌, ◌<◌, ℕ, true, length, Some, IfOk, IfSome};
ghost use Rattle.std.specs.List.{position};
ghost use Rattle.wp_model.specs.History.{decides};
ghost use Rattle.wp_model.specs.Decision.{decision_of};

use crate::needs::read::history_of;
use std::alloc::{AllocError, Global};
use wp_history::History;
use wp_model::{Entry, Seq};

/// The place of the Commit or the Close of the prepare.
fn place_of_decider(entries: &[Entry], p: Seq) -> Option<usize>
    ensures place { result ≡ position (decides p) entries.now }
    ensures within { IfSome result (λ place. place < length entries.now) }
{
    entries.iter().position(|entry| match entry {
        Entry::Commit(q) | Entry::Close(q) => *q == p,
        Entry::Write(_) | Entry::Prepare(_, _) | Entry::Undo(_, _) => false,
    })
}

/// The number that decides the version with that number, if one does.
pub(crate) fn decision_of(history: &History, p: Seq) -> Option<Seq>
    requires { history.now.base ≡ 0 }
    ensures { result ≡ decision_of history.now.entries p }
{
    match history.entry_at(p)? {
        Entry::Write(_) | Entry::Undo(_, _) => Some(p),
        Entry::Prepare(_, _) => {
            let before = place_of_decider(history.later(), p)?;
            Some(before as u64 + 1)
        }
        Entry::Commit(_) | Entry::Close(_) => None,
    }
}

/// The number that decides the version among the entries, if they are legal.
pub(crate) fn decision_in(
    entries: &[Entry],
    p: Seq,
    alloc: Global,
) -> Result<Option<Seq>, AllocError>
    ensures { IfOk result (λ decision. IfSome decision (λ c. decision_of entries.now p ≡ Some c)) }
{
    let Some(history) = history_of(entries, alloc)? else {
        return Ok(None);
    };
    Ok(decision_of(&history, p))
}

/// Whether the entries are legal, and decide the version.
pub(crate) fn is_decided(entries: &[Entry], p: Seq, alloc: Global) -> Result<bool, AllocError>
    ensures { IfOk result (λ decided. decided ≡ true → (c : ℕ) × (decision_of entries.now p ≡ Some c)) }
{
    let decision = decision_in(entries, p, alloc)?;
    Ok(decision.is_some())
}
