//! What the first entries of a history leave in the store, as a map.
ghost use Rattle.std.specs.Prelude.{◌≡◌, ◌≤◌, ℕ, List, IfOk, OnOk};
ghost use Rattle.std.specs.Option.{option_copied};
ghost use Rattle.wp_model.specs.History.{changes_of, value_at};
ghost use Rattle.wp_cover.specs.Store.{IsStore, Leaves, LeavesChanges};

use crate::sources::bytes_of;
use std::alloc::{AllocError, Global};
use std::collections::BTreeMap;
use wp_history::History;
use wp_model::{Change, Entry, Seq};

/// Leaves the value under the key, or nothing where there is none. Both are borrowed.
pub(crate) fn leave<'a>(
    store: &mut BTreeMap<&'a [u8], &'a [u8]>,
    key: &'a [u8],
    value: Option<&'a [u8]>,
) -> Result<(), AllocError>
    ensures { OnOk result (Leaves key.now (option_copied value.entry) store.old store.new) }
{
    let Some(value) = value else {
        store.remove(key);
        return Ok(());
    };
    store.insert(key, value)?;
    Ok(())
}

/// Of two changes of a key the earlier one counts, so the last one goes first.
fn leave_changes<'a>(
    store: &mut BTreeMap<&'a [u8], &'a [u8]>,
    changes: &'a [Change],
) -> Result<(), AllocError>
    ensures { OnOk result (LeavesChanges changes.now store.old store.new) }
{
    let mut i = changes.len();
    while i > 0 {
        i -= 1;
        let change = &changes[i];
        leave(store, change.key().bytes(), bytes_of(change.value()))?;
    }
    Ok(())
}

/// The changes that an entry of the history makes to the store.
fn changes_of<'a>(history: &'a History, entry: &'a Entry) -> &'a [Change]
    ensures { result.now ≡ changes_of history.now.entries entry.now }
{
    match entry {
        Entry::Write(batch) => batch.changes(),
        Entry::Commit(p) => match history.prepare_at(*p) {
            Some((_, batch)) => batch.changes(),
            None => &[],
        },
        Entry::Prepare(_, _) | Entry::Undo(_, _) | Entry::Close(_) => &[],
    }
}

/// What the history had at its base.
fn base_store<'a>(
    alloc: Global,
    history: &'a History,
) -> Result<BTreeMap<&'a [u8], &'a [u8]>, AllocError>
    ensures { IfOk result (IsStore (λ key. value_at history.now.entries key history.now.base)) }
{
    let mut store = BTreeMap::new(alloc);
    for (key, value) in history.store() {
        leave(&mut store, key.bytes(), Some(value.bytes()))?;
    }
    Ok(store)
}

/// What the first `n` entries leave, from the base on.
pub(crate) fn store_at<'a>(
    alloc: Global,
    history: &'a History,
    n: Seq,
) -> Result<BTreeMap<&'a [u8], &'a [u8]>, AllocError>
    requires { history.now.base ≤ n }
    ensures { IfOk result (IsStore (λ key. value_at history.now.entries key n)) }
{
    let mut store = base_store(alloc, history)?;
    let last = n.min(history.published());
    let first = &history.later()[..(last - history.base()) as usize];
    for entry in first {
        leave_changes(&mut store, changes_of(history, entry))?;
    }
    Ok(store)
}
