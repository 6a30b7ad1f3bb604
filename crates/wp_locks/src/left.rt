//! The names and the keys of the prepares that a history leaves undecided.
//!
//! They are taken from the last to the first: of two under one name or key the first is to stay.
ghost use Rattle.std.specs.Prelude.{◌≡◌, ◌∷◌, [], None, map, IfOk, OnOk};
ghost use Rattle.std.specs.Option.{option_map};
ghost use Rattle.std.specs.FinMap.{from_entries};
ghost use Rattle.wp_model.specs.Batch.{key_cmp, key_of};
ghost use Rattle.wp_model.specs.declared.holder.Holder.TheVariants.{Txn};
ghost use Rattle.wp_history_laws.proofs.Opened.{name_left, keys_left, names_of, keys_of};
ghost use Rattle.wp_locks.specs.Locks.{Joins};

use std::alloc::{AllocError, Global};
use std::collections::BTreeMap;
use wp_history::History;
use wp_model::{Batch, Change, Holder, Key, Name};

/// The name, had by nobody.
fn add_left(
    names: &mut BTreeMap<Name, Option<Name>>,
    name: &Name,
    alloc: Global,
) -> Result<(), AllocError>
    ensures { OnOk result (Joins ((name.now, None) ∷ []) names.old names.new) }
{
    names.insert(name.copy(alloc)?, None)?;
    Ok(())
}

fn add_name(
    names: &mut BTreeMap<Name, Option<Name>>,
    found: Option<(&Name, &Batch)>,
    alloc: Global,
) -> Result<(), AllocError>
    ensures { OnOk result (Joins (name_left (option_map (λ t. (t.0.now, t.1.now)) found.entry)) names.old names.new) }
{
    match found {
        Some((name, _)) => add_left(names, name, alloc),
        None => Ok(()),
    }
}

/// The keys of the changes, held by the transaction.
fn add_held(
    keys: &mut BTreeMap<Key, Holder>,
    name: &Name,
    changes: &[Change],
    alloc: Global,
) -> Result<(), AllocError>
    ensures { OnOk result (Joins (map (λ change. (key_of change, Txn name.now)) changes.now) keys.old keys.new) }
{
    let mut left = changes;
    while let Some((change, before)) = left.split_last() {
        keys.insert(change.key().copy(alloc)?, Holder::Txn(name.copy(alloc)?))?;
        left = before;
    }
    Ok(())
}

fn add_keys(
    keys: &mut BTreeMap<Key, Holder>,
    found: Option<(&Name, &Batch)>,
    alloc: Global,
) -> Result<(), AllocError>
    ensures { OnOk result (Joins (keys_left (option_map (λ t. (t.0.now, t.1.now)) found.entry)) keys.old keys.new) }
{
    match found {
        Some((name, batch)) => add_held(keys, name, batch.changes(), alloc),
        None => Ok(()),
    }
}

/// The names of the undecided prepares, had by nobody.
pub fn names_of(
    history: &History,
    alloc: Global,
) -> Result<BTreeMap<Name, Option<Name>>, AllocError>
    ensures { IfOk result (λ names. from_entries {R = key_cmp} names.entries ≡ from_entries (names_of history.now.entries)) }
{
    let mut names = BTreeMap::new(alloc);
    let mut left = history.undecided();
    while let Some((p, before)) = left.split_last() {
        add_name(&mut names, history.prepare_at(*p), alloc)?;
        left = before;
    }
    Ok(names)
}

/// The keys of the undecided prepares, each held by its transaction.
pub fn keys_of(history: &History, alloc: Global) -> Result<BTreeMap<Key, Holder>, AllocError>
    ensures { IfOk result (λ keys. from_entries {R = key_cmp} keys.entries ≡ from_entries (keys_of history.now.entries)) }
{
    let mut keys = BTreeMap::new(alloc);
    let mut left = history.undecided();
    while let Some((p, before)) = left.split_last() {
        add_keys(&mut keys, history.prepare_at(*p), alloc)?;
        left = before;
    }
    Ok(keys)
}
