//! The names and the keys of the prepares that a history leaves undecided.
ghost use Rattle.std.specs.Prelude.{◌≡◌, ◌++◌, map, IfOk, OnOk};
ghost use Rattle.std.specs.Option.{option_map};
ghost use Rattle.wp_model.specs.Batch.{key_of};
ghost use Rattle.wp_model.specs.declared.holder.Holder.TheVariants.{Txn};
ghost use Rattle.wp_history_laws.proofs.Opened.{name_left, keys_left, names_of, keys_of};

use std::alloc::{AllocError, Global};
use wp_history::History;
use wp_model::{Batch, Change, Holder, Key, Name};

/// The name of a prepare, had by nobody.
fn push_name(
    names: &mut Vec<(Name, Option<Name>)>,
    found: Option<(&Name, &Batch)>,
    alloc: Global,
) -> Result<(), AllocError>
    ensures { OnOk result (names.new.items ≡ names.old.items ++ name_left (option_map (λ t. (t.0.now, t.1.now)) found.entry)) }
{
    if let Some((name, _)) = found {
        names.push((name.copy(alloc)?, None))?;
    }
    Ok(())
}

/// The keys of the changes, held by the transaction.
fn push_held(
    keys: &mut Vec<(Key, Holder)>,
    name: &Name,
    changes: &[Change],
    alloc: Global,
) -> Result<(), AllocError>
    ensures { OnOk result (keys.new.items ≡ keys.old.items ++ map (λ change. (key_of change, Txn name.now)) changes.now) }
{
    for change in changes {
        keys.push((change.key().copy(alloc)?, Holder::Txn(name.copy(alloc)?)))?;
    }
    Ok(())
}

fn push_keys(
    keys: &mut Vec<(Key, Holder)>,
    found: Option<(&Name, &Batch)>,
    alloc: Global,
) -> Result<(), AllocError>
    ensures { OnOk result (keys.new.items ≡ keys.old.items ++ keys_left (option_map (λ t. (t.0.now, t.1.now)) found.entry)) }
{
    match found {
        Some((name, batch)) => push_held(keys, name, batch.changes(), alloc),
        None => Ok(()),
    }
}

/// The names of the undecided prepares, had by nobody.
pub(crate) fn names_left(
    history: &History,
    alloc: Global,
) -> Result<Vec<(Name, Option<Name>)>, AllocError>
    ensures { IfOk result (λ names. names.items ≡ names_of history.now.entries) }
{
    let mut names = Vec::new(alloc);
    for p in history.undecided() {
        push_name(&mut names, history.prepare_at(*p), alloc)?;
    }
    Ok(names)
}

/// The keys of the undecided prepares, each held by its transaction.
pub(crate) fn keys_left(history: &History, alloc: Global) -> Result<Vec<(Key, Holder)>, AllocError>
    ensures { IfOk result (λ keys. keys.items ≡ keys_of history.now.entries) }
{
    let mut keys = Vec::new(alloc);
    for p in history.undecided() {
        push_keys(&mut keys, history.prepare_at(*p), alloc)?;
    }
    Ok(keys)
}
