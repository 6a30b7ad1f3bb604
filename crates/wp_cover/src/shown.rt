//! What versions show a reader at a number, as a map.
ghost use Rattle.std.specs.Prelude.{◌≡◌, ◌↔◌, ◌≤◌, ℕ, List, [], ◌∷◌, true, None, map, IfOk, OnOk};
ghost use Rattle.std.specs.Arc.{arc_value};
ghost use Rattle.wp_model.specs.Covered.{GivesStore};
ghost use Rattle.wp_model.specs.Flushed.{later_versions, versions_under};
ghost use Rattle.wp_table.specs.Borrowed.{seen};
ghost use Rattle.wp_merge.specs.Merge.{joined};
ghost use Rattle.wp_cover.specs.Sources.{all_of};
ghost use Rattle.wp_cover.specs.Store.{under};
ghost use Rattle.wp_cover.specs.Shown.{is_above, newest_from, IsNewest, Notes};

use crate::decisions::Decisions;
use crate::sources::{Sources, bytes_of};
use crate::store::{leave, store_at};
use std::alloc::{AllocError, Global};
use std::collections::BTreeMap;
use std::sync::Arc;
use wp_history::History;
use wp_model::{Change, Seq, Versions};
use wp_table::{Table, VersionRef};

/// Of each key the newest version so far that is committed.
#[derive(Drop)]
struct Newest<'a> {
    /// Its number.
    numbers: BTreeMap<&'a [u8], Seq>,
    /// Its value, if it is no deletion.
    values: BTreeMap<&'a [u8], &'a [u8]>,
}

/// Whether the number is above the one that is noted under the key.
fn is_above<'a>(numbers: &BTreeMap<&'a [u8], Seq>, key: &'a [u8], number: Seq) -> bool
    ensures { result ≡ is_above (under numbers.now key.now) number }
{
    match numbers.get(key) {
        Some(found) => *found < number,
        None => true,
    }
}

/// Notes the version, if it is committed at `n` and newer than the one of its key that is noted.
fn note<'a>(
    newest: &mut Newest<'a>,
    decisions: &Decisions<'_>,
    version: VersionRef<'a>,
    n: Seq,
) -> Result<(), AllocError>
    ensures { OnOk result (Notes decisions.now n (seen version.entry ∷ []) newest.old newest.new) }
{
    if !decisions.is_committed(version.number, n) {
        return Ok(());
    }
    if !is_above(&newest.numbers, version.key, version.number) {
        return Ok(());
    }
    newest.numbers.insert(version.key, version.number)?;
    leave(&mut newest.values, version.key, version.value)
}

fn note_list<'a>(
    newest: &mut Newest<'a>,
    decisions: &Decisions<'_>,
    versions: &'a Versions,
    n: Seq,
) -> Result<(), AllocError>
    ensures { OnOk result (Notes decisions.now n versions.now newest.old newest.new) }
{
    for version in versions.as_slice() {
        note(newest, decisions, VersionRef::of(version), n)?;
    }
    Ok(())
}

fn note_table<'a>(
    newest: &mut Newest<'a>,
    decisions: &Decisions<'_>,
    table: &'a Table,
    n: Seq,
) -> Result<(), AllocError>
    ensures { OnOk result (Notes decisions.now n table.now newest.old newest.new) }
{
    for version in table.all() {
        note(newest, decisions, version, n)?;
    }
    Ok(())
}

fn note_tables<'a>(
    newest: &mut Newest<'a>,
    decisions: &Decisions<'_>,
    tables: &'a [Arc<Table>],
    n: Seq,
) -> Result<(), AllocError>
    ensures { OnOk result (Notes decisions.now n (joined (map arc_value tables.now)) newest.old newest.new) }
{
    for table in tables {
        note_table(newest, decisions, table, n)?;
    }
    Ok(())
}

/// Notes the versions of these changes, which the entry with that number makes.
fn note_changes<'a>(
    newest: &mut Newest<'a>,
    decisions: &Decisions<'_>,
    number: Seq,
    changes: &'a [Change],
    n: Seq,
) -> Result<(), AllocError>
    ensures { OnOk result (Notes decisions.now n (versions_under number changes.now) newest.old newest.new) }
{
    for change in changes {
        let version = VersionRef {
            key: change.key().bytes(),
            number,
            value: bytes_of(change.value()),
        };
        note(newest, decisions, version, n)?;
    }
    Ok(())
}

/// Notes the versions of the entries above the flushed number.
fn note_later<'a>(
    newest: &mut Newest<'a>,
    decisions: &Decisions<'_>,
    history: &'a History,
    flushed: Seq,
    n: Seq,
) -> Result<(), AllocError>
    requires { history.now.base ≤ flushed }
    ensures { OnOk result (Notes decisions.now n (later_versions history.now.entries flushed) newest.old newest.new) }
{
    let later = history.later();
    let base = history.base();
    for i in flushed..history.published() {
        let entry = &later[(i - base) as usize];
        note_changes(newest, decisions, i + 1, entry.changes(), n)?;
    }
    Ok(())
}

/// Of each key the newest version that is committed at `n`.
fn newest_at<'a>(
    alloc: Global,
    decisions: &Decisions<'_>,
    sources: &Sources<'a>,
    n: Seq,
) -> Result<Newest<'a>, AllocError>
    requires { sources.now.history.now.base ≤ sources.now.flushed }
    ensures { IfOk result (IsNewest (λ key. newest_from decisions.now n key None (all_of sources.now))) }
{
    let mut newest = Newest {
        numbers: BTreeMap::new(alloc),
        values: BTreeMap::new(alloc),
    };
    note_list(&mut newest, decisions, sources.list, n)?;
    note_tables(&mut newest, decisions, sources.tables, n)?;
    note_later(&mut newest, decisions, sources.history, sources.flushed, n)?;
    Ok(newest)
}

/// Whether a reader at `n` finds what the store has.
pub(crate) fn gives_store<'a>(
    alloc: Global,
    decisions: &'a Decisions<'_>,
    sources: &Sources<'a>,
    n: Seq,
) -> Result<bool, AllocError>
    requires from { sources.now.history.now.base ≤ n }
    requires flushed { sources.now.history.now.base ≤ sources.now.flushed }
    requires same { sources.now.history.now.entries ≡ decisions.now }
    ensures { IfOk result (λ yes. (yes ≡ true) ↔ ((key : List ℕ) → GivesStore (all_of sources.now) decisions.now key n)) }
{
    let store = store_at(alloc, sources.history, n)?;
    let newest = newest_at(alloc, decisions, sources, n)?;
    Ok(store == newest.values)
}
