//! The history that stands for what a log spells and for the versions of tables.
ghost use Rattle.std.specs.Prelude.{◌≡◌, ◌⊎◌, List, not, map, IfOk, IfErr, OnOk};
ghost use Rattle.std.specs.Arc.{arc_value};
ghost use Rattle.std.specs.List.{list_all};
ghost use Rattle.wp_model.specs.declared.carried.Carried.{Carried};
ghost use Rattle.wp_model.specs.Versions.{AreInOrder};
ghost use Rattle.wp_cuts.specs.Cut.{base_value};
ghost use Rattle.wp_cuts.specs.LegalCut.{AreBelow, AreNumbered, prepares_of};
ghost use Rattle.wp_history.specs.History.{HasBaseValues, IsStore, Leaves};
ghost use Rattle.wp_history.specs.Holders.{Holds};
ghost use Rattle.wp_history.specs.Outline.{cut_in};
ghost use Rattle.wp_cover.specs.Sources.{is_fixed};
ghost use Rattle.wp_contents.specs.Opens.{all_in, history_over};
ghost use Rattle.wp_open.specs.Standing.{IsOverCause, fits, is_under};
ghost use Rattle.wp_refused.specs.Tables.{IsHistoryCause};

use std::alloc::{AllocError, Global};
use std::collections::{BTreeMap, VecDeque};
use std::snapshot::Snapshot;
use std::sync::Arc;
use wp_history::{History, Holders, Outline};
use wp_merge::merged_lists_are_sorted;
use wp_model::{Key, Seq, Value, Version, Versions};
use wp_refused::{Bad, OpenError};
use wp_store::merged_tables;
use wp_table::Table;

/// Whether the number is one up to the base that is no carried prepare's.
fn is_fixed(outline: &Outline, p: Seq) -> bool
    ensures { result ≡ is_fixed outline.now p }
{
    1 <= p && p <= outline.base() && outline.prepare_at(p).is_none()
}

/// The tables once more, in a queue.
fn share(alloc: Global, tables: &[Arc<Table>]) -> Result<VecDeque<Arc<Table>>, AllocError>
    ensures { IfOk result (λ shared. map arc_value shared.items ≡ map arc_value tables.now) }
{
    let mut shared = Vec::with_capacity(alloc, tables.len())?;
    for table in tables {
        shared.push(Arc::clone(table)?)?;
    }
    Ok(VecDeque::from_vec(shared))
}

/// All versions of the tables in order, where there is a base. Without one nothing stands below it, and none are copied.
fn versions_below(
    alloc: Global,
    outline: &Outline,
    tables: &[Arc<Table>],
) -> Result<Versions, AllocError>
    ensures either { IfOk result (λ versions. (versions ≡ all_in (map arc_value tables.now)) ⊎ (outline.now.base ≡ 0)) }
    ensures numbered { AreNumbered (cut_in outline.now) }
{
    merged_lists_are_sorted();
    if outline.base() == 0 {
        return Ok(Versions::of(Vec::new(alloc)));
    }
    let shared = share(alloc, tables)?;
    merged_tables(alloc, &shared)
}

/// Whether the version is below the carried prepare that has its key, if one has.
fn is_under(holders: &Holders, version: &Version) -> bool
    ensures { (carried : List Carried) → Holds carried holders.now → result ≡ list_all (is_under version.now) carried }
{
    match holders.holder_of(&version.key) {
        Some(number) => version.number < number,
        None => true,
    }
}

/// Whether the version's number is not fixed, or it is below each carried prepare that has its key.
fn fits(outline: &Outline, holders: &Holders, version: &Version) -> bool
    requires { Holds (cut_in outline.now).carried holders.now }
    ensures { result ≡ fits outline.now version.now }
{
    !is_fixed(outline, version.number) || is_under(holders, version)
}

/// Whether none of the versions has a fixed number.
fn none_fixed(outline: &Outline, versions: &[Version]) -> bool
    ensures { result ≡ list_all (λ v. not (is_fixed outline.now v.number)) versions.now }
{
    versions
        .iter()
        .all(|version| !is_fixed(outline, version.number))
}

/// Whether each of the versions fits.
fn all_fit(outline: &Outline, holders: &Holders, versions: &[Version]) -> bool
    requires { Holds (cut_in outline.now).carried holders.now }
    ensures { result ≡ list_all (fits outline.now) versions.now }
{
    versions
        .iter()
        .all(|version| fits(outline, holders, version))
}

/// Whether each version with a fixed number is below each carried prepare that has its key. Where none has such a number, nobody is asked
/// who has the keys.
fn are_below(alloc: Global, outline: &Outline, versions: &Versions) -> Result<bool, AllocError>
    ensures value { IfOk result (λ below. below ≡ list_all (fits outline.now) versions.now) }
    ensures in_order { AreInOrder versions.now }
{
    let versions = versions.as_slice();
    if none_fixed(outline, versions) {
        return Ok(true);
    }
    let holders = outline.carried_holders(alloc)?;
    Ok(all_fit(outline, &holders, versions))
}

/// Leaves under the version's key what it has, or nothing where it is a deletion.
fn leave(store: &mut BTreeMap<Key, Value>, version: Version) -> Result<(), AllocError>
    ensures { OnOk result (Leaves version.key version.value store.old store.new) }
{
    let Version {
        key,
        value,
        number: _number,
    } = version;
    let Some(value) = value else {
        store.remove(&key);
        return Ok(());
    };
    store.insert(key, value)?;
    Ok(())
}

/// What a store had at the base by its versions: under each key what the newest fixed one has. The last one is taken first, so
/// that of one key the newest stays.
fn base_store(
    alloc: Global,
    outline: &Outline,
    versions: Versions,
) -> Result<BTreeMap<Key, Value>, AllocError>
    requires full { outline.now.entries ≡ prepares_of (cut_in outline.now) }
    requires numbered { AreNumbered (cut_in outline.now) }
    ensures { IfOk result (IsStore (base_value (cut_in outline.now) versions)) }
{
    let mut store = BTreeMap::new(alloc);
    let mut rest = versions.into_vec();
    while let Some(version) = rest.pop() {
        if is_fixed(outline, version.number) {
            leave(&mut store, version)?;
        }
    }
    Ok(store)
}

/// What is wrong where a version of a carried prepare's key is not below it: an undo, if one is, comes before that.
fn not_below(outline: &Outline, store: &BTreeMap<Key, Value>) -> Bad
    requires { HasBaseValues outline.now store.now }
    ensures { IsOverCause outline.now result }
{
    match outline.first_wrong(store) {
        Some(number) => Bad::Illegal { number },
        None => Bad::Uncovered,
    }
}

/// The history that stands for what a log tells and for these tables, the newest first. Each of its undos is judged by what the tables had
/// at the base.
pub(crate) fn history_of(
    alloc: Global,
    outline: Outline,
    tables: &[Arc<Table>],
) -> Result<History, OpenError>
    requires { outline.entries ≡ prepares_of (cut_in outline) }
    ensures base { IfOk result (λ history. history.base ≡ outline.base) }
    ensures cut { IfOk result (λ history. cut_in history ≡ cut_in outline) }
    ensures full { IfOk result (λ history. history.entries ≡ history_over (cut_in outline) (map arc_value tables.now)) }
    ensures below { IfOk result (λ _. AreBelow (cut_in outline) (all_in (map arc_value tables.now))) }
    ensures cause { IfErr result (IsHistoryCause (cut_in outline) (map arc_value tables.now)) }
{
    let versions = versions_below(alloc, &outline, tables)?;
    let shown = Snapshot::of(&versions);
    let below = are_below(alloc, &outline, &versions)?;
    let store = base_store(alloc, &outline, versions)?;
    if !below {
        let outline = outline.with_versions(shown);
        return Err(OpenError::Contents(not_below(&outline, &store)));
    }
    match History::from_outline(outline, store, shown) {
        Ok(history) => Ok(history),
        Err(number) => Err(OpenError::Contents(Bad::Illegal { number })),
    }
}
