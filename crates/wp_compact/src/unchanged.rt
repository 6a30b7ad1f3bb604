//! Whether the tables are still those that were decided.
ghost use Rattle.std.specs.Prelude.{◌≡◌, ◌⊎◌, ◌↔◌, true, false, [], ◌∷◌, map, IfOk, IfSome, MatchOption};
ghost use Rattle.std.specs.Arc.{arc_value};
ghost use Rattle.wp_merge.specs.Merge.{joined, sorted_of};
ghost use Rattle.wp_core.specs.Sound.Actors.{StartsWith};
ghost use Rattle.wp_core.specs.States.{installed};
ghost use Rattle.wp_core.specs.States as state;
ghost use Rattle.wp_parts.specs.Stock.{store_state};
ghost use Rattle.wp_rule.specs.Knows.{KnowsTables};
ghost use Rattle.wp_shared.specs.Notes.{no_fact, seeing, GoesOn};
ghost use Rattle.wp_shared.specs.Turns.{HoldsTurn};
ghost use Rattle.wp_maint.specs.Calls.{Finds};
ghost use Rattle.wp_compact.specs.Compaction.{AreLow, HasDecided, IsOpenedBase, IsOvertaken, IsPassedOr, KnowsLive, MayMerge};
ghost use Rattle.wp_maint.specs.Holding.{HoldsEdits};

use crate::decided::{Bases, Decided};
use std::alloc::{AllocError, Global};
use std::collections::VecDeque;
use std::sync::{Arc, Wait};
use wp_model::{Seq, Version, Versions};
use wp_outside::Disk;
use wp_read::Pinned;
use wp_shared::{Seat, Shared, Stock, VersionSet};
use wp_store::merged_tables;
use wp_table::Table;

fn is_equal(version: &Version, other: &Version) -> bool
    ensures { (result ≡ true) ↔ (version.now ≡ other.now) }
{
    version.key == other.key && version.number == other.number && version.value == other.value
}

/// Whether both are the same list.
fn are_equal(versions: &[Version], others: &[Version]) -> bool
    ensures { (result ≡ true) ↔ (versions.now ≡ others.now) }
{
    if versions.len() != others.len() {
        return false;
    }
    for i in 0..versions.len() {
        if !is_equal(&versions[i], &others[i]) {
            return false;
        }
    }
    true
}

/// Whether the log's base is the one that was decided at, or the floor.
fn is_based(base: Seq, bases: Bases, floor: Seq) -> bool
    ensures { (result ≡ true) ↔ ((base ≡ bases.installed) ⊎ (base ≡ floor)) }
{
    base == bases.installed || base == floor
}

/// The tables, the newest first, where none has a version above the floor, the store gave up nothing above it, and the log's base is the
/// one that was decided at, or the floor, under the store turn.
fn tables_in<D: Disk + Drop>(
    store: &Shared<D>,
    seat: &mut Seat<D>,
    edits: &VersionSet<D>,
    stock: &Stock,
    pinned: &Pinned,
    bases: Bases,
) -> Result<Option<Vec<Arc<Table>>>, AllocError>
    requires holds { HoldsTurn store.now seat.old (state.store (store_state stock.now)) (installed edits.now.state ∷ []) (5 ∷ []) }
    requires in_step { KnowsTables seat.old.knows edits.now.state.last }
    requires live { KnowsLive seat.old.knows pinned.now.floor.number pinned.now.live.items }
    requires bases { AreLow seat.old.knows.participant.seen pinned.now.floor.number pinned.now.live.items bases × IsOpenedBase store.now bases.opened }
    ensures goes { GoesOn no_fact seat.old.knows.held seat.old.turns (seeing seat.new.knows.participant.seen seat.old) seat.new }
    ensures grown { StartsWith seat.new.knows.participant.seen seat.old.knows.participant.seen }
    ensures tables { IfOk result (λ found. MatchOption found (IsPassedOr store.now seat.old seat.new pinned.now.floor.number bases.installed edits.now.state) (λ tables. sorted_of (joined (map arc_value tables.items)) ≡ edits.now.state.last.versions)) }
    ensures may { IfOk result (λ found. IfSome found (λ _. MayMerge seat.new.knows edits.now.state pinned.now.floor.number pinned.now.live.items bases)) }
{
    let floor = pinned.floor.number();
    store.shows_history(seat);
    if edits.flushed() > floor {
        return Ok(None);
    }
    if stock.floor() > floor {
        return Ok(None);
    }
    if !is_based(edits.segment().base, bases, floor) {
        return Ok(None);
    }
    Ok(Some(stock.copy_tables()?))
}

/// The same, where the store turn is taken for it.
fn find_tables<D: Disk + Drop, R: Wait>(
    store: &Shared<D>,
    rt: &R,
    seat: &mut Seat<D>,
    edits: &VersionSet<D>,
    pinned: &Pinned,
    bases: Bases,
) -> Result<Option<Vec<Arc<Table>>>, AllocError>
    requires holds { HoldsEdits store.now seat.old edits.now }
    requires in_step { KnowsTables seat.old.knows edits.now.state.last }
    requires live { KnowsLive seat.old.knows pinned.now.floor.number pinned.now.live.items }
    requires bases { AreLow seat.old.knows.participant.seen pinned.now.floor.number pinned.now.live.items bases × IsOpenedBase store.now bases.opened }
    ensures goes { GoesOn no_fact (installed edits.now.state ∷ []) seat.old.turns (seeing seat.new.knows.participant.seen seat.old) seat.new }
    ensures grown { StartsWith seat.new.knows.participant.seen seat.old.knows.participant.seen }
    ensures found { Finds store.now seat.old seat.new edits.now.state }
    ensures tables { IfOk result (λ found. MatchOption found (IsPassedOr store.now seat.old seat.new pinned.now.floor.number bases.installed edits.now.state) (λ tables. sorted_of (joined (map arc_value tables.items)) ≡ edits.now.state.last.versions)) }
    ensures may { IfOk result (λ found. IfSome found (λ _. MayMerge seat.new.knows edits.now.state pinned.now.floor.number pinned.now.live.items bases)) }
{
    let stock = store.take_turn::<Stock, R>(rt, seat);
    let tables = tables_in(store, seat, edits, &stock, pinned, bases);
    store.give_turn::<Stock>(seat, stock);
    tables
}

/// Whether the tables have just these versions. It copies them, with no turn but the tables turn.
fn have_versions(
    alloc: Global,
    tables: Vec<Arc<Table>>,
    versions: &Versions,
) -> Result<bool, AllocError>
    ensures { IfOk result (λ same. (same ≡ true) ↔ (versions.now ≡ sorted_of (joined (map arc_value tables.items)))) }
{
    let found = merged_tables(alloc, &VecDeque::from_vec(tables))?;
    Ok(are_equal(found.as_slice(), versions.as_slice()))
}

/// Whether the tables are still those that were decided, with no version above the floor. If so, a compaction may install its edit.
pub(crate) fn are_unchanged<D: Disk + Drop, R: Wait>(
    store: &Shared<D>,
    rt: &R,
    alloc: Global,
    seat: &mut Seat<D>,
    edits: &VersionSet<D>,
    pinned: &Pinned,
    decided: &Decided,
) -> Result<bool, AllocError>
    requires holds { HoldsEdits store.now seat.old edits.now }
    requires in_step { KnowsTables seat.old.knows edits.now.state.last }
    requires decided { HasDecided seat.old.knows pinned.now.floor pinned.now.live.items decided.now.bases decided.now.versions decided.now.committed.items }
    requires opened { IsOpenedBase store.now decided.now.bases.opened }
    ensures goes { GoesOn no_fact (installed edits.now.state ∷ []) seat.old.turns (seeing seat.new.knows.participant.seen seat.old) seat.new }
    ensures grown { StartsWith seat.new.knows.participant.seen seat.old.knows.participant.seen }
    ensures found { Finds store.now seat.old seat.new edits.now.state }
    ensures same { IfOk result (λ same. same ≡ true → decided.now.versions ≡ edits.now.state.last.versions) }
    ensures may { IfOk result (λ same. same ≡ true → MayMerge seat.new.knows edits.now.state pinned.now.floor.number pinned.now.live.items decided.now.bases) }
    ensures overtaken { IfOk result (λ same. same ≡ false → IsOvertaken store.now seat.old seat.new pinned.now.floor.number decided.now.bases.installed decided.now.versions edits.now.state) }
{
    match find_tables(store, rt, seat, edits, pinned, decided.bases)? {
        Some(tables) => have_versions(alloc, tables, &decided.versions),
        None => Ok(false),
    }
}
