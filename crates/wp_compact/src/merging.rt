//! What is kept of the tables is merged to one.
ghost use Rattle.std.specs.Prelude.{◌≡◌, false, true, [], ◌∷◌, ◌++◌, map, take, IfOk, IfErr};
ghost use Rattle.std.specs.Arc.{arc_value};
ghost use Rattle.std.specs.List.{list_all};
ghost use Rattle.wp_merge.specs.Merge.{joined, sorted_of};
ghost use Rattle.wp_replies.specs.Tables.{listed, retained};
ghost use Rattle.wp_table.specs.Table.{is_numbered, is_flushed};
ghost use Rattle.wp_core.specs.States.{installed};
ghost use Rattle.wp_keep.specs.Keep.{is_committed, retained_of};
ghost use Rattle.wp_rule.specs.Knows.{KnowsTables};
ghost use Rattle.wp_shared.specs.Calls.{GoesOnAs};
ghost use Rattle.wp_shared.specs.Notes.{GoesOn};
ghost use Rattle.wp_read.specs.Registers.{numbers_of};
ghost use Rattle.wp_maint.specs.Calls.{UnlessFault};
ghost use Rattle.wp_compact.specs.Calls.{CompactsFrom, SeveralTables};
ghost use Rattle.wp_compact.specs.declared.decided.Bases.{Bases};
ghost use Rattle.wp_compact.specs.Compaction.{HasDecided, HasReadyMerge, IsOpenedBase, IsPin, MayMerge, MayPutKept};
ghost use Rattle.wp_compact.specs.Decided.{both_bases};
ghost use Rattle.wp_maint.specs.Holding.{is_of_tables, HoldsEdits};

use crate::decided::{Bases, Decided};
use crate::pins::numbers_of;
use crate::steps::replace_versions;
use std::alloc::{AllocError, Global};
use std::sync::{Arc, Wait};
use wp_keep::{Pair, keep};
use wp_maint::{Done, MaintError, install, with_first};
use wp_model::{Seq, Versions};
use wp_outside::{Disk, Failed};
use wp_read::Pinned;
use wp_shared::{ReadyInstall, Seat, Shared, Stock, VersionSet};
use wp_table::Table;
use wp_tableset::Gone;

/// What is kept, with all the memory that the install of an edit takes which puts it in place of all tables.
#[derive(Drop)]
pub(crate) struct ReadyMerge {
    pub kept: Versions,
    pub edit: ReadyInstall,
    /// No table, with room for one.
    pub tables: Vec<Arc<Table>>,
}

/// The versions that stay. Each of them is moved.
fn kept_of(
    alloc: Global,
    pinned: &Pinned,
    bases: Bases,
    versions: Versions,
    committed: &[Pair],
) -> Result<Versions, AllocError>
    ensures { IfOk result (λ kept. kept ≡ retained_of (is_committed committed.now) versions (numbers_of pinned.now.live.items ++ both_bases bases) pinned.now.floor.number) }
{
    let live = numbers_of(alloc, &pinned.live)?;
    keep(
        alloc,
        versions,
        committed,
        live,
        bases.opened,
        bases.installed,
        pinned.floor.number(),
    )
}

/// Takes all the memory of an edit with these versions in place of all tables.
fn make_ready<D: Disk>(
    alloc: Global,
    edits: &VersionSet<D>,
    kept: Versions,
) -> Result<ReadyMerge, AllocError>
    requires numbered { list_all is_numbered kept ≡ true }
    requires flushed { list_all (is_flushed edits.now.state.last.flushed) kept ≡ true }
    ensures kept { IfOk result (λ ready. ready.kept ≡ kept) }
    ensures ready { IfOk result (HasReadyMerge edits.now) }
{
    let tables = Vec::with_capacity(alloc, 1)?;
    let edit = edits.ready(Gone::Tables, &kept, edits.flushed())?;
    Ok(ReadyMerge { kept, edit, tables })
}

/// Puts these tables in place of all, where readers look.
fn put_tables<D: Disk + Drop, R: Wait>(
    store: &Shared<D>,
    rt: &R,
    seat: &mut Seat<D>,
    edits: &VersionSet<D>,
    tables: Vec<Arc<Table>>,
    floor: Seq,
)
    requires holds { HoldsEdits store.now seat.old edits.now }
    requires may { MayPutKept store.now seat.old.knows edits.now.state floor }
    requires tables { sorted_of (joined (map arc_value tables.items)) ≡ edits.now.state.last.versions }
    ensures goes { GoesOn is_of_tables (installed edits.now.state ∷ []) seat.old.turns seat.old seat.new }
    ensures in_step { KnowsTables seat.new.knows edits.now.state.last }
{
    let mut stock = store.take_turn::<Stock, R>(rt, seat);
    stock.replace(tables, floor);
    replace_versions(store, seat, edits, &stock);
    store.give_turn::<Stock>(seat, stock);
}

/// Installs the edit with what is kept, and puts its table in place of all, with the memory that was taken.
fn merge_ready<D: Disk + Drop, R: Wait>(
    store: &Shared<D>,
    rt: &R,
    seat: &mut Seat<D>,
    edits: &mut VersionSet<D>,
    pinned: &Pinned,
    ready: ReadyMerge,
) -> Result<Done, MaintError>
    requires holds { HoldsEdits store.now seat.old edits.old }
    requires running { edits.old.state.halted ≡ false }
    requires several { SeveralTables edits.old.state.last }
    requires may { (bases : Bases) × IsOpenedBase store.now bases.opened × MayMerge seat.old.knows edits.old.state pinned.now.floor.number pinned.now.live.items bases
        × (ready.kept ≡ retained (take pinned.now.floor.number seat.old.knows.participant.seen) (listed (numbers_of pinned.now.live.items) bases.opened edits.old.state.last) edits.old.state.last) }
    requires ready { HasReadyMerge edits.old ready }
    ensures holds { HoldsEdits store.now seat.new edits.new }
    ensures in_step { KnowsTables seat.new.knows edits.new.state.last }
    ensures says { CompactsFrom (GoesOnAs seat.old seat.new) (IsPin pinned.now.floor.number (numbers_of pinned.now.live.items)) store.now seat.old edits.old.state result seat.new }
    ensures untouched { IfErr result (UnlessFault (edits.new ≡ edits.old)) }
{
    let ReadyMerge { kept, edit, tables } = ready;
    let done = Done {
        at: pinned.floor.number(),
        versions: kept.as_slice().len() as u64,
    };
    match install(store, seat, edits, edit) {
        Ok(table) => {
            put_tables(store, rt, seat, edits, with_first(tables, table), done.at);
            Ok(done)
        }
        Err(Failed) => Err(MaintError::TableFault),
    }
}

/// Merges the tables to one, where what is pinned was decided. The tables that give way are freed at its end, past the store turn.
pub(crate) fn merge<D: Disk + Drop, R: Wait>(
    store: &Shared<D>,
    rt: &R,
    alloc: Global,
    seat: &mut Seat<D>,
    edits: &mut VersionSet<D>,
    pinned: &Pinned,
    decided: Decided,
) -> Result<Done, MaintError>
    requires holds { HoldsEdits store.now seat.old edits.old }
    requires running { edits.old.state.halted ≡ false }
    requires several { SeveralTables edits.old.state.last }
    requires may { MayMerge seat.old.knows edits.old.state pinned.now.floor.number pinned.now.live.items decided.bases }
    requires decided { HasDecided seat.old.knows pinned.now.floor pinned.now.live.items decided.bases decided.versions decided.committed.items }
    requires same { decided.versions ≡ edits.old.state.last.versions }
    requires opened { IsOpenedBase store.now decided.bases.opened }
    ensures holds { HoldsEdits store.now seat.new edits.new }
    ensures in_step { KnowsTables seat.new.knows edits.new.state.last }
    ensures says { CompactsFrom (GoesOnAs seat.old seat.new) (IsPin pinned.now.floor.number (numbers_of pinned.now.live.items)) store.now seat.old edits.old.state result seat.new }
    ensures untouched { IfErr result (UnlessFault (edits.new ≡ edits.old)) }
{
    let Decided {
        tables: _old,
        versions,
        bases,
        committed,
    } = decided;
    let bases = Bases {
        opened: bases.opened,
        installed: edits.segment().base,
    };
    let Ok(kept) = kept_of(alloc, pinned, bases, versions, &committed) else {
        return Err(MaintError::Memory);
    };
    let Ok(ready) = make_ready(alloc, edits, kept) else {
        return Err(MaintError::Memory);
    };
    merge_ready(store, rt, seat, edits, pinned, ready)
}
