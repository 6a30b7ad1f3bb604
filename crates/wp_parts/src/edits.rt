//! What the tables turn guards: the tables on their two devices.
ghost use Rattle.std.specs.Prelude.{◌≡◌, ◌≤◌, ◌<◌, ◌+◌, ◌++◌, vec_capacity, true, false, [], None, Some, List, length, IfOk, OnOk, OnErr};
ghost use Rattle.std.specs.Arc.{arc_value};
ghost use Rattle.std.specs.List.{list_all};
ghost use Rattle.std.specs.Option.{option_map};
ghost use Rattle.wp_model.specs.declared.version.Version.{Version};
ghost use Rattle.wp_outside.specs.Disk.{images};
ghost use Rattle.wp_manifest.specs.Edit.{Edit, no_edit};
ghost use Rattle.wp_merge.specs.Merge.{joined, sorted_of};
ghost use Rattle.wp_store.specs.Store.{with_newest};
ghost use Rattle.wp_table.specs.Table.{is_flushed, is_numbered};
ghost use Rattle.wp_tableset.specs.Changes.{one_part, parts_after, staying};
ghost use Rattle.wp_tableset.specs.Set.{StoresTables};
ghost use Rattle.wp_tableset.specs.declared.gone.Gone.TheVariants.{Frozen};
ghost use Rattle.wp_core.specs.Effects.{with_failed};
ghost use Rattle.wp_core.specs.Images.{ManifestTells, TablesTell};
ghost use Rattle.wp_parts.specs.VersionSet.{VersionSetState, IsEdits, IsNamed, HasTablesOf, edits_state};
ghost use Rattle.wp_parts.specs.Installs.{FailedSince, HadCause, IsBehind, IsReadyFor, KeepsBoth, KeepsDevice, SurvivesNext, SurvivesWrite, manifest_faults, state_with, state_without};

use crate::table_versions::TableVersions;
use crate::turn_value::TurnValue;
use std::alloc::{AllocError, Global};
use std::marker::Model;
use std::snapshot::Snapshot as Ghost;
use std::sync::Arc;
use wp_model::{Segment, Seq, Versions};
use wp_outside::{Disk, Failed};
use wp_rule::WordSeat;
use wp_table::Table;
use wp_tableset::{Gone, ReadyEdit, SetDisks, TableSet, WrittenEdit};

/// What an install that failed asked for: a table with these versions, if there is one, in place of what was to go, the flushed number,
/// and the log's segment.
#[derive(Drop)]
pub(crate) struct FailedInstall {
    segment: Segment,
    flushed: Seq,
    gone: Gone,
    tables: Vec<TableVersions>,
}

/// An edit with all the memory that its install takes. Clauses see the edit, and for what of how many tables there is room.
#[derive(Drop)]
pub struct ReadyInstall {
    edit: ReadyEdit,
    tables: Vec<TableVersions>,
}

impl Model for ReadyInstall {
    ghost use Rattle.std.specs.Prelude.{◌≡◌, [], vec_capacity};
    ghost use Rattle.wp_parts.specs.Installs.{ReadyInstallState};

    ghost Value = { ReadyInstallState };

    ghost view = { λ r. record { edit = r.edit; room = vec_capacity r.tables } };

    ghost invariant = { λ r. r.tables.items ≡ [] };
}

/// An edit whose table is on its device, if it has one. Clauses see the edit, what its table has, for what of how many tables there is
/// room, and what the seat remembered that wrote it. It has no `Drop`, so none that was written is forgotten: it is installed, or given up
/// by a seat that remembers since then that the log failed.
pub struct WrittenInstall<D: Disk> {
    edit: WrittenEdit,
    tables: Vec<TableVersions>,
    by: Ghost<WordSeat<TurnValue<D>>>,
}

impl<D: Disk> Model for WrittenInstall<D> {
    ghost use Rattle.std.specs.Prelude.{vec_capacity};
    ghost use Rattle.wp_parts.specs.Installs.{WrittenInstallState};

    ghost Value = { WrittenInstallState };

    ghost view = { λ w. record { edit = w.edit; tables = w.tables.items; room = vec_capacity w.tables; past = w.by.value.me.0.participant.past } };
}

impl ReadyInstall {
    /// What its table takes the place of.
    pub fn gone(&self) -> Gone
        ensures { result ≡ self.now.edit.asked.gone }
    {
        self.edit.gone()
    }
}

impl<D: Disk> WrittenInstall<D> {
    /// No edit will name the table, since the log failed before one was installed: the seat that wrote it remembers that. No device is called.
    pub fn give_up(self, seat: &WordSeat<TurnValue<D>>)
        requires { FailedSince self.past seat.now.me.0.participant.past }
    {
        let _ = seat;
        let WrittenInstall {
            edit,
            tables: _tables,
            by: _by,
        } = self;
        edit.give_up();
    }
}

/// The set of tables, and what the tables of its last edit have, the newest first. Clauses see the state of the machine that it
/// is, the set, the versions of each table, and the set as it was when this value was made.
pub struct VersionSet<D: Disk> {
    alloc: Global,
    set: TableSet<D>,
    /// The base of the log, at the place that the last edit names.
    base: Seq,
    tables: Vec<TableVersions>,
    failed: Option<FailedInstall>,
    first: Ghost<TableSet<D>>,
}

impl<D: Disk> Model for VersionSet<D> {
    ghost use Rattle.wp_parts.specs.VersionSet.{VersionSetState, edits_state, IsEdits};

    ghost Value = { VersionSetState };

    ghost view = { λ e. edits_state e.set e.first.value e.base e.tables.items e.failed };

    ghost invariant = { λ e. IsEdits (edits_state e.set e.first.value e.base e.tables.items e.failed) };
}

/// Puts what the new table has, if there is one, where nothing is, in memory that was taken for it.
fn put_versions(tables: &mut Vec<TableVersions>, table: &Option<Arc<Table>>)
    requires none { tables.old.items ≡ [] }
    requires room { 1 ≤ vec_capacity tables.old }
    ensures versions { tables.new.items ≡ with_newest (option_map arc_value table.now) [] }
    ensures room { vec_capacity tables.old ≤ vec_capacity tables.new }
{
    if let Some(table) = table {
        tables.push(TableVersions::of(table)).unwrap();
    }
}

/// What the new table has, if there is one, and behind it what those have that stay, in memory that was taken for it.
fn with_staying(
    gone: Gone,
    mut tables: Vec<TableVersions>,
    others: &mut Vec<TableVersions>,
) -> Vec<TableVersions>
    requires room { length tables.items + length others.old.items ≤ vec_capacity tables }
    ensures { result.items ≡ tables.items ++ staying gone others.old.items }
{
    if let Gone::Frozen = gone {
        tables.append(others).unwrap();
    }
    tables
}

/// For the proof alone: the manifest is open where the set runs.
fn shows_running<D: Disk>(set: &TableSet<D>)
    ensures { set.now.halted ≡ false → set.now.manifest.log.closed ≡ false }
{
    set.is_halted();
}

impl<D: Disk> VersionSet<D> {
    /// The set as an opening gives it, with the log's base, and what the tables of its last edit have, the newest first.
    pub fn new(
        alloc: Global,
        set: TableSet<D>,
        base: Seq,
        tables: Vec<TableVersions>,
    ) -> VersionSet<D>
        requires stores { (edits : List Edit) × StoresTables set edits no_edit tables.items [] }
        requires flushed { list_all (is_flushed set.manifest.edit.flushed) (sorted_of (joined tables.items)) ≡ true }
        requires running { set.halted ≡ false }
        ensures { result ≡ edits_state set set base tables.items None }
    {
        shows_running(&set);
        VersionSet {
            alloc,
            first: Ghost::of(&set),
            set,
            base,
            tables,
            failed: None,
        }
    }

    /// Whether a device of the tables has failed.
    pub fn is_halted(&self) -> bool
        ensures { result ≡ self.now.state.halted }
    {
        self.set.is_halted()
    }

    /// The number up to which entries were flushed.
    pub fn flushed(&self) -> Seq
        ensures number { result ≡ self.now.state.last.flushed }
        ensures tables { list_all (is_flushed result) self.now.state.last.versions ≡ true }
    {
        self.set.edit().flushed
    }

    /// The segment of the log that the last edit names.
    pub fn segment(&self) -> Segment
        ensures { result ≡ self.now.state.last.segment }
    {
        Segment {
            place: self.set.log_place(),
            base: self.base,
        }
    }

    /// How many tables there are.
    pub fn table_count(&self) -> usize
        ensures { result ≡ self.now.state.last.tables }
    {
        self.tables.len()
    }

    /// Takes all the memory of an edit: all entries up to `flushed` are in the tables then, these versions in one table, if there are any,
    /// in place of what goes.
    pub fn ready(
        &self,
        gone: Gone,
        versions: &Versions,
        flushed: Seq,
    ) -> Result<ReadyInstall, AllocError>
        requires numbered { list_all is_numbered versions.now ≡ true }
        requires flushed { list_all (is_flushed flushed) versions.now ≡ true }
        requires later { (self.now.state.last.flushed ≤ flushed) × (gone ≡ Frozen → 1 ≤ length versions.now → self.now.state.last.flushed < flushed) }
        ensures asked { IfOk result (λ ready. ready.edit.asked ≡ record { gone = gone; versions = versions.now; flushed = flushed }) }
        ensures ready { IfOk result (IsReadyFor self.now) }
    {
        let tables = Vec::with_capacity(self.alloc, self.tables.len() + 1)?;
        let edit = self.set.ready(gone, versions, flushed)?;
        Ok(ReadyInstall { edit, tables })
    }

    /// Writes the table of a ready edit, if it has one, for this seat. After a fault of the device the tables are halted. It takes no
    /// memory.
    pub fn write_table(
        &mut self,
        ready: ReadyInstall,
        seat: &WordSeat<TurnValue<D>>,
    ) -> Result<WrittenInstall<D>, Failed>
        requires running { self.old.state.halted ≡ false }
        requires ready { IsReadyFor self.old ready }
        ensures written { IfOk result (λ written. (self.new.state ≡ self.old.state) × IsBehind self.old self.new written) }
        ensures asked { IfOk result (λ written. written.edit.asked ≡ ready.edit.asked) }
        ensures past { IfOk result (λ written. written.past ≡ seat.now.me.0.participant.past) }
        ensures parts { self.new.parts ≡ self.old.parts }
        ensures uncalled { ready.edit.asked.versions ≡ [] → self.new ≡ self.old }
        ensures refused { OnErr result (self.new.state ≡ with_failed self.old.state None) }
        ensures cause { OnErr result (HadCause self.old.set self.new.set) }
        ensures survives { SurvivesWrite self.old self.new ready.edit.asked }
        ensures manifest { self.new.set.manifest ≡ self.old.set.manifest }
        ensures first { self.new.first ≡ self.old.first }
    {
        let ReadyInstall { edit, mut tables } = ready;
        let edit = self.set.write_table(edit)?;
        put_versions(&mut tables, edit.table());
        Ok(WrittenInstall {
            edit,
            tables,
            by: Ghost::of(seat),
        })
    }

    /// Installs an edit whose table was written, with this segment of the log. The table is for readers. It takes no memory.
    pub fn install(
        &mut self,
        written: WrittenInstall<D>,
        segment: Segment,
    ) -> Result<Option<Arc<Table>>, Failed>
        requires running { self.old.state.halted ≡ false }
        requires written { (before : VersionSetState) × IsBehind before self.old written }
        ensures table { IfOk result (λ table. option_map arc_value table ≡ one_part written.edit.asked.versions) }
        ensures installed { OnOk result (self.new.state ≡ state_with self.old written segment) }
        ensures parts { OnOk result (self.new.parts ≡ parts_after written.edit.asked self.old.parts) }
        ensures refused { OnErr result (self.new.state ≡ state_without self.old written segment) }
        ensures cause { OnErr result (HadCause self.old.set self.new.set) }
        ensures unfailed { OnOk result (manifest_faults self.new ≡ manifest_faults self.old) }
        ensures survives { SurvivesNext self.old self.new written segment }
        ensures tables { KeepsDevice self.old.set self.new.set }
        ensures joint { KeepsBoth self.old self.new written }
        ensures first { self.new.first ≡ self.old.first }
    {
        let WrittenInstall { edit, tables, by } = written;
        drop(by);
        let (gone, flushed) = edit.asked();
        match self.set.install(edit, segment.place) {
            Ok(table) => {
                shows_running(&self.set);
                self.base = segment.base;
                self.tables = with_staying(gone, tables, &mut self.tables);
                Ok(table)
            }
            Err(Failed) => {
                self.failed = Some(FailedInstall {
                    segment,
                    flushed,
                    gone,
                    tables,
                });
                Err(Failed)
            }
        }
    }

    /// For the proof alone: what a crash leaves of the devices is as the state says.
    pub fn devices_agree(&self)
        ensures manifest { ManifestTells (images self.now.set.manifest.log.moments) (IsNamed self.now) self.now.state }
        ensures tables { TablesTell (images self.now.set.moments) (HasTablesOf self.now) self.now.state }
        ensures edits { IsEdits self.now }
    {
        let _ = &self.set;
    }

    /// The two devices.
    pub fn into_disks(self) -> SetDisks<D>
        ensures manifest { (D.moments result.manifest ≡ self.set.manifest.log.moments) × (D.faults result.manifest ≡ self.set.manifest.log.faults) }
        ensures tables { (D.moments result.tables ≡ self.set.moments) × (D.faults result.tables ≡ self.set.faults) }
        ensures edits { IsEdits self }
    {
        let VersionSet {
            alloc: _alloc,
            set,
            base: _base,
            tables: _tables,
            failed: _failed,
            first: _first,
        } = self;
        set.into_disks()
    }
}

// Written out, so that no crate above proves anew how all that it holds is let go.
impl<D: Disk + Drop> Drop for VersionSet<D> {
    fn drop(self) {
        let Self {
            alloc: _alloc,
            set: _set,
            base: _base,
            tables: _tables,
            failed: _failed,
            first: _first,
        } = self;
    }
}
