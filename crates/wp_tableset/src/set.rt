ghost use Rattle.std.specs.Prelude.{◌≡◌, ◌≤◌, ℕ, true, false, [], List, length, IfOk, OnOk, OnErr, Some};
ghost use Rattle.std.specs.Arc.{arc_value};
ghost use Rattle.std.specs.List.{list_all};
ghost use Rattle.std.specs.Option.{option_map};
ghost use Rattle.wp_model.specs.declared.version.Version.{Version};
ghost use Rattle.wp_model.specs.Versions.{AreInOrder};
ghost use Rattle.wp_outside.specs.Disk.{IfKnown, Passes};
ghost use Rattle.wp_manifest.specs.Edit.{Edit, no_edit, place_of};
ghost use Rattle.wp_manifest.specs.Manifest.{StoresEdits};
ghost use Rattle.wp_table.specs.Table.{SpellsTable, is_flushed, is_numbered, written_bytes};
ghost use Rattle.wp_tableset.specs.Changes.{InstallsEdit, LosesNoTable, NotWritten, one_part, staying};
ghost use Rattle.wp_tableset.specs.Install.{IsReadyEdit, IsWrittenEdit, MayInstall, NamesItsTables, built_of, unplaced};
ghost use Rattle.wp_tableset.specs.Set.{RestsWith, StoresTables, TableSetState};

use crate::device::write_behind;
use crate::gone::Gone;
use std::alloc::{AllocError, Global};
use std::marker::Model;
use std::snapshot::Snapshot as Ghost;
use std::sync::Arc;
use wp_build::build;
use wp_gatelog::AppendError;
use wp_manifest::{Edit, EditRoom, Manifest};
use wp_model::{Seq, Versions};
use wp_outside::{Disk, Failed};
use wp_table::{Built, Table};

/// The tables of a store: its manifest, and the device of its table files. Clauses see the manifest, the device's moments
/// and faults, and whether a device has failed.
pub struct TableSet<D: Disk> {
    alloc: Global,
    manifest: Manifest<D>,
    tables: D,
    halted: bool,
}

/// An edit with all the memory that its install takes, and the table that is to be written for it, if there is one. Clauses see
/// both, and what was asked of the edit.
#[derive(Drop)]
pub struct ReadyEdit {
    room: EditRoom,
    built: Option<Built>,
    gone: Gone,
    flushed: Seq,
    versions: Ghost<Versions>,
}

impl Model for ReadyEdit {
    ghost use Rattle.wp_tableset.specs.Install.{ReadyState};

    ghost Value = { ReadyState };

    ghost view = { λ r. record {
      edit = r.room;
      built = r.built;
      asked = record { gone = r.gone; versions = r.versions.value; flushed = r.flushed };
    } };
}

/// An edit whose table, if it has one, is on its device. Clauses see the edit, and what was asked of it. It has no `Drop`, so no table
/// that was written is forgotten: its edit is installed, or it is given up.
pub struct WrittenEdit {
    room: EditRoom,
    table: Option<Arc<Table>>,
    gone: Gone,
    flushed: Seq,
    versions: Ghost<Versions>,
}

impl Model for WrittenEdit {
    ghost use Rattle.std.specs.Prelude.{◌≡◌};
    ghost use Rattle.std.specs.Arc.{arc_value};
    ghost use Rattle.std.specs.Option.{option_map};
    ghost use Rattle.wp_tableset.specs.Changes.{one_part};
    ghost use Rattle.wp_tableset.specs.Install.{WrittenEditState};

    ghost Value = { WrittenEditState };

    ghost view = { λ w. record {
      edit = w.room;
      asked = record { gone = w.gone; versions = w.versions.value; flushed = w.flushed };
    } };

    ghost invariant = { λ w. option_map arc_value w.table ≡ one_part w.versions.value };
}

/// The two devices of a set.
#[derive(Drop)]
pub struct SetDisks<D> {
    pub manifest: D,
    pub tables: D,
}

impl<D: Disk> Model for TableSet<D> {
    ghost use Rattle.wp_tableset.specs.Set.{TableSetState};
    ghost use Rattle.wp_tableset.specs.Install.{IsReady};

    ghost Value = { TableSetState };

    ghost view = { λ s. record { manifest = s.manifest; moments = D.moments s.tables; faults = D.faults s.tables; halted = s.halted } };

    ghost invariant = { λ s. IsReady s.manifest s.halted };
}

/// These versions as a table, if there are any.
fn build_some(alloc: Global, id: u32, versions: &Versions) -> Result<Option<Built>, AllocError>
    requires { list_all is_numbered versions.now ≡ true }
    ensures built { IfOk result (λ built. built ≡ built_of id versions.now) }
    ensures spelled { OnOk result ((flushed : ℕ) → list_all (is_flushed flushed) versions.now ≡ true → 1 ≤ length versions.now
        → SpellsTable id flushed versions.now (written_bytes id versions.now)) }
    ensures in_order { AreInOrder versions.now }
{
    if versions.as_slice().is_empty() {
        return Ok(None);
    }
    let built = build(alloc, id, versions)?;
    Ok(Some(built))
}

/// What an edit is to name of a table that has no place yet, if there is one.
fn unplaced(alloc: Global, built: &Option<Built>) -> Result<Vec<(u64, u64)>, AllocError>
    ensures { IfOk result (λ places. places.items ≡ unplaced built.now) }
{
    match built {
        Some(built) => {
            let mut places = Vec::new(alloc);
            places.push((0, built.bytes().len() as u64))?;
            Ok(places)
        }
        None => Ok(Vec::new(alloc)),
    }
}

/// Of these tables those that stay.
fn staying(gone: Gone, tables: &[(u64, u64)]) -> &[(u64, u64)]
    ensures { result.now ≡ staying gone tables.now }
{
    match gone {
        Gone::Frozen => tables,
        Gone::Tables => &[],
    }
}

impl ReadyEdit {
    /// What its table takes the place of.
    pub fn gone(&self) -> Gone
        ensures { result ≡ self.now.asked.gone }
    {
        self.gone
    }
}

impl WrittenEdit {
    /// What goes, and the number up to which entries are flushed then.
    pub fn asked(&self) -> (Gone, Seq)
        ensures gone { result.0 ≡ self.now.asked.gone }
        ensures flushed { result.1 ≡ self.now.asked.flushed }
    {
        (self.gone, self.flushed)
    }

    /// Its table, if it has one.
    pub fn table(&self) -> &Option<Arc<Table>>
        ensures { option_map arc_value result.now ≡ one_part self.now.asked.versions }
    {
        &self.table
    }

    /// No edit will name the table: its bytes on the device are dead. No device is called.
    pub fn give_up(self) {
        let WrittenEdit {
            room: _room,
            table: _table,
            gone: _gone,
            flushed: _flushed,
            versions: _versions,
        } = self;
    }
}

impl<D: Disk> TableSet<D> {
    /// The set that an opening gives: the manifest that it opened, and the tables' device, which it synced.
    pub fn new(alloc: Global, manifest: Manifest<D>, tables: D) -> TableSet<D>
        requires stores { (edits : List Edit) × StoresEdits manifest edits no_edit }
        requires running { manifest.log.closed ≡ false }
        ensures set { result ≡ record { manifest = manifest; moments = D.moments tables; faults = D.faults tables; halted = false } }
        ensures stores { (edits : List Edit) (parts : List (List Version)) → StoresEdits manifest edits no_edit
            → IfKnown (D.moments tables) (RestsWith manifest.log.id manifest.edit parts)
            → StoresTables result edits no_edit parts [] }
    {
        TableSet {
            alloc,
            manifest,
            tables,
            halted: false,
        }
    }

    /// The edit that was installed last.
    pub fn edit(&self) -> &Edit
        ensures edit { result.now ≡ self.now.manifest.edit }
        ensures count { length self.now.manifest.edit.tables ≤ self.now.manifest.edit.flushed }
    {
        self.manifest.edit()
    }

    /// Where on its device the log begins, by the edit that was installed last.
    pub fn log_place(&self) -> u64
        ensures { result ≡ place_of self.now.manifest.edit }
    {
        self.manifest.edit().place.unwrap_or(0)
    }

    /// Whether a device has failed.
    pub fn is_halted(&self) -> bool
        ensures halted { result ≡ self.now.halted }
        ensures running { self.now.halted ≡ false → self.now.manifest.log.closed ≡ false }
    {
        self.halted
    }

    /// Takes all the memory of an edit: it names one table of these versions, if there are any, and behind it the tables that stay,
    /// and flushes the entries up to this number.
    pub fn ready(
        &self,
        gone: Gone,
        versions: &Versions,
        flushed: Seq,
    ) -> Result<ReadyEdit, AllocError>
        requires { MayInstall self.now (record { gone = gone; versions = versions.now; flushed = flushed }) }
        ensures asked { IfOk result (λ ready. ready.asked ≡ record { gone = gone; versions = versions.now; flushed = flushed }) }
        ensures ready { IfOk result (IsReadyEdit self.now) }
    {
        let built = build_some(self.alloc, self.manifest.id(), versions)?;
        let mut tables = unplaced(self.alloc, &built)?;
        tables.extend_from_slice(staying(gone, &self.manifest.edit().tables))?;
        let room = self.manifest.room(Edit {
            flushed,
            place: Some(0),
            tables,
        })?;
        Ok(ReadyEdit {
            room,
            built,
            gone,
            flushed,
            versions: Ghost::of(versions),
        })
    }

    /// Writes the table of a ready edit, if it has one. It takes no memory. After a fault of the device the set is halted.
    pub fn write_table(&mut self, ready: ReadyEdit) -> Result<WrittenEdit, Failed>
        requires running { self.old.halted ≡ false }
        requires ready { IsReadyEdit self.old ready }
        ensures written { IfOk result (IsWrittenEdit self.old self.new) }
        ensures asked { IfOk result (λ written. written.asked ≡ ready.asked) }
        ensures uncalled { ready.asked.versions ≡ [] → self.new ≡ self.old }
        ensures refused { OnErr result (NotWritten self.old self.new) }
        ensures keeps { LosesNoTable self.old self.new }
    {
        let ReadyEdit {
            mut room,
            built,
            gone,
            flushed,
            versions,
        } = ready;
        let Some(built) = built else {
            return Ok(WrittenEdit {
                room,
                table: None,
                gone,
                flushed,
                versions,
            });
        };
        match write_behind(&mut self.tables, built.bytes()) {
            Ok(place) => {
                room.set_newest_place(place);
                Ok(WrittenEdit {
                    room,
                    table: Some(built.into_table()),
                    gone,
                    flushed,
                    versions,
                })
            }
            Err(Failed) => {
                self.halted = true;
                Err(Failed)
            }
        }
    }

    /// Makes an edit the last one whose table was written, and by which the log begins at this place of its device. The table is for
    /// readers. It takes no memory. After a fault of the device the set is halted, and a later opening finds the edit or does not.
    pub fn install(
        &mut self,
        written: WrittenEdit,
        log_place: u64,
    ) -> Result<Option<Arc<Table>>, Failed>
        requires running { self.old.halted ≡ false }
        requires written { (old : TableSetState) × IsWrittenEdit old self.old written }
        ensures table { IfOk result (λ table. option_map arc_value table ≡ one_part written.asked.versions) }
        ensures installs { InstallsEdit self.old self.new (record written.edit { place = Some log_place }) result }

        // Whatever a crash leaves of both devices at a moment of the call, the manifest's last edit has its tables.
        ensures joint { (old : TableSetState) (edits : List Edit) (parts : List (List Version)) → IsWrittenEdit old self.old written → StoresTables old edits no_edit parts []
            → Passes (NamesItsTables self.old) self.old.manifest.log.moments self.new.manifest.log.moments }
        ensures keeps { LosesNoTable self.old self.new }
    {
        let WrittenEdit {
            mut room,
            table,
            gone: _gone,
            flushed: _flushed,
            versions: _versions,
        } = written;
        room.set_log_place(log_place);
        match self.manifest.install(room, &self.tables) {
            Ok(()) => Ok(table),
            Err(AppendError::DiskFault) => {
                self.halted = true;
                Err(Failed)
            }
            Err(AppendError::Closed(_)) => unreachable!(),
        }
    }

    /// Gives the devices back.
    pub fn into_disks(self) -> SetDisks<D>
        ensures manifest { D.moments result.manifest ≡ self.manifest.log.moments }
        ensures manifest_faults { D.faults result.manifest ≡ self.manifest.log.faults }
        ensures tables { D.moments result.tables ≡ self.moments }
        ensures tables_faults { D.faults result.tables ≡ self.faults }
        ensures running { self.halted ≡ false → self.manifest.log.closed ≡ false }
    {
        let TableSet {
            manifest,
            tables,
            alloc: _alloc,
            halted: _halted,
        } = self;
        SetDisks {
            manifest: manifest.into_disk(),
            tables,
        }
    }
}

// Written out, so that no crate above proves anew how all that it holds is let go.
impl<D: Disk + Drop> Drop for TableSet<D> {
    fn drop(self) {
        let Self {
            alloc: _alloc,
            manifest: _manifest,
            tables: _tables,
            halted: _halted,
        } = self;
    }
}
