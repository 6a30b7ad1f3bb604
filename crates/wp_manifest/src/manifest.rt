//! An open manifest.

ghost use Rattle.std.specs.Prelude.{◌≡◌, ◌↔◌, ◌≤◌, ℕ, Bool, List, length, true, false, is_some, [], ◌∷◌, IfOk, IfErr, OnOk, MatchResult};
ghost use Rattle.wp_outside.specs.Disk.{IfKnown, Passes};
ghost use Rattle.wp_outside.specs.Faults.{HasCause};
ghost use Rattle.wp_gatelog.specs.Beside.{IsWholeLog};
ghost use Rattle.wp_gatelog.specs.Moments.{Leaves};
ghost use Rattle.wp_gatelog.specs.Opening.{KeepsLog};
ghost use Rattle.wp_gatelog.specs.Spelling.{IsUnmade};
ghost use Rattle.wp_manifest.specs.Edit.{Edit, IsEdit, edit_bytes, no_edit};
ghost use Rattle.wp_manifest.specs.Errors.{manifest_error_of};
ghost use Rattle.wp_manifest.specs.Spelling.{MAGIC, head_stamp};
ghost use Rattle.wp_manifest.specs.Manifest.{InstallsInto, NamesThere, Opened, Stands, StoresEdits};
ghost use Rattle.wp_manifest.specs.Opening.{IsUnopenedManifest};

use crate::edit::Edit;
use crate::error::ManifestError;
use crate::read::last_edit;
use crate::room::EditRoom;
use crate::write::frame_edit;
use std::alloc::{AllocError, Global};
use std::marker::Model;
use wp_fields::Format;
use wp_gatelog::{
    AppendError, DiskRefused, GateLog, LogError, WholeLog, acknowledged_records_come_first,
};
use wp_outside::{Disk, Failed};

/// The first four bytes after the gate of the manifest's head.
const MANIFEST_MAGIC: [u8; 4] = *b"WPMF";

/// An open manifest. Clauses see its log of edits, and the edit that was installed last.
pub struct Manifest<D: Disk> {
    alloc: Global,
    log: GateLog<D>,
    edit: Edit,
}

impl<D: Disk> Model for Manifest<D> {
    ghost use Rattle.wp_manifest.specs.Manifest.{ManifestState};

    ghost Value = { ManifestState };

    ghost view = { λ m. record { log = m.log; edit = m.edit } };
}

/// What a refusal of the log of edits means for the manifest.
fn error_of(why: LogError) -> ManifestError
    ensures { result ≡ manifest_error_of why }
{
    match why {
        LogError::Memory => ManifestError::Memory,
        LogError::DiskFault => ManifestError::DiskFault,
        LogError::BadHead => ManifestError::BadHead,
        LogError::Cut { index, .. } => ManifestError::BadEdit { index },
    }
}

/// Whether the bytes begin a manifest that was made: its head's gate is open, and more follows.
fn begins_one(bytes: &[u8]) -> bool
    ensures { (result ≡ false) ↔ IsUnmade bytes.now }
{
    match bytes {
        [] | [_] | [0, ..] => false,
        _ => true,
    }
}

/// Whether a manifest was made on the disk.
pub fn is_made<D: Disk>(disk: &mut D) -> Result<bool, Failed>
    ensures made { IfOk result (λ made. IfKnown (D.moments disk.old) (λ m. (made ≡ false) ↔ IsUnmade m.reads)) }
    ensures unchanged { D.moments disk.new ≡ D.moments disk.old }
    ensures cause { HasCause (D.faults disk.old) (D.faults disk.new) result }
{
    let mut bytes = [0; 2];
    let read = disk.read_at(0, &mut bytes)?;
    Ok(begins_one(&bytes[..read]))
}

/// Takes the memory of a manifest that has this edit alone: the bytes of a whole log. The edit is of the second form.
pub fn whole(alloc: Global, id: u32, edit: &Edit) -> Result<WholeLog, AllocError>
    requires place { is_some edit.now.place ≡ true }
    requires count { length edit.now.tables ≤ edit.now.flushed }
    ensures whole { IfOk result (λ log. IsWholeLog MAGIC (head_stamp id) (edit_bytes edit.now ∷ []) log) }
    ensures edit { OnOk result (IsEdit edit.now) }
{
    let frame = frame_edit(alloc, edit)?;
    WholeLog::new(alloc, MANIFEST_MAGIC, Format::One, id)?.with(&frame)
}

impl<D: Disk> Manifest<D> {
    /// Opens the manifest on the disk, whatever its id is, or makes it with this one. It is of the first version, and one of a
    /// later version is a bad head.
    pub fn open(
        alloc: Global,
        disk: D,
        id: u32,
    ) -> Result<Manifest<D>, DiskRefused<D, ManifestError>>
        ensures opened { IfOk result (Opened id (D.moments disk)) }

        ensures refused { IfErr result (λ refused. IsUnopenedManifest
            (D.moments disk) (D.moments refused.disk) (D.faults disk) (D.faults refused.disk) refused.why) }
        ensures kept { MatchResult result
            (λ opened. KeepsLog MAGIC (head_stamp id) (D.moments disk) opened.log.moments (D.faults disk) opened.log.faults)
            (λ refused. KeepsLog MAGIC (head_stamp id)
            (D.moments disk) (D.moments refused.disk) (D.faults disk) (D.faults refused.disk)) }
        ensures unfailed { IfOk result (λ opened. opened.log.faults ≡ D.faults disk) }
    {
        let (log, records) = match GateLog::open(alloc, disk, 0, MANIFEST_MAGIC, Format::One, id) {
            Ok(opened) => opened,
            Err(DiskRefused { disk, why }) => {
                let why = error_of(why);
                return Err(DiskRefused { disk, why });
            }
        };
        match last_edit(alloc, &records) {
            Ok(edit) => Ok(Manifest { alloc, log, edit }),
            Err(why) => {
                let disk = log.into_disk();
                Err(DiskRefused { disk, why })
            }
        }
    }

    /// The id of the store.
    pub fn id(&self) -> u32
        ensures { result ≡ self.now.log.id }
    {
        self.log.id()
    }

    /// The edit that was installed last, or that nothing is flushed and there is no table.
    pub fn edit(&self) -> &Edit
        ensures { result.now ≡ self.now.edit }
    {
        &self.edit
    }

    /// Takes all the memory that the install of this edit needs, which is of the second form.
    pub fn room(&self, edit: Edit) -> Result<EditRoom, AllocError>
        requires place { is_some edit.place ≡ true }
        requires count { length edit.tables ≤ edit.flushed }
        ensures { IfOk result (λ room. room ≡ edit) }
    {
        let frame = frame_edit(self.alloc, &edit)?;
        Ok(EditRoom { frame, edit })
    }

    /// Makes the edit the last one, in memory that was taken before. The tables that it names are durable before, on their device. That
    /// is lent for the call, so nothing changes it meanwhile.
    pub fn install(&mut self, room: EditRoom, tables: &D) -> Result<(), AppendError>
        ensures installs { InstallsInto self.old self.new room result }

        // Where the lent device has what a test asks for the edit before and for this one, then whatever a crash leaves of both devices at a
        // moment of the call, the last edit of the manifest has there what the test asks for it.
        ensures joint { (test : Edit → List ℕ → Bool) (edits : List Edit) → StoresEdits self.old edits no_edit → self.old.log.closed ≡ false
            → IfKnown (D.moments tables.now) (Leaves (Stands test self.old.edit)) → IfKnown (D.moments tables.now) (Leaves (Stands test room))
            → Passes (NamesThere (Stands test) self.old.log.id (D.moments tables.now)) self.old.log.moments self.new.log.moments }
    {
        let _ = tables;
        acknowledged_records_come_first();
        let EditRoom { frame, edit } = room;
        self.log.append(&frame)?;
        self.edit = edit;
        Ok(())
    }

    /// Gives the disk back.
    pub fn into_disk(self) -> D
        ensures moments { D.moments result ≡ self.log.moments }
        ensures faults { D.faults result ≡ self.log.faults }
    {
        let Manifest {
            log,
            alloc: _alloc,
            edit: _edit,
        } = self;
        log.into_disk()
    }
}

// Written out, so that no crate above proves anew how all that it holds is let go.
impl<D: Disk + Drop> Drop for Manifest<D> {
    fn drop(self) {
        let Self {
            alloc: _alloc,
            log: _log,
            edit: _edit,
        } = self;
    }
}
