//! The manifest's device, before the log is called.
ghost use Rattle.std.specs.Prelude.{◌≡◌, IfNone, IfOk, IfErr, IfSome, OnOk};
ghost use Rattle.wp_gatelog.specs.Opening.{KeepsLog};
ghost use Rattle.wp_manifest.specs.Edit.{place_of};
ghost use Rattle.wp_manifest.specs.Opening.{IsUnopenedManifest};
ghost use Rattle.wp_manifest.specs.Spelling.{MAGIC, head_stamp};
ghost use Rattle.wp_logs.specs.Seen.{HasOther, HasSame, IsApart, MayNotOpen, OpensSeen, WasMade, seen_faults, seen_moments, seen_place};

use std::alloc::Global;
use wp_gatelog::DiskRefused;
use wp_manifest::{Edit, Manifest, ManifestError, is_made};
use wp_outside::{Device, Disk, Failed};
use wp_refused::Bad;
use wp_wal::Wal;

/// A manifest's device, as an opening finds it.
#[derive(Drop)]
pub(crate) enum SeenManifest<D: Disk> {
    /// A manifest was made there, and is open.
    Made(Manifest<D>),
    /// None was made there yet.
    Unmade(D),
}

/// Where on its device the log begins.
fn place_in(edit: &Edit) -> u64
    ensures { result ≡ place_of edit.now }
{
    edit.place.unwrap_or(0)
}

/// Opens the manifest, if one was made.
pub(crate) fn find_manifest<D: Disk>(
    alloc: Global,
    mut disk: D,
    id: u32,
) -> Result<SeenManifest<D>, DiskRefused<D, ManifestError>>
    ensures made { IfOk result (WasMade id D.moments D.faults disk) }
    ensures refused { IfErr result (λ refused. IsUnopenedManifest
        (D.moments disk) (D.moments refused.disk) (D.faults disk) (D.faults refused.disk) refused.why) }
    ensures kept { IfErr result (λ refused. KeepsLog MAGIC (head_stamp id)
        (D.moments disk) (D.moments refused.disk) (D.faults disk) (D.faults refused.disk)) }
{
    match is_made(&mut disk) {
        Ok(true) => match Manifest::open(alloc, disk, id) {
            Ok(manifest) => Ok(SeenManifest::Made(manifest)),
            Err(refused) => Err(refused),
        },
        Ok(false) => Ok(SeenManifest::Unmade(disk)),
        Err(Failed) => {
            let why = ManifestError::DiskFault;
            Err(DiskRefused { disk, why })
        }
    }
}

impl<D: Disk> SeenManifest<D> {
    /// Where on its device the log begins.
    pub(crate) fn place(&self) -> u64
        ensures { result ≡ seen_place self.now }
    {
        match self {
            SeenManifest::Made(manifest) => place_in(manifest.edit()),
            SeenManifest::Unmade(_) => 0,
        }
    }

    /// The id of a manifest that was made, where it is another one.
    pub(crate) fn other_id(&self, id: u32) -> Option<u32>
        ensures some { IfSome result (HasOther id self.now) }
        ensures none { IfNone result (HasSame id self.now) }
    {
        match self {
            SeenManifest::Made(manifest) if manifest.id() != id => Some(manifest.id()),
            _ => None,
        }
    }

    /// The open manifest. One that was not made is made with this id.
    pub(crate) fn open(
        self,
        alloc: Global,
        id: u32,
    ) -> Result<Manifest<D>, DiskRefused<D, ManifestError>>
        ensures opened { IfOk result (OpensSeen id D.moments D.faults self) }
        ensures refused { IfErr result (λ refused. MayNotOpen id D.moments D.faults self refused.disk refused.why) }
    {
        match self {
            SeenManifest::Made(manifest) => Ok(manifest),
            SeenManifest::Unmade(disk) => Manifest::open(alloc, disk, id),
        }
    }

    /// Gives the disk back.
    pub(crate) fn into_disk(self) -> D
        ensures moments { D.moments result ≡ seen_moments D.moments self }
        ensures faults { D.faults result ≡ seen_faults D.faults self }
    {
        match self {
            SeenManifest::Made(manifest) => manifest.into_disk(),
            SeenManifest::Unmade(disk) => disk,
        }
    }
}

/// Whether the manifest names the place of this log, and has its id.
pub(crate) fn may_open<D: Disk>(wal: &Wal<D>, manifest: &Manifest<D>) -> Result<(), Bad>
    ensures ok { OnOk result ((place_of manifest.now.edit ≡ wal.now.segment.place) × (manifest.now.log.id ≡ wal.now.id)) }
    ensures err { IfErr result (IsApart wal.now manifest.now) }
{
    if place_in(manifest.edit()) != wal.segment_in_use().place {
        return Err(Bad::BadHead(Device::Log));
    }
    let (log, found) = (wal.id(), manifest.id());
    if found != log {
        return Err(Bad::Stranger { log, found });
    }
    Ok(())
}
