//! What the errors of the log, the manifest and the tables mean for the opening of a store.
ghost use Rattle.wp_refused.specs.Refused.{IsLogReason, IsManifestReason, IsTableReason};

use crate::bad::Bad;
use crate::error::OpenError;
use wp_manifest::ManifestError;
use wp_outside::Device;
use wp_table::TableError;
use wp_wal::WalError;

pub fn log_reason(error: WalError) -> OpenError
    ensures { IsLogReason error result }
{
    match error {
        WalError::Memory => OpenError::Memory,
        WalError::DiskFault => OpenError::OpenFault(Device::Log),
        WalError::BadHead => OpenError::Contents(Bad::BadHead(Device::Log)),
        WalError::BadRecord { index, why } => OpenError::Contents(Bad::BadRecord { index, why }),
        WalError::Illegal { number } => OpenError::Contents(Bad::Illegal { number }),
    }
}

pub fn manifest_reason(error: ManifestError) -> OpenError
    ensures { IsManifestReason error result }
{
    match error {
        ManifestError::Memory => OpenError::Memory,
        ManifestError::DiskFault => OpenError::OpenFault(Device::Manifest),
        ManifestError::BadHead => OpenError::Contents(Bad::BadHead(Device::Manifest)),
        ManifestError::BadEdit { index } => OpenError::Contents(Bad::BadEdit { index }),
    }
}

/// The reason of the table at that place, in the store with that id.
pub fn table_reason(id: u32, place: u64, error: TableError) -> OpenError
    ensures { IsTableReason id place error result }
{
    match error {
        TableError::Memory => OpenError::Memory,
        TableError::Stranger(found) => OpenError::Contents(Bad::Stranger { log: id, found }),
        why => OpenError::Contents(Bad::BadTable { place, why }),
    }
}
