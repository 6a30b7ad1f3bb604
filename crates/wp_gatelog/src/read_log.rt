//! A log that was read.

ghost use Rattle.std.specs.Prelude.{◌≡◌, ℕ, ◌≤◌, List, IfOk, IfErr, MatchResult};
ghost use Rattle.wp_outside.specs.Disk.{Moment};
ghost use Rattle.wp_outside.specs.Faults.{Rose};
ghost use Rattle.wp_gatelog.specs.Opening.{HasAsRead, IsOpened, IsRead, IsUnread, KeepsLogAt};
ghost use Rattle.wp_gatelog.specs.Spelling.{Stamp, stamped};

use crate::error::{DiskRefused, LogError};
use crate::log::GateLog;
use crate::open::{FoundLog, find, settle};
use crate::stored_record::StoredRecord;
use std::alloc::Global;
use std::marker::Model;
use wp_fields::Format;
use wp_outside::{Disk, Failed};

/// A log that was read, and of which nothing was written yet: whoever reads it judges its records before it is repaired. Clauses see its
/// disk's moments and faults, where it begins, its magic, version and id, and its records.
pub struct ReadLog<D: Disk> {
    disk: D,
    place: u64,
    magic: [u8; 4],
    log: FoundLog,
}

impl<D: Disk> Model for ReadLog<D> {
    ghost use Rattle.wp_gatelog.specs.Opening.{ReadState};
    ghost use Rattle.wp_gatelog.specs.Opens.{HasPlaces, IsAsFound};
    ghost use Rattle.wp_outside.specs.Disk.{IfKnown};

    ghost Value = { ReadState };

    ghost view = { λ l. record {
      moments = D.moments l.disk;
      faults = D.faults l.disk;
      place = l.place;
      magic = l.magic;
      format = l.log.format;
      id = l.log.id;
      records = l.log.found.records.items;
    } };

    ghost invariant = { λ l. HasPlaces l.log × IfKnown (D.moments l.disk) (IsAsFound l.place l.magic l.log) };
}

impl<D: Disk> ReadLog<D> {
    /// Syncs the disk, and reads the log that stands at `place`. A log is of one kind, which its magic names, and of one version; one
    /// later than `newest` is `BadHead`. At place 0, where none was made, one is to be made, of the newest version and with this id.
    /// Above it that is `BadHead`, and so is a place with fewer than eleven bytes behind it, or past the disk's end.
    pub fn read(
        alloc: Global,
        mut disk: D,
        place: u64,
        magic: [u8; 4],
        newest: Format,
        id: u32,
    ) -> Result<ReadLog<D>, DiskRefused<D, LogError>>
        ensures read { IfOk result (IsRead place magic (stamped newest id) (D.moments disk)) }
        ensures refused { IfErr result (λ refused. IsUnread place magic newest
            (D.moments disk) (D.moments refused.disk) (D.faults disk) (D.faults refused.disk) refused.why) }
        ensures faults { MatchResult result (λ log. log.faults ≡ D.faults disk) (λ refused. D.faults disk ≤ D.faults refused.disk) }
    {
        match find(alloc, &mut disk, place, magic, newest, id) {
            Ok(log) => Ok(ReadLog {
                disk,
                place,
                magic,
                log,
            }),
            Err(why) => Err(DiskRefused { disk, why }),
        }
    }

    /// Where it begins.
    pub fn place(&self) -> u64
        ensures { result ≡ self.now.place }
    {
        self.place
    }

    /// The version in the log's head.
    pub fn format(&self) -> Format
        ensures { result ≡ self.now.format }
    {
        self.log.format
    }

    /// The id in the log's head.
    pub fn id(&self) -> u32
        ensures { result ≡ self.now.id }
    {
        self.log.id
    }

    pub fn records(&self) -> &[StoredRecord]
        ensures { result.now ≡ self.now.records }
    {
        &self.log.found.records
    }

    /// Repairs what a crash left of the log, or makes it where none was made, and hands out its records.
    pub fn repair(self) -> Result<(GateLog<D>, Vec<StoredRecord>), DiskRefused<D, Failed>>
        ensures opened { (place : ℕ) (magic : List ℕ) (asked : Stamp) (old : List Moment) → IsRead place magic asked old self
            → IfOk result (λ opened. IsOpened place magic asked old opened.0 self.records) }
        ensures has { IfOk result (λ opened. HasAsRead self opened.0 × (opened.1.items ≡ self.records)) }
        ensures kept { (place : ℕ) (magic : List ℕ) (asked : Stamp) (old : List Moment) → IsRead place magic asked old self → MatchResult result
            (λ opened. KeepsLogAt place magic asked old opened.0.moments self.faults opened.0.faults)
            (λ refused. KeepsLogAt place magic asked old (D.moments refused.disk) self.faults (D.faults refused.disk)) }
        ensures failed { IfErr result (λ refused. Rose self.faults (D.faults refused.disk)) }
    {
        let ReadLog {
            mut disk,
            place,
            magic,
            log,
        } = self;
        match settle(&mut disk, place, magic, &log) {
            Ok(()) => {
                let FoundLog {
                    format,
                    id,
                    head: _head,
                    len: _len,
                    found,
                } = log;
                let count = found.records.len() as u64;
                let log = GateLog::of(disk, format, id, found.end, count);
                Ok((log, found.records))
            }
            Err(why) => Err(DiskRefused { disk, why }),
        }
    }

    /// Gives the disk back, as it was found.
    pub fn into_disk(self) -> D
        ensures moments { D.moments result ≡ self.moments }
        ensures faults { D.faults result ≡ self.faults }
    {
        let ReadLog {
            disk,
            place: _place,
            magic: _magic,
            log: _log,
        } = self;
        disk
    }
}

// Written out, so that no crate above proves anew how all that it holds is let go.
impl<D: Disk + Drop> Drop for ReadLog<D> {
    fn drop(self) {
        let Self {
            disk: _disk,
            place: _place,
            magic: _magic,
            log: _log,
        } = self;
    }
}
