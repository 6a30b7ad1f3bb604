//! An open log.

ghost use Rattle.std.specs.Prelude.{◌≡◌, ℕ, ◌+◌, ◌≤◌, ◌^◌, false, [], ◌∷◌, ◌++◌, List, length, drop, IfOk, IfErr, OnOk, MatchResult};
ghost use Rattle.wp_outside.specs.Disk.{IfKnown, added, after_write, after_sync, write_end};
ghost use Rattle.wp_outside.specs.Faults.{HasCause};
ghost use Rattle.wp_gatelog.specs.Append.{Appends, FrameAppended, FrameRefused};
ghost use Rattle.wp_gatelog.specs.Beside.{Writes};
ghost use Rattle.wp_gatelog.specs.Changes.{BringsTo};
ghost use Rattle.wp_gatelog.specs.Log.{BeforeOrAfter, IsAtRest};
ghost use Rattle.wp_gatelog.specs.Opening.{IsOpened, IsUnopened, KeepsLogAt};
ghost use Rattle.wp_gatelog.specs.Spelling.{Stamp, frame_of, stamped};

use crate::device::write_synced;
use crate::error::{DiskRefused, LogError};
use crate::frame::Frame;
use crate::gate::OPEN;
use crate::read_log::ReadLog;
use crate::stored_record::StoredRecord;
use std::alloc::Global;
use std::marker::Model;
use wp_fields::Format;
use wp_outside::{Disk, Failed, own_len};

/// Why a record was not acknowledged.
#[derive(Clone, Copy)]
pub enum AppendError {
    /// The disk failed, so the record may be in the log or not. The log is closed from now on: open it again.
    DiskFault,

    /// An append of this value failed before, and so many records were acknowledged by then.
    Closed(u64),
}

/// An open log. Clauses see its disk's moments and faults, its version and id, how many records it has, where it ends, and
/// whether it is closed.
pub struct GateLog<D: Disk> {
    disk: D,
    format: Format,
    id: u32,
    end: u64,
    count: u64,
    closed: bool,
}

impl<D: Disk> Model for GateLog<D> {
    ghost use Rattle.std.specs.Prelude.{◌≤◌, ◌^◌};
    ghost use Rattle.wp_gatelog.specs.Log.{LogState};

    ghost Value = { LogState };

    ghost view = { λ l. record {
      moments = D.moments l.disk;
      faults = D.faults l.disk;
      format = l.format;
      id = l.id;
      count = l.count;
      end = l.end;
      closed = l.closed;
    } };

    ghost invariant = { λ l. (l.count ≤ l.end) × (l.end ≤ 2 ^ 62) };
}

impl<D: Disk> GateLog<D> {
    /// Opens the log that stands at `place` of the disk, repairs what a crash left of it, and hands out its records. A log
    /// is of one kind, which its magic names, and of one version; one later than `newest` is `BadHead`. At place 0, where
    /// none was made, one is made, of the newest version and with this id. Above it that is `BadHead`, and so is a place
    /// with fewer than eleven bytes behind it, or past the disk's end.
    pub fn open(
        alloc: Global,
        disk: D,
        place: u64,
        magic: [u8; 4],
        newest: Format,
        id: u32,
    ) -> Result<(GateLog<D>, Vec<StoredRecord>), DiskRefused<D, LogError>>
        ensures opened { IfOk result (λ opened. IsOpened place magic (stamped newest id) (D.moments disk) opened.0 opened.1.items) }
        ensures refused { IfErr result (λ refused. IsUnopened place magic newest
            (D.moments disk) (D.moments refused.disk) (D.faults disk) (D.faults refused.disk) refused.why) }
        ensures kept { MatchResult result
            (λ opened. KeepsLogAt place magic (stamped newest id) (D.moments disk) opened.0.moments (D.faults disk) opened.0.faults)
            (λ refused. KeepsLogAt place magic (stamped newest id)
            (D.moments disk) (D.moments refused.disk) (D.faults disk) (D.faults refused.disk)) }
        ensures unfailed { IfOk result (λ opened. opened.0.faults ≡ D.faults disk) }
    {
        let read = match ReadLog::read(alloc, disk, place, magic, newest, id) {
            Ok(read) => read,
            Err(refused) => return Err(refused),
        };
        match read.repair() {
            Ok(opened) => Ok(opened),
            Err(DiskRefused { disk, why: Failed }) => {
                let why = LogError::DiskFault;
                Err(DiskRefused { disk, why })
            }
        }
    }

    /// The log on this disk that has so many records, and ends at `end`.
    pub(crate) fn of(disk: D, format: Format, id: u32, end: u64, count: u64) -> GateLog<D>
        requires count { count ≤ end }
        requires end { end ≤ 2 ^ 62 }
        ensures { result ≡ record { moments = D.moments disk; faults = D.faults disk; format = format; id = id; count = count; end = end; closed = false } }
    {
        GateLog {
            disk,
            format,
            id,
            end,
            count,
            closed: false,
        }
    }

    /// The version in the log's head.
    pub fn format(&self) -> Format
        ensures { result ≡ self.now.format }
    {
        self.format
    }

    /// The id in the log's head.
    pub fn id(&self) -> u32
        ensures { result ≡ self.now.id }
    {
        self.id
    }

    /// How many records the log has, those that were appended since its opening too.
    pub fn count(&self) -> u64
        ensures { result ≡ self.now.count }
    {
        self.count
    }

    /// Adds the record whose frame this is. It takes no memory.
    pub fn append(&mut self, frame: &Frame) -> Result<(), AppendError>
        ensures appends { Appends frame.now self.old self.new result }
        ensures ok { OnOk result (FrameAppended self.old self.new frame.now) }
        ensures err { IfErr result (FrameRefused self.old self.new) }
        ensures later { self.old.faults ≤ self.new.faults }
    {
        if self.closed {
            return Err(AppendError::Closed(self.count));
        }
        match append_frame(&mut self.disk, self.end, frame) {
            Ok(()) => {
                self.end += frame.len();
                self.count += 1;
                Ok(())
            }
            Err(Failed) => {
                self.closed = true;
                Err(AppendError::DiskFault)
            }
        }
    }

    /// Writes the bytes of a whole other log from `place` on, in one write, and puts them on the disk for good. No byte of
    /// this log is touched where the place is dead to it: before it, or behind the gate that ends it. It takes no memory.
    pub fn write_beside(&mut self, place: u64, bytes: &[u8]) -> Result<(), AppendError>
        ensures writes { Writes place bytes.now self.old self.new result }
        ensures ok { OnOk result ((self.old.closed ≡ false)
            × (self.new ≡ record self.old { moments = self.new.moments })
            × (self.new.moments ≡ added after_sync (added (after_write place bytes.now) self.old.moments))) }
        ensures bounded { OnOk result (write_end place bytes.now ≤ 2 ^ 62) }
        ensures err { IfErr result (FrameRefused self.old self.new) }
        ensures later { self.old.faults ≤ self.new.faults }
    {
        if self.closed {
            return Err(AppendError::Closed(self.count));
        }
        match write_synced(&mut self.disk, place, bytes) {
            Ok(()) => Ok(()),
            Err(Failed) => {
                self.closed = true;
                Err(AppendError::DiskFault)
            }
        }
    }

    /// The log in use is from now on one of this version that was written beside it under the same id: it has so many
    /// records, and the gate that ends it is at `end`. What was in use is dead.
    pub fn move_to(&mut self, format: Format, end: u64, count: u64)
        requires count { count ≤ end }
        requires end { end ≤ 2 ^ 62 }
        ensures { self.new ≡ record self.old { format = format; end = end; count = count } }
    {
        self.format = format;
        self.end = end;
        self.count = count;
    }

    /// How many bytes the disk has.
    pub fn disk_len(&mut self) -> Result<u64, AppendError>
        ensures ok { IfOk result (λ len. (self.old.closed ≡ false) × (len ≤ 2 ^ 62)
            × IfKnown self.old.moments (λ m. len ≡ length m.reads)
            × (self.new ≡ self.old)) }
        ensures err { IfErr result (FrameRefused self.old self.new) }
        ensures moments { self.new.moments ≡ self.old.moments }
        ensures later { self.old.faults ≤ self.new.faults }
    {
        if self.closed {
            return Err(AppendError::Closed(self.count));
        }
        match own_len(&mut self.disk) {
            Ok(len) => Ok(len),
            Err(Failed) => {
                self.closed = true;
                Err(AppendError::DiskFault)
            }
        }
    }

    /// Gives the disk back.
    pub fn into_disk(self) -> D
        ensures moments { D.moments result ≡ self.moments }
        ensures faults { D.faults result ≡ self.faults }
    {
        let GateLog {
            disk,
            format: _format,
            id: _id,
            end: _end,
            count: _count,
            closed: _closed,
        } = self;
        disk
    }
}

/// Writes the frame after the closed gate at `end`, and then opens that gate. Each of the two is on the disk for good
/// before the next begins.
fn append_frame<D: Disk>(disk: &mut D, end: u64, frame: &Frame) -> Result<(), Failed>
    requires { end ≤ 2 ^ 62 }
    ensures appended { (magic : List ℕ) (stamp : Stamp) (front dead : List ℕ) (records : List (List ℕ))
        → IfKnown (D.moments disk.old) (IsAtRest magic stamp end front dead records)
        → BringsTo (length front) magic (BeforeOrAfter (length front) magic stamp records frame.now)
        (IsAtRest magic stamp (end + (length frame.now + 9)) front (drop (length frame.now + 9) dead)
        (records ++ frame.now ∷ []))
        (D.moments disk.old) (D.moments disk.new) result }
    ensures calls { OnOk result (D.moments disk.new ≡ added after_sync (added (after_write end (1 ∷ []))
        (added after_sync (added (after_write (end + 1) (frame_of frame.now)) (D.moments disk.old))))) }
    ensures bounded { OnOk result (end + (length frame.now + 9) + 1 ≤ 2 ^ 62) }
    ensures cause { HasCause (D.faults disk.old) (D.faults disk.new) result }
{
    write_synced(disk, end + 1, frame.bytes())?;
    write_synced(disk, end, &[OPEN])
}

// Written out, so that no crate above proves anew how all that it holds is let go.
impl<D: Disk + Drop> Drop for GateLog<D> {
    fn drop(self) {
        let Self {
            disk: _disk,
            format: _format,
            id: _id,
            end: _end,
            count: _count,
            closed: _closed,
        } = self;
    }
}
