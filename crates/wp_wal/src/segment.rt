//! Another segment of the log: put together in memory, written beside the one in use, and brought into use.

ghost use Rattle.std.specs.Prelude.{◌≡◌, ◌≢◌, ℕ, ◌+◌, ◌≤◌, List, ◌∷◌, [], length, None, IfOk, IfErr, OnOk};
ghost use Rattle.wp_cuts.specs.Cut.{Cut};
ghost use Rattle.wp_outside.specs.Disk.{Goes, IfKnown, images};
ghost use Rattle.wp_outside.specs.Faults.{HasCause};
ghost use Rattle.wp_fields.specs.declared.format.Format.TheVariants.{Two};
ghost use Rattle.wp_entry.specs.Base.{AscendUpTo, IsBase, base_bytes};
ghost use Rattle.wp_entry.specs.Record.{last_number};
ghost use Rattle.wp_gatelog.specs.Append.{FrameRefused};
ghost use Rattle.wp_gatelog.specs.Beside.{IsWholeLog};
ghost use Rattle.wp_gatelog.specs.Moments.{IsSynced, Leaves};
ghost use Rattle.wp_gatelog.specs.Spelling.{stamped};
ghost use Rattle.wp_wal.specs.Segment.{IsBeside, IsEndFor, IsNoneOrLog, IsPlaceFor, SurvivesBeside, cut_behind};
ghost use Rattle.wp_wal.specs.Spelling.{MAGIC, IsLogAt};
ghost use Rattle.wp_wal.specs.Wal.{Refuses, StoresCut};

use crate::base::base_frame;
use crate::wal::{LOG_MAGIC, Wal};
use std::alloc::{AllocError, Global};
use std::marker::Model;
use std::snapshot::Snapshot;
use wp_entry::Base;
use wp_fields::Format;
use wp_gatelog::{AppendError, GateLog, WholeLog, make_whole};
use wp_model::{Segment, Seq};
use wp_outside::{Disk, Failed};

/// A segment without entries in memory, behind a base. Clauses see the base, and what is written.
#[derive(Drop)]
pub struct NewSegment {
    base: Snapshot<Base>,
    number: Seq,
    log: WholeLog,
}

impl Model for NewSegment {
    ghost use Rattle.std.specs.Prelude.{◌≡◌, ◌≤◌, length};
    ghost use Rattle.wp_wal.specs.Segment.{NewSegmentState};

    ghost Value = { NewSegmentState };

    ghost view = { λ s. record { base = s.base.value; bytes = s.log } };

    ghost invariant = { λ s. (s.number ≡ s.base.value.number) × (2 ≤ length s.log) };
}

/// A segment that is on the device beside the log in use. It has no `Drop`, so none that was written is forgotten: the log moves there, or
/// gives it up.
pub struct Written {
    segment: Segment,
    end: u64,
}

impl Model for Written {
    ghost use Rattle.std.specs.Prelude.{◌≤◌, ◌^◌};
    ghost use Rattle.wp_wal.specs.Segment.{WrittenState};

    ghost Value = { WrittenState };

    ghost view = { λ w. record { segment = w.segment; end = w.end } };

    ghost invariant = { λ w. (1 ≤ w.end) × (w.end ≤ 2 ^ 62) };
}

impl Written {
    /// Where the segment is, and its base.
    pub fn segment(&self) -> Segment
        ensures { result ≡ self.now.segment }
    {
        self.segment
    }
}

/// Where so many bytes are written beside a log that begins at `used`: at place 0 where that is their end or behind it, else at the
/// device's end. Where the device tells no true length, they are kept from the place of that log all the same.
fn place_beside<D: Disk>(log: &mut GateLog<D>, used: u64, size: u64) -> Result<u64, AppendError>
    ensures place { IfOk result (IsPlaceFor used size) }
    ensures end { IfOk result (IsEndFor used size log.old.moments) }
    ensures ok { OnOk result (log.new ≡ log.old) }
    ensures err { IfErr result (FrameRefused log.old log.new) }
    ensures moments { log.new.moments ≡ log.old.moments }
    ensures later { log.old.faults ≤ log.new.faults }
{
    if size <= used {
        return Ok(0);
    }
    let len = log.disk_len()?;
    if len <= used {
        return Ok(used + 1);
    }
    Ok(len)
}

impl NewSegment {
    /// Takes the memory of a segment behind this base: the bytes of a whole log of the second version with this id, without
    /// entries.
    pub fn of(alloc: Global, id: u32, base: &Base) -> Result<NewSegment, AllocError>
        requires small { base.now.number ≤ last_number Two }
        requires ascend { AscendUpTo base.now.number 0 base.now.carried }
        ensures base { IfOk result (λ s. (s.base ≡ base.now) × IsBase base.now) }
        ensures whole { IfOk result (λ s. IsWholeLog MAGIC (stamped Two id) (base_bytes base.now ∷ []) s.bytes) }
    {
        let frame = base_frame(alloc, base)?;
        let log = WholeLog::new(alloc, LOG_MAGIC, Format::Two, id)?.with(&frame)?;
        Ok(NewSegment {
            base: Snapshot::of(base),
            number: base.number,
            log,
        })
    }

    /// Writes the segment to an empty disk, as a log of its own. A crash leaves no log there, or the whole of it.
    pub fn make<D: Disk>(&self, disk: &mut D) -> Result<(), Failed>
        ensures left { (id : ℕ) → IsBase self.now.base → IsWholeLog MAGIC (stamped Two id) (base_bytes self.now.base ∷ []) self.now.bytes
            → IfKnown (D.moments disk.old) (λ m. m.reads ≡ [])
            → OnOk result ((image : List ℕ) → images (D.moments disk.new) image → IsLogAt id 0 (cut_behind self.now.base) image) }
        ensures passed { (id : ℕ) → IsBase self.now.base → IsWholeLog MAGIC (stamped Two id) (base_bytes self.now.base ∷ []) self.now.bytes
            → IsSynced [] (D.moments disk.old)
            → Goes (Leaves (IsNoneOrLog id self.now.base)) (D.moments disk.old) (D.moments disk.new) }
        ensures unknown { D.moments disk.old ≡ [] → D.moments disk.new ≡ [] }
        ensures cause { HasCause (D.faults disk.old) (D.faults disk.new) result }
    {
        make_whole(disk, &self.log)
    }
}

impl<D: Disk> Wal<D> {
    /// Takes the memory of a segment behind this base, with the log's id.
    pub fn segment(&self, base: &Base) -> Result<NewSegment, AllocError>
        requires small { base.now.number ≤ last_number Two }
        requires ascend { AscendUpTo base.now.number 0 base.now.carried }
        ensures base { IfOk result (λ s. (s.base ≡ base.now) × IsBase base.now) }
        ensures whole { IfOk result (λ s. IsWholeLog MAGIC (stamped Two self.now.id) (base_bytes base.now ∷ []) s.bytes) }
    {
        NewSegment::of(self.alloc, self.log.id(), base)
    }

    /// Writes the segment beside the log in use, in one write, and puts it on the device for good. Its place is 0 where the log in
    /// use begins at its length or behind it, else the device's end. It takes no memory. Whatever it answers, no record is reserved
    /// afterwards; after a fault the log is closed.
    pub fn write_segment(&mut self, new: &NewSegment) -> Result<Written, AppendError>
        ensures ok { IfOk result (λ w. (w.segment.base ≡ new.now.base.number) × (w.segment.place ≢ self.old.segment.place)
            × (self.new ≡ record self.old { moments = self.new.moments; reserved = None })) }
        ensures place { IfOk result (λ w. IsPlaceFor self.old.segment.place (length new.now.bytes) w.segment.place
            × (w.end + 1 ≡ w.segment.place + length new.now.bytes)) }
        ensures writes { (c : Cut) → StoresCut self.old c [] → IsBase new.now.base
            → IsWholeLog MAGIC (stamped Two self.old.id) (base_bytes new.now.base ∷ []) new.now.bytes
            → SurvivesBeside c new.now self.old self.new result }
        ensures err { IfErr result (Refuses self.old self.new) }
        ensures later { self.old.faults ≤ self.new.faults }
    {
        self.reserved = None;
        let bytes = new.log.bytes();
        let size = bytes.len() as u64;
        let place = place_beside(&mut self.log, self.segment.place, size)?;
        self.log.write_beside(place, bytes)?;
        let end = place + size - 1;
        let segment = Segment {
            place,
            base: new.number,
        };
        Ok(Written { segment, end })
    }

    /// The segment is the log in use from now on. What was in use is dead. It takes no memory, and calls no device.
    pub fn use_segment(&mut self, written: Written)
        requires due { self.old.due ≡ written.segment.base + 1 }
        ensures wal { self.new ≡ record self.old { format = Two; end = written.end; count = 1; segment = written.segment; reserved = None } }
        ensures stores { (c : Cut) → IsBeside self.old c written → StoresCut self.new c [] }
    {
        let Written { segment, end } = written;
        self.log.move_to(Format::Two, end, 1);
        self.segment = segment;
        self.reserved = None;
    }

    /// The segment that was written does not come into use. No device is called.
    pub fn give_up(&self, written: Written) -> Segment
        ensures { result ≡ written.segment }
    {
        let Written { segment, end: _end } = written;
        segment
    }
}
