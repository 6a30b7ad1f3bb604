//! An open write-ahead log.
ghost use Rattle.std.specs.Prelude.{◌≡◌, ◌+◌, ◌≤◌, List, None, Some, length, true, false, is_some, IfErr, IfSome, OnOk, OnErr};
ghost use Rattle.wp_model.specs.declared.entry.Entry.{Entry};
ghost use Rattle.wp_cuts.specs.Cut.{Cut};
ghost use Rattle.wp_outside.specs.Disk.{IfKnown};
ghost use Rattle.wp_entry.specs.Record.{FormRecord, IsRecord, last_number};
ghost use Rattle.wp_wal.specs.Wal.{LosesNothingAt, StoresCut, IsReserved, LeavesCut, AppendsNext, Appended, Refuses, reserved_of, wal_state};

use crate::reserved::Reserved;
use std::alloc::{AllocError, Global};
use std::marker::Model;
use wp_fields::Format;
use wp_gatelog::{AppendError, GateLog};
use wp_history::Outline;
use wp_model::{Entry, Segment, Seq};
use wp_outside::Disk;

/// The first four bytes after the gate of the log's head.
pub(crate) const LOG_MAGIC: [u8; 4] = *b"WPLG";

/// An open log whose records spell a history from a base on. Clauses see its disk's moments and faults, its version and id,
/// where it ends, whether it is closed, how many records it has, the number that the next entry gets, the segment in use,
/// where it begins and its base, and the record that is reserved.
pub struct Wal<D: Disk> {
    pub(crate) alloc: Global,
    pub(crate) log: GateLog<D>,
    pub(crate) segment: Segment,
    due: Seq,
    pub(crate) reserved: Option<Reserved>,
}

impl<D: Disk> Model for Wal<D> {
    ghost use Rattle.wp_wal.specs.Wal.{WalState, wal_state, HasNumbers};

    ghost Value = { WalState };

    ghost view = { λ w. wal_state w.log w.segment w.due w.reserved };

    ghost invariant = { λ w. HasNumbers w.log.format w.due w.reserved };
}

impl<D: Disk> Wal<D> {
    /// The log at `place` that tells this outline.
    pub(crate) fn of(alloc: Global, log: GateLog<D>, place: u64, outline: &Outline) -> Wal<D>
        requires { length outline.now.entries ≤ last_number log.format }
        ensures { result ≡ wal_state log (record { place = place; base = outline.now.base }) (length outline.now.entries + 1) None }
    {
        let segment = Segment {
            place,
            base: outline.base(),
        };
        let due = outline.published() + 1;
        Wal {
            alloc,
            log,
            segment,
            due,
            reserved: None,
        }
    }

    /// The version in the log's head: what is appended is of it.
    pub fn format(&self) -> Format
        ensures { result ≡ self.now.format }
    {
        self.log.format()
    }

    /// Where the log in use begins, and its base.
    pub fn segment_in_use(&self) -> Segment
        ensures { result ≡ self.now.segment }
    {
        self.segment
    }

    /// The id in the log's head.
    pub fn id(&self) -> u32
        ensures { result ≡ self.now.id }
    {
        self.log.id()
    }

    /// Makes the record of the entries for the next append, in place of the one that was reserved. Their numbers are
    /// the next ones.
    pub fn reserve(&mut self, entries: &[Entry]) -> Result<(), AllocError>
        requires { FormRecord self.old.format self.old.due entries.now }
        ensures ok { OnOk result (self.new ≡ record self.old { reserved = Some (reserved_of self.old.format self.old.due entries.now) }) }
        ensures record { OnOk result (IsRecord self.old.format self.old.due entries.now) }
        ensures err { OnErr result (self.new ≡ self.old) }
    {
        self.reserved = Some(Reserved::of(self.alloc, self.log.format(), self.due, entries)?);
        Ok(())
    }

    /// Puts the reserved record into the log. It takes no memory. Whatever it answers, none is reserved
    /// afterwards; after a fault the log is closed, and is to be opened again.
    pub fn append(&mut self) -> Result<(), AppendError>
        requires { is_some self.old.reserved ≡ true }
        ensures appends { (c : Cut) (entries : List Entry) → IsReserved self.old c entries
            → AppendsNext c entries self.old self.new result }

        // What each crash at one moment would leave acknowledged, each crash at a later moment leaves too.
        ensures durable { (c : Cut) (next : List Entry) → StoresCut self.old c next
            → LosesNothingAt self.old.segment.place self.old.moments self.new.moments }
        ensures ok { OnOk result (IfSome self.old.reserved (Appended self.old self.new)) }
        ensures err { IfErr result (Refuses self.old self.new) }
        ensures later { self.old.faults ≤ self.new.faults }
    {
        let Some(reserved) = self.reserved.take() else {
            unreachable!()
        };
        self.log.append(reserved.frame())?;
        self.due += reserved.count();
        Ok(())
    }

    /// Gives the disk back.
    pub fn into_disk(self) -> D
        ensures moments { D.moments result ≡ self.moments }
        ensures faults { D.faults result ≡ self.faults }

        // Until an append has failed, a crash leaves the cut.
        ensures left { (c : Cut) (next : List Entry) → StoresCut self c next → self.closed ≡ false
            → IfKnown self.moments (LeavesCut self.id self.segment.place c) }
    {
        let Wal {
            log,
            alloc: _alloc,
            segment: _segment,
            due: _due,
            reserved: _reserved,
        } = self;
        log.into_disk()
    }
}

// Written out, so that no crate above proves anew how all that it holds is let go.
impl<D: Disk + Drop> Drop for Wal<D> {
    fn drop(self) {
        let Self {
            alloc: _alloc,
            log: _log,
            segment: _segment,
            due: _due,
            reserved: _reserved,
        } = self;
    }
}
