//! What the write turn guards: the history with its pending record, and the log.
ghost use Rattle.std.specs.Prelude.{◌≡◌, ◌≢◌, ◌+◌, ◌≤◌, ◌<◌, true, false, List, [], ◌∷◌, ◌++◌, length, None, IfOk, IfErr, OnOk, OnErr};
ghost use Rattle.wp_model.specs.declared.entry.Entry.{Entry};
ghost use Rattle.wp_model.specs.Changed.{conflict};
ghost use Rattle.wp_model.specs.Legal.{IsLegal, log_end, undone_last};
ghost use Rattle.wp_cuts.specs.Cut.{Cut, IsCut};
ghost use Rattle.wp_outside.specs.Disk.{images};
ghost use Rattle.wp_outside.specs.Faults.{Rose};
ghost use Rattle.wp_fields.specs.declared.format.Format.TheVariants.{Two};
ghost use Rattle.wp_entry.specs.Record.{last_number};
ghost use Rattle.wp_wal.specs.Segment.{base_of};
ghost use Rattle.wp_wal.specs.Wal.{StoresCut};
ghost use Rattle.wp_core.specs.Conditions.{NoneNext};
ghost use Rattle.wp_core.specs.Effects.{with_entry};
ghost use Rattle.wp_model.specs.Record.{IsOneRecord};
ghost use Rattle.wp_core.specs.Images.{LogTells};
ghost use Rattle.wp_core.specs.States.{writes};
ghost use Rattle.wp_parts.specs.Log.{HasOneMore, IsLog, KeepsAcknowledged, LeavesHistory, LeavesHistoryOrNext, MayRenew, IsPlaceOf, IsSegmentOf, IsWaiting, WaitsApart, log_state, open_ending, spells, with_logged, with_lost, with_next, with_segment};

use crate::base::end_of;
use crate::turn_value::TurnValue;
use std::alloc::{AllocError, Global};
use std::marker::Model;
use std::mem;
use std::snapshot::Snapshot as Ghost;
use wp_fields::Format;
use wp_gatelog::AppendError;
use wp_history::History;
use wp_model::{Entry, Key, Segment, Seq};
use wp_outside::{Disk, Failed};
use wp_rule::WordSeat;
use wp_wal::{NewSegment, Wal, Written};

/// The history, with the record that is pending, and the log. Clauses see the state of the machine that it is, the log, and
/// the log as it was when this value was made.
///
/// A record is made pending with all the memory that it will need. From then on it is appended, and its entries join the
/// history one by one; or it is dropped.
///
/// A segment of the log is made ready with all the memory that it needs. It is written beside the log while nothing is pending, and then
/// the log moves there; or the log is stopped, and takes no entry any more.
pub struct Log<D: Disk> {
    alloc: Global,
    wal: Wal<D>,
    history: History,
    pending: Vec<Entry>,
    logged: bool,
    closed: bool,
    stopped: bool,
    failed: Ghost<Vec<Entry>>,
    /// A segment that was written beside the one in use, and did not come into use.
    next: Option<Segment>,
    first: Ghost<Wal<D>>,
}

impl<D: Disk> Model for Log<D> {
    ghost use Rattle.wp_parts.specs.Log.{LogState, log_state, IsKept};

    ghost Value = { LogState };

    ghost view = { λ l. log_state l.wal l.first.value l.history.entries l.pending.items l.logged (record { closed = l.closed; stopped = l.stopped; failed = l.failed.value.items; next = l.next }) };

    ghost invariant = { λ l. IsKept (log_state l.wal l.first.value l.history.entries l.pending.items l.logged (record { closed = l.closed; stopped = l.stopped; failed = l.failed.value.items; next = l.next })) l.history.base l.history.room };
}

/// For the proof alone: a history is legal.
fn shows_legal(history: &History)
    ensures { IsLegal history.now.entries }
{
    history.later();
}

impl<D: Disk> Log<D> {
    /// The log as an opening gives it, with nothing pending.
    pub fn new(alloc: Global, wal: Wal<D>, history: History) -> Log<D>
        requires base { history.base ≡ wal.segment.base }
        requires stores { (c : Cut) × StoresCut wal c [] × IsCut history.entries c }
        requires running { wal.closed ≡ false }
        ensures { result ≡ log_state wal wal history.entries [] false open_ending }
    {
        shows_legal(&history);
        let pending = Vec::new(alloc);
        Log {
            alloc,
            failed: Ghost::of(&pending),
            first: Ghost::of(&wal),
            wal,
            history,
            pending,
            logged: false,
            closed: false,
            stopped: false,
            next: None,
        }
    }

    /// The history, without what is pending. Its base is the log's as it was opened.
    pub fn history(&self) -> &History
        ensures entries { result.now.entries ≡ self.now.state.history }
        ensures base { result.now.base ≡ self.now.first.segment.base }
    {
        &self.history
    }

    /// The number of the last entry of the history.
    pub fn published(&self) -> Seq
        ensures value { result ≡ length self.now.state.history }
        ensures few { result < log_end }
    {
        self.history.published()
    }

    /// The version of the log: what is appended is of it.
    pub fn format(&self) -> Format
        ensures { result ≡ self.now.wal.format }
    {
        self.wal.format()
    }

    /// The base of the log, in the segment in use.
    pub fn base(&self) -> Seq
        ensures { result ≡ self.now.state.segment.base }
    {
        self.wal.segment_in_use().base
    }

    /// The base of the log as it was opened.
    pub fn opened_base(&self) -> Seq
        ensures { result ≡ self.now.first.segment.base }
    {
        self.history.base()
    }

    /// The greatest number above n of an entry of the history that changes the key, if there is one. It goes through entries only
    /// down from the number that was the last when it was first asked, or when memory was wanting for what it knows since then.
    pub fn changed_after(&mut self, key: &Key, n: Seq) -> Option<Seq>
        requires { self.old.first.segment.base ≤ n }
        ensures same { self.new ≡ self.old }
        ensures last { result ≡ conflict self.old.state.history key.now n }
    {
        self.history.changed_after(self.alloc, key, n)
    }

    /// The entries that are pending.
    pub fn pending(&self) -> &[Entry]
        ensures { result.now ≡ self.now.state.pending }
    {
        &self.pending
    }

    /// Whether it takes no entry any more: its device has failed, or it was stopped.
    pub fn is_closed(&self) -> bool
        ensures { result ≡ self.now.state.closed }
    {
        self.closed
    }

    /// Makes the entries pending, which are one record and may come next, and takes all the memory that they need. Where it is
    /// wanting they come back. Their numbers are those of entries in the log's version.
    pub fn reserve(&mut self, entries: Vec<Entry>) -> Result<(), Vec<Entry>>
        requires running { self.old.state.closed ≡ false }
        requires nothing { self.old.state.pending ≡ [] }
        requires one { IsOneRecord entries.items }
        requires legal { IsLegal (self.old.state.history ++ entries.items) }
        requires within { length self.old.state.history + length entries.items ≤ last_number self.old.wal.format }
        ensures ok { OnOk result (self.new.state ≡ record self.old.state { pending = entries.items; logged = false }) }
        ensures reserved { OnOk result (self.new.wal ≡ record self.old.wal { reserved = self.new.wal.reserved }) }
        ensures err { IfErr result (λ back. (back ≡ entries) × (self.new ≡ self.old)) }
        ensures first { self.new.first ≡ self.old.first }
    {
        let Ok(()) = self.history.reserve(entries.len()) else {
            return Err(entries);
        };
        let Ok(()) = self.wal.reserve(&entries) else {
            return Err(entries);
        };
        self.pending = entries;
        self.logged = false;
        Ok(())
    }

    /// Appends the pending record to the log, which this seat has out: it holds no turn but the write turn. It takes no memory. After
    /// a fault of the device the log is closed for good, and may have the record or not.
    pub fn append(&mut self, seat: &WordSeat<TurnValue<D>>) -> Result<(), Failed>
        requires alone { seat.now.me.0.held ≡ writes self.old.state ∷ [] }
        requires running { self.old.state.closed ≡ false }
        requires some { self.old.state.pending ≢ [] }
        requires unlogged { self.old.state.logged ≡ false }
        ensures ok { OnOk result (self.new.state ≡ with_logged self.old.state) }
        ensures counted { OnOk result (HasOneMore self.old self.new) }
        ensures err { OnErr result (self.new.state ≡ with_lost self.old.state) }
        ensures cause { OnErr result (Rose self.old.wal.faults self.new.wal.faults) }
        ensures unfailed { OnOk result (self.new.wal.faults ≡ self.old.wal.faults) }
        ensures later { self.old.wal.faults ≤ self.new.wal.faults }
        ensures id { self.new.wal.id ≡ self.old.wal.id }
        ensures format { self.new.wal.format ≡ self.old.wal.format }
        ensures first { self.new.first ≡ self.old.first }

        ensures passed { LeavesHistoryOrNext self.old self.new }
        ensures durable { KeepsAcknowledged self.old self.new }
    {
        match self.wal.append() {
            Ok(()) => {
                self.logged = true;
                Ok(())
            }
            Err(AppendError::DiskFault) => {
                self.closed = true;
                self.failed = Ghost::of(&self.pending);
                Err(Failed)
            }
            Err(AppendError::Closed(_)) => unreachable!(),
        }
    }

    /// Puts the first of the pending entries into the history. It takes no memory but for the last changes of keys, which are let go
    /// where it is wanting.
    pub fn publish(&mut self)
        requires some { self.old.state.pending ≢ [] }
        requires logged { self.old.state.logged ≡ true }
        ensures { (entry : Entry) (others : List Entry) → self.old.state.pending ≡ entry ∷ others
            → self.new ≡ record self.old { state = with_entry self.old.state entry others } }
    {
        let entry = self.pending.remove(0);
        self.history.push(entry);
    }

    /// Takes back what is pending, which was not logged.
    pub fn drop_pending(&mut self) -> Vec<Entry>
        requires { self.old.state.logged ≡ false }
        ensures entries { result.items ≡ self.old.state.pending }
        ensures table { self.new ≡ record self.old { state = record self.old.state { pending = [] } } }
    {
        mem::replace(&mut self.pending, Vec::new(self.alloc))
    }

    /// How many prepares are undecided.
    pub fn undecided_count(&self) -> usize
        ensures { result ≡ length (base_of self.now.state.history).carried }
    {
        self.history.undecided().len()
    }

    /// Takes the memory of a segment of the log that begins where the history ends, with the prepares that are undecided there.
    pub fn segment(&self) -> Result<NewSegment, AllocError>
        requires { undone_last self.now.state.history ≡ None }
        ensures { IfOk result (IsSegmentOf self.now) }
    {
        let segment = self.wal.segment(&end_of(self.alloc, &self.history)?)?;
        Ok(segment)
    }

    /// Writes the segment beside the one in use, and puts it on the device for good. It takes no memory. Until it is used, or the log is
    /// stopped with it, nothing else is called. After a fault of the device the log is closed for good.
    pub fn write_segment(&mut self, segment: &NewSegment) -> Result<Written, Failed>
        requires may { MayRenew self.old.state }
        requires segment { IsSegmentOf self.old segment.now }
        ensures ok { OnOk result (self.new.state ≡ self.old.state) }
        ensures waits { IfOk result (λ written. WaitsApart self.old self.new written) }
        ensures place { IfOk result (λ written. IsPlaceOf self.old segment.now written.segment.place) }
        ensures err { OnErr result (self.new.state ≡ record self.old.state { closed = true }) }
        ensures cause { OnErr result (Rose self.old.wal.faults self.new.wal.faults) }
        ensures unfailed { OnOk result (self.new.wal.faults ≡ self.old.wal.faults) }
        ensures later { self.old.wal.faults ≤ self.new.wal.faults }
        ensures id { self.new.wal.id ≡ self.old.wal.id }
        ensures format { self.new.wal.format ≡ self.old.wal.format }
        ensures first { self.new.first ≡ self.old.first }

        ensures passed { LeavesHistory self.old self.new }
        ensures durable { KeepsAcknowledged self.old self.new }
    {
        match self.wal.write_segment(segment) {
            Ok(written) => Ok(written),
            Err(AppendError::DiskFault) => {
                self.closed = true;
                Err(Failed)
            }
            Err(AppendError::Closed(_)) => unreachable!(),
        }
    }

    /// The segment that was written is the one in use from now on. The device is not called.
    pub fn use_segment(&mut self, written: Written)
        requires running { self.old.state.closed ≡ false }
        requires nothing { self.old.state.pending ≡ [] }
        requires waits { IsWaiting self.old written }
        ensures table { self.new.state ≡ with_segment self.old.state written.segment }
        ensures device { (self.new.wal.moments ≡ self.old.wal.moments) × (self.new.wal.faults ≡ self.old.wal.faults) × (self.new.wal.id ≡ self.old.wal.id) }
        ensures format { self.new.wal.format ≡ Two }
        ensures first { self.new.first ≡ self.old.first }
    {
        self.wal.use_segment(written);
    }

    /// Takes no entry any more: the devices of the tables failed before a segment was written. The device is not called.
    pub fn stop(&mut self)
        requires running { self.old.state.closed ≡ false }
        requires nothing { self.old.state.pending ≡ [] }
        ensures { self.new ≡ record self.old { state = record self.old.state { closed = true; stopped = true } } }
    {
        self.closed = true;
        self.stopped = true;
    }

    /// The same behind the write of a segment, which the edit may name whose install failed: what a crash leaves has it too.
    pub fn stop_with(&mut self, written: Written)
        requires running { self.old.state.closed ≡ false }
        requires nothing { self.old.state.pending ≡ [] }
        requires waits { IsWaiting self.old written }
        ensures { self.new ≡ record self.old { state = record (with_next self.old.state written.segment) { closed = true; stopped = true } } }
    {
        self.next = Some(self.wal.give_up(written));
        self.closed = true;
        self.stopped = true;
    }

    /// For the proof alone: a segment that was written waits, and what a crash leaves of the device has it too.
    pub fn shows_waiting(&self, written: &Written)
        requires { IsWaiting self.now written.now }
        ensures { LogTells (images self.now.wal.moments) (spells self.now) (with_next self.now.state written.now.segment) }
    {
        let _ = written;
        let _ = &self.wal;
    }

    /// For the proof alone: what a crash leaves of the device is as the state says, and no other segment waits.
    pub fn devices_agree(&self)
        ensures tells { LogTells (images self.now.wal.moments) (spells self.now) self.now.state }
        ensures next { NoneNext self.now.state }
        ensures log { IsLog self.now }
    {
        let _ = &self.wal;
    }

    /// The log, and the history.
    pub fn into_parts(self) -> (Wal<D>, History)
        ensures wal { result.0 ≡ self.wal }
        ensures base { result.1.base ≡ self.first.segment.base }
        ensures history { result.1.entries ≡ self.state.history }
        ensures log { IsLog self }
    {
        let Log {
            alloc: _alloc,
            wal,
            history,
            pending: _pending,
            logged: _logged,
            closed: _closed,
            stopped: _stopped,
            failed: _failed,
            next: _next,
            first: _first,
        } = self;
        (wal, history)
    }
}

// Written out, so that no crate above proves anew how all that it holds is let go.
impl<D: Disk + Drop> Drop for Log<D> {
    fn drop(self) {
        let Self {
            alloc: _alloc,
            wal: _wal,
            history: _history,
            pending: _pending,
            logged: _logged,
            closed: _closed,
            stopped: _stopped,
            failed: _failed,
            next: _next,
            first: _first,
        } = self;
    }
}
