ghost use Rattle.std.specs.Prelude.{◌≡◌, suc, true, false, [], ◌++◌, length, Some, None, IfOk, OnOk, option_map, unwrap_or};
ghost use Rattle.std.specs.Option.{option_copied};
ghost use Rattle.wp_model.specs.History.{entry_at, batch_at, prepared_batch};
ghost use Rattle.wp_judge.specs.Words.{numbers_of};
ghost use Rattle.wp_core.specs.Conditions.{NoneNext};
ghost use Rattle.wp_core.specs.Entries.{pair_by, pending_pair};
ghost use Rattle.wp_model.specs.Flushed.{first_segment};
ghost use Rattle.wp_machine.specs.Machine.{with_next};

use crate::copies::copy_entries;
use std::alloc::{AllocError, Global};
use std::marker::Model;
use std::snapshot::Snapshot;
use wp_model::{Batch, Entry, Segment, Seq};

/// The history and its log, with the segment that this is in, and the one that was written beside it, if one was. What is pending is
/// what is left of one record, the entry that comes next first.
pub struct WriteState {
    pub history: Vec<Entry>,
    pub pending: Vec<Entry>,
    pub logged: bool,
    pub log: Vec<Entry>,
    pub closed: bool,
    /// It was closed for the devices of the tables alone.
    pub stopped: bool,
    /// The record whose append failed. No step reads it.
    pub failed: Snapshot<Vec<Entry>>,
    pub segment: Segment,
    pub next: Option<Segment>,
}

impl Model for WriteState {
    ghost use Rattle.wp_core.specs.States.{WriteState};

    ghost Value = { WriteState };

    ghost view = { λ t. record { history = t.history.items; pending = t.pending.items; logged = t.logged; log = t.log.items; closed = t.closed; stopped = t.stopped; failed = t.failed.value.items; segment = t.segment; next = t.next } };
}

/// The version that the entry with that number decides, and that number.
pub(crate) fn pair_by(n: Seq, entry: &Entry) -> Option<(Seq, Seq)>
    ensures { result ≡ option_map numbers_of (pair_by n entry.now) }
{
    match entry {
        Entry::Write(_) | Entry::Undo(_, _) => Some((n, n)),
        Entry::Commit(p) | Entry::Close(p) => Some((*p, n)),
        Entry::Prepare(_, _) => None,
    }
}

impl WriteState {
    pub fn published(&self) -> Seq
        ensures { result ≡ length self.now.history }
    {
        self.history.len() as Seq
    }

    /// The number of the entry that comes next.
    pub fn next_number(&self) -> Result<Seq, AllocError>
        ensures { IfOk result (λ n. n ≡ suc (length self.now.history)) }
    {
        self.published().checked_add(1).ok_or(AllocError)
    }

    pub fn pending_pair(&self) -> Result<Option<(Seq, Seq)>, AllocError>
        ensures { IfOk result (λ pair. pair ≡ option_map numbers_of (pending_pair self.now.history self.now.pending)) }
    {
        let n = self.next_number()?;
        Ok(match self.pending.first() {
            Some(entry) => pair_by(n, entry),
            None => None,
        })
    }

    /// The first of the pending entries joins the history.
    pub fn publish(&mut self) -> Result<(), AllocError>
        ensures { OnOk result (self.new ≡ with_next self.old self.old.pending) }
    {
        if !self.pending.is_empty() {
            let entry = self.pending.remove(0);
            self.history.push(entry)?;
        }
        Ok(())
    }

    pub fn log_pending(&mut self, alloc: Global) -> Result<(), AllocError>
        ensures { OnOk result (self.new ≡ record self.old { logged = true; log = self.old.log ++ self.old.pending }) }
    {
        let mut logged = copy_entries(&self.pending, alloc)?;
        self.log.append(&mut logged)?;
        self.logged = true;
        Ok(())
    }

    /// No segment waits to come into use.
    pub fn none_next(&self) -> bool
        ensures { result ≡ true → NoneNext self.now }
    {
        self.next.is_none() || self.closed
    }

    /// A segment is written at this place, of the history up to the published number.
    pub fn write_segment(&mut self, place: u64)
        ensures { self.new ≡ record self.old { next = Some (record { place = place; base = length self.old.history }) } }
    {
        self.next = Some(Segment {
            place,
            base: self.published(),
        });
    }

    /// The next segment comes into use.
    pub fn use_segment(&mut self)
        ensures { self.new ≡ record self.old { segment = unwrap_or self.old.next self.old.segment; next = None } }
    {
        if let Some(segment) = self.next {
            self.segment = segment;
        }
        self.next = None;
    }

    pub fn close_log(&mut self)
        ensures { self.new ≡ record self.old { closed = true; failed = self.old.pending } }
    {
        self.failed = Snapshot::of(&self.pending);
        self.closed = true;
    }
}

/// The batch of the prepare with that number: an empty one where it is no prepare.
fn batch_of(entry: Option<&Entry>, alloc: Global) -> Result<Batch, AllocError>
    ensures { IfOk result (λ batch. batch ≡ prepared_batch (option_copied entry.entry)) }
{
    match entry {
        Some(Entry::Prepare(_, batch)) => batch.copy(alloc),
        _ => Ok(Batch::new(alloc)),
    }
}

/// The entry with that number, if there is one.
pub fn entry_at(entries: &[Entry], n: Seq) -> Option<&Entry>
    ensures { option_copied result ≡ entry_at entries.now n }
{
    let before = n.checked_sub(1)?;
    entries.get(usize::try_from(before).ok()?)
}

impl WriteState {
    pub fn batch_at(&self, p: Seq, alloc: Global) -> Result<Batch, AllocError>
        ensures { IfOk result (λ batch. batch ≡ batch_at self.now.history p) }
    {
        batch_of(entry_at(&self.history, p), alloc)
    }
}

impl WriteState {
    /// Nothing is pending, and the log spells these entries, in the segment that begins its device.
    pub fn of(entries: &[Entry], alloc: Global) -> Result<WriteState, AllocError>
        ensures { IfOk result (λ t. t ≡ record { history = entries.now; pending = []; logged = false; log = entries.now; closed = false; stopped = false; failed = []; segment = first_segment; next = None }) }
    {
        let none = Vec::new(alloc);
        Ok(WriteState {
            history: copy_entries(entries, alloc)?,
            pending: Vec::new(alloc),
            logged: false,
            log: copy_entries(entries, alloc)?,
            closed: false,
            stopped: false,
            failed: Snapshot::of(&none),
            segment: Segment { place: 0, base: 0 },
            next: None,
        })
    }
}

// Written out, so that no crate above proves anew how all that it holds is let go.
impl Drop for WriteState {
    fn drop(self) {
        let Self {
            history: _history,
            pending: _pending,
            logged: _logged,
            log: _log,
            closed: _closed,
            stopped: _stopped,
            failed: _failed,
            segment: _segment,
            next: _next,
        } = self;
    }
}
