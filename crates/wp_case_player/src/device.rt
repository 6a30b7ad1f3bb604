//! What a case says of a device.

use crate::bytes::{Named, bytes_of};
use crate::crash::push_images;
use crate::play::{Faults, SOUND};
use crate::report::Report;

/// A device as a run begins, and as it has to end. Where its clauses give several bytes or calls, the run is made with each in turn.
#[derive(Drop)]
pub(crate) struct Device {
    name: &'static str,
    /// The bytes that it begins with in turn; with none it has those that the run before left.
    images: Vec<Vec<u8>>,
    /// The calls that fail in turn, the first and the last one; 0 for none.
    fails: (usize, usize),
    /// The call before which it comes to the gate; 0 for none.
    comes: u64,
    /// The bytes that it has to end with.
    due: Option<Vec<u8>>,
}

impl Device {
    pub(crate) fn new(report: &Report, name: &'static str) -> Device {
        Device {
            name,
            images: Vec::new(report.alloc),
            fails: (0, 0),
            comes: 0,
            due: None,
        }
    }

    /// Reads `BYTES to BYTES`: what a crash may leave.
    fn read_images(&mut self, report: &mut Report, names: &[Named<'_>], range: &str) {
        let Some((old, new)) = range.split_once(" to ") else {
            report.understands_not();
            return;
        };
        let old = bytes_of(report, names, old);
        let new = bytes_of(report, names, new);
        push_images(report, &mut self.images, (&old, &new), 1);
    }

    /// Reads `fails at 10`, `fails at 10 to 13`, `comes at 10`, `is BYTES`, `from BYTES to BYTES` or `BYTES`.
    pub(crate) fn read(&mut self, report: &mut Report, names: &[Named<'_>], words: &str) {
        if let Some(calls) = words.strip_prefix("fails at ") {
            let (first, last) = calls.split_once(" to ").unwrap_or((calls, calls));
            self.fails = (report.number(first), report.number(last));
        } else if let Some(call) = words.strip_prefix("comes at ") {
            self.comes = report.number(call) as u64;
        } else if let Some(due) = words.strip_prefix("is ") {
            self.due = Some(bytes_of(report, names, due));
        } else if let Some(range) = words.strip_prefix("from ") {
            self.read_images(report, names, range);
        } else {
            let image = bytes_of(report, names, words);
            report.keep(&mut self.images, image);
        }
    }

    /// The bytes that it begins with that time, where the run before left these.
    pub(crate) fn begun(&self, report: &mut Report, left: &[u8], time: usize) -> Vec<u8> {
        let mut begun = Vec::new(report.alloc);
        match self.images.get(time).or(self.images.last()) {
            Some(image) => report.push(&mut begun, image),
            None => report.push(&mut begun, left),
        }
        begun
    }

    pub(crate) fn faults(&self, time: usize) -> Faults {
        let (first, last) = self.fails;
        Faults {
            fails: first.saturating_add(time).min(last) as u64,
            comes: self.comes,
            ..SOUND
        }
    }

    /// Whether the run is not to be made once more for it.
    pub(crate) fn is_last(&self, time: usize) -> bool {
        let (first, last) = self.fails;
        self.images.len() <= time.saturating_add(1) && last.saturating_sub(first) <= time
    }

    /// It may have to end with other bytes than these; or with those that it began with, where devices have to stay as they were.
    pub(crate) fn check(&self, report: &mut Report, stays: bool, begun: &[u8], left: &[u8]) {
        let is_due = match &self.due {
            Some(due) => left == due.as_slice(),
            None => !stays || left == begun,
        };
        if !is_due {
            report.tell("other bytes are left of the ", self.name.as_bytes());
        }
    }
}
