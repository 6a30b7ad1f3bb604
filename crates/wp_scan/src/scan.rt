ghost use Rattle.std.specs.Prelude.{◌≡◌, ℕ, List, IfOk, IfSome, OnOk, OnErr};
ghost use Rattle.wp_model.specs.declared.entry.Entry.{Entry};
ghost use Rattle.wp_model.specs.Rows.{rows, GivesFirst};
ghost use Rattle.wp_core.specs.Lists.{IsIn};
ghost use Rattle.wp_shared.specs.Calls.{Continues};
ghost use Rattle.wp_shared.specs.Seats.{IsFree, participant_of, seen_by};
ghost use Rattle.wp_scan.specs.Scan.{left_of, passed, GivesOn, IsShownAt};
ghost use Rattle.wp_scan.specs.Step.{given, IsStep, IsVersionOf};

use std::alloc::{AllocError, Global};
use std::marker::Model;
use std::sync::Wait;
use wp_model::{Key, Row, Seq, Value};
use wp_outside::Disk;
use wp_read::{KeyRow, Snapshot, next_row};
use wp_shared::{Seat, Shared};

/// A place in a range of keys, both ends of which belong to it.
pub struct Scan {
    alloc: Global,
    /// The key that was come to, or where the range begins.
    at: Key,
    /// Whether the key that was come to is passed.
    above: bool,
    to: Key,
    /// Whether nothing is left.
    over: bool,
}

/// What going on to the next key comes to.
enum Step {
    Row(Row),
    /// The key has no row.
    Passed,
    /// No key is left.
    End,
}

/// What is given of a key with this row. It has a copy of the key.
fn step_of(alloc: Global, key: &Key, row: Option<(Seq, Value)>) -> Result<Step, AllocError>
    ensures { IfOk result (λ step. step ≡ given key.now row) }
{
    let Some((number, value)) = row else {
        return Ok(Step::Passed);
    };
    Ok(Step::Row(Row {
        key: key.copy(alloc)?,
        number,
        value,
    }))
}

impl Model for Scan {
    ghost use Rattle.wp_scan.specs.Scan.{ScanState};

    ghost Value = { ScanState };

    ghost view = { λ s. record { at = s.at; above = s.above; to = s.to; over = s.over } };
}

impl Scan {
    /// The rows from one key to another, which both belong to the range. Where the first is above the second there are
    /// none. A prefix is scanned from itself to itself with `~` behind it up to 64 bytes, and all keys from `!` to 64
    /// times `~`.
    pub fn begin(alloc: Global, from: &Key, to: &Key) -> Result<Scan, AllocError>
        ensures { IfOk result (λ scan. (history : List Entry) (n : ℕ) → left_of history n scan ≡ rows history from.now to.now n) }
    {
        Ok(Scan {
            alloc,
            at: from.copy(alloc)?,
            above: false,
            to: to.copy(alloc)?,
            over: false,
        })
    }

    /// Passes the key that was come to. Its row, if it has one, is given in memory that is taken before.
    fn pass(&mut self, found: KeyRow) -> Result<Step, AllocError>
        ensures step { IfOk result (λ step. step ≡ given found.key found.row) }
        ensures ok { OnOk result (self.new ≡ passed found.key self.old) }
        ensures err { OnErr result (self.new ≡ self.old) }
    {
        let KeyRow { key, row } = found;
        let step = step_of(self.alloc, &key, row)?;
        self.at = key;
        self.above = true;
        Ok(step)
    }

    /// Goes on to the next key of the range, which is passed then.
    fn go_on<D: Disk + Drop, R: Wait>(
        &mut self,
        store: &Shared<D>,
        rt: &R,
        seat: &mut Seat<D>,
        snapshot: &Snapshot,
    ) -> Result<Step, AllocError>
        requires free { IsFree store.now.table seat.old }
        requires registered { IsIn snapshot.now seat.old.knows.participant.registered }
        ensures continues { Continues store.now seat.old seat.new (participant_of seat.old) }
        ensures same { participant_of seat.new ≡ participant_of seat.old }
        ensures step { IfOk result (IsStep (left_of (seen_by seat.old) snapshot.now.number self.old) (left_of (seen_by seat.old) snapshot.now.number self.new)) }
        ensures version { IfOk result (IsVersionOf (seen_by seat.old) snapshot.now.number) }
        ensures err { OnErr result (self.new ≡ self.old) }
    {
        if self.over {
            return Ok(Step::End);
        }
        let next = next_row(store, rt, seat, &self.at, self.above, &self.to, snapshot)?;
        let Some(found) = next else {
            self.over = true;
            return Ok(Step::End);
        };
        self.pass(found)
    }

    /// The first of the rows that are left, at the snapshot, or none where none is left, and so again at each further
    /// call. The store turn is held once for each key, and as in a `get`; no other turn is held for longer than a look.
    /// A key without a row is passed by at the cost of one with a row: those that were deleted and not compacted since,
    /// and those that are newer than the snapshot. A refused call may have passed such keys, and may be repeated: what
    /// is left is the same.
    pub fn next<D: Disk + Drop, R: Wait>(
        &mut self,
        store: &Shared<D>,
        rt: &R,
        seat: &mut Seat<D>,
        snapshot: &Snapshot,
    ) -> Result<Option<Row>, AllocError>
        requires free { IsFree store.now.table seat.old }
        requires registered { IsIn snapshot.now seat.old.knows.participant.registered }
        ensures continues { Continues store.now seat.old seat.new (participant_of seat.old) }
        ensures same { participant_of seat.new ≡ participant_of seat.old }
        // What was given is the first of what was left, and the others are left.
        ensures row { IfOk result (GivesFirst (left_of (seen_by seat.new) snapshot.now.number self.old) (left_of (seen_by seat.new) snapshot.now.number self.new)) }
        // So the rows that were given are what all rows begin with, and at the end all of them.
        ensures prefix { IfOk result (GivesOn (left_of (seen_by seat.new) snapshot.now.number self.old) (left_of (seen_by seat.new) snapshot.now.number self.new)) }
        // The number is that of a version of the key, with that value, that was committed at the snapshot; and the key is in range.
        ensures version { IfOk result (λ found. IfSome found (IsShownAt (seen_by seat.new) snapshot.now.number)) }
        ensures err { OnErr result (left_of (seen_by seat.new) snapshot.now.number self.new ≡ left_of (seen_by seat.new) snapshot.now.number self.old) }
    {
        for _ in rt.forever() {
            let step = self.go_on(store, rt, seat, snapshot)?;
            match step {
                Step::Row(row) => return Ok(Some(row)),
                Step::Passed => {}
                Step::End => return Ok(None),
            }
        }
        unreachable!()
    }
}

// Written out, so that no crate above proves anew how all that it holds is let go.
impl Drop for Scan {
    fn drop(self) {
        let Self {
            alloc: _alloc,
            at: _at,
            above: _above,
            to: _to,
            over: _over,
        } = self;
    }
}
