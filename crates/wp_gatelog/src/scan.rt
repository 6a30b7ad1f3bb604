//! Reading the records of a log.
//!
//! No byte is used that was read before its gate was seen open. So a gate is looked at first: that of the first record
//! with the head, each other one with the record before it. A record is read whole in one read, with the gate behind it,
//! and where it isn't there whole, that read saw the device's end.

ghost use Rattle.std.specs.Prelude.{◌≡◌, ◌⊎◌, ℕ, ◌+◌, ◌<◌, ◌≤◌, ◌^◌, [], ◌∷◌, ◌++◌, List, length, take, drop, vec_len, IfOk, IfErr, OnOk};
ghost use Rattle.wp_outside.specs.Disk.{IfKnown, Looks};
ghost use Rattle.wp_gatelog.specs.Errors.{FaultRose, IsOutside};
ghost use Rattle.wp_gatelog.specs.Patched.{Shows, ReadsTo};
ghost use Rattle.wp_gatelog.specs.Scanning.{IsNext, IsUnfinished, IsWholeAt, HasRead, IsReadFault, RefusedBy};

use crate::error::LogError;
use crate::gate::{CLOSED, GateByte};
use crate::piece::Piece;
use crate::stored_record::StoredRecord;
use std::alloc::{AllocError, Global};
use wp_fields::Fields;
use wp_outside::{Disk, Peek};

/// How many bytes a gate and the length after it take.
const START_LEN: u64 = 9;

/// How many bytes are read at first; most records are among them whole.
const PIECE: u64 = 4096;

/// No memory has so many bytes.
const MOST: u64 = 1 << 62;

/// The records of a log, as they were found.
#[derive(Drop)]
pub(crate) struct Found {
    pub records: Vec<StoredRecord>,

    /// The last record's gate.
    pub last: Option<GateByte>,

    /// The place of the first closed gate.
    pub end: u64,
}

/// What is at a gate.
#[derive(Clone, Copy)]
pub(crate) enum Next {
    Closed,

    /// The bytes end before the gate, or before the gate behind its record. With it there would be at least so many, up to
    /// the greatest `u64`.
    Short { whole: u64 },

    /// A whole record of so many bytes, and a further gate.
    Open { gate: u8, len: u64 },
}

/// Reads the records after the head of a log, from the first one's gate at `start` on, up to the first closed gate. `id` is
/// the head's, `first` the gate that was read with it. Of a read `reach` bytes behind a record are used: one where others may write, the next gate.
pub(crate) fn read_records<P: Peek>(
    alloc: Global,
    disk: &mut P,
    start: u64,
    id: u32,
    first: u8,
    reach: usize,
) -> Result<Found, LogError>
    requires { 1 ≤ reach }
    ensures found { IfOk result (λ found. IfKnown (P.moments disk.old) (λ m. Shows start (first ∷ []) m
        → ReadsTo start (P.moments disk.old) (P.moments disk.new)
        (λ text. HasRead start text (0 ∷ []) found.records.items found.last found.end))) }
    ensures refused { IfErr result (λ why. IfKnown (P.moments disk.old) (λ m. Shows start (first ∷ []) m
        → RefusedBy start id (P.moments disk.old) (P.moments disk.new) why)) }
    ensures places { IfOk result (λ found. (vec_len found.records ≤ found.end) × (found.end < 2 ^ 62)) }
    ensures looks { Looks (P.moments disk.old) (P.moments disk.new) (P.is_alone disk.old) (P.is_alone disk.new) }
    ensures fault { IfErr result (FaultRose (P.faults disk.old) (P.faults disk.new)) }
    ensures later { P.faults disk.old ≤ P.faults disk.new }
    ensures unfailed { OnOk result (P.faults disk.new ≡ P.faults disk.old) }
{
    let mut records = Vec::new(alloc);
    let mut last = None;
    let mut end = start;
    let mut piece = Piece::of(vec![in alloc; first]?);
    'gates: while end < MOST {
        match read_next(alloc, disk, end, &mut piece)? {
            Next::Closed => return Ok(Found { records, last, end }),
            Next::Short { .. } => return Err(LogError::Cut {
                index: records.len() as u64,
                id,
            }),
            Next::Open { gate, len } => {
                let size = take_record(alloc, &mut records, piece.rest(), len)?;
                last = Some(GateByte {
                    at: end,
                    byte: gate,
                });
                end += size;
                piece.pass(size as usize, reach);
            }
        }
    }
    Err(LogError::Memory)
}

/// Reads the records after the head of a disk's log: as many as one read shows whole are taken of it.
pub(crate) fn own_records<D: Disk>(
    alloc: Global,
    disk: &mut D,
    start: u64,
    id: u32,
    first: u8,
) -> Result<Found, LogError>
    ensures found { IfOk result (λ found. IfKnown (D.moments disk.old) (λ m. Shows start (first ∷ []) m
        → (following : List ℕ)
        × HasRead start (drop start m.reads) (0 ∷ following) found.records.items found.last found.end)) }
    ensures refused { IfErr result (λ why. IfKnown (D.moments disk.old) (λ m. Shows start (first ∷ []) m
        → IsReadFault id (drop start m.reads) why)) }
    ensures places { IfOk result (λ found. (vec_len found.records ≤ found.end) × (found.end < 2 ^ 62)) }
    ensures unchanged { D.moments disk.new ≡ D.moments disk.old }
    ensures fault { IfErr result (FaultRose (D.faults disk.old) (D.faults disk.new)) }
    ensures later { D.faults disk.old ≤ D.faults disk.new }
    ensures unfailed { OnOk result (D.faults disk.new ≡ D.faults disk.old) }
{
    read_records(alloc, disk, start, id, first, PIECE as usize)
}

/// What is at the gate at `at`, with which the piece begins. Where the piece has less than the record and the gate behind
/// it, it is read anew.
fn read_next<P: Peek>(
    alloc: Global,
    disk: &mut P,
    at: u64,
    piece: &mut Piece,
) -> Result<Next, LogError>
    requires { at < 2 ^ 62 }
    ensures found { IfOk result (IsNext piece.new) }
    ensures shown { IfOk result (λ _. IfKnown (P.moments disk.old) (Shows at piece.old)
        → IfKnown (P.moments disk.new) (IsWholeAt at piece.new)) }
    ensures kept { IfOk result (λ _. ((piece.new ≡ piece.old) × (P.moments disk.new ≡ P.moments disk.old))
        ⊎ IsUnfinished piece.old) }
    ensures looks { Looks (P.moments disk.old) (P.moments disk.new) (P.is_alone disk.old) (P.is_alone disk.new) }
    ensures refused { IfErr result (IsOutside (P.faults disk.old) (P.faults disk.new)) }
    ensures later { P.faults disk.old ≤ P.faults disk.new }
    ensures unfailed { OnOk result (P.faults disk.new ≡ P.faults disk.old) }
{
    let known = next_in(piece.rest());
    let Next::Short { .. } = known else {
        return Ok(known);
    };
    *piece = Piece::of(read_whole(alloc, disk, at)?);
    Ok(next_in(piece.rest()))
}

/// Reads from the gate at `at` on so far that its record is there whole, with the gate behind it; or to the device's end,
/// or further.
fn read_whole<P: Peek>(alloc: Global, disk: &mut P, at: u64) -> Result<Vec<u8>, LogError>
    requires { at < 2 ^ 62 }
    ensures found { IfOk result (λ bytes. IfKnown (P.moments disk.new) (IsWholeAt at bytes.items)) }
    ensures looks { Looks (P.moments disk.old) (P.moments disk.new) (P.is_alone disk.old) (P.is_alone disk.new) }
    ensures refused { IfErr result (IsOutside (P.faults disk.old) (P.faults disk.new)) }
    ensures later { P.faults disk.old ≤ P.faults disk.new }
    ensures unfailed { OnOk result (P.faults disk.new ≡ P.faults disk.old) }
{
    let mut size = PIECE;
    'sizes: while size < MOST {
        let mut bytes = vec![in alloc; 0u8; size as usize]?;
        let read = disk.read_at(at, &mut bytes)?;
        bytes.truncate(read);
        if (read as u64) < size {
            return Ok(bytes);
        }
        let Next::Short { whole } = next_in(&bytes) else {
            return Ok(bytes);
        };
        let left = disk.len()?.saturating_sub(at);
        size = whole.min(left + 1).max(size + 1);
    }
    Err(LogError::Memory)
}

/// What begins these bytes.
fn next_in(bytes: &[u8]) -> Next
    ensures { IsNext bytes.now result }
{
    let mut fields = Fields::of(bytes);
    let Some(gate) = fields.u8() else {
        return Next::Short {
            whole: START_LEN + 1,
        };
    };
    if gate == CLOSED {
        return Next::Closed;
    }
    let Some(len) = fields.u64() else {
        return Next::Short {
            whole: START_LEN + 1,
        };
    };
    if fields.left() as u64 <= len {
        return Next::Short {
            whole: len.saturating_add(START_LEN + 1),
        };
    }
    Next::Open { gate, len }
}

/// Puts the record of so many bytes, behind the gate and the length that begin these, at the end of the records. Returns how
/// many bytes it takes in a log, with its gate and its length.
fn take_record(
    alloc: Global,
    records: &mut Vec<StoredRecord>,
    bytes: &[u8],
    len: u64,
) -> Result<u64, AllocError>
    requires { 9 + len ≤ length bytes.now }
    ensures taken { OnOk result (records.new.items ≡ records.old.items ++ take len (drop 9 bytes.now) ∷ []) }
    ensures count { OnOk result (vec_len records.new ≡ vec_len records.old + 1) }
    ensures size { IfOk result (λ size. size ≡ 9 + len) }
    ensures small { IfOk result (λ size. size < 2 ^ 63 + 9) }
{
    let start = START_LEN as usize;
    let record = bytes[start..start + len as usize].to_vec(alloc)?;
    let size = START_LEN + record.len() as u64;
    records.push(StoredRecord::of(record))?;
    Ok(size)
}
