//! Repair a log that was read.

ghost use Rattle.std.specs.Prelude.{◌≡◌, ℕ, ◌+◌, ◌≤◌, ◌^◌, [], ◌∷◌, ◌++◌, List, length, drop};
ghost use Rattle.wp_outside.specs.Faults.{HasCause};
ghost use Rattle.wp_gatelog.specs.Changes.{BringsTo, Changes};
ghost use Rattle.wp_gatelog.specs.Log.{IsAtRest};
ghost use Rattle.wp_gatelog.specs.Repair.{IsReadLog, HasFront, Reopens, IsRepaired};
ghost use Rattle.wp_gatelog.specs.Moments.{IsSynced};
ghost use Rattle.wp_gatelog.specs.Spelling.{Stamp};

use crate::device::{cut_synced, write_synced};
use crate::gate::{GateByte, OPEN};
use crate::scan::Found;
use wp_outside::{Disk, Failed};

/// Cuts what follows the gate that ends the log at `place`, and opens its head's gate and the last record's gate wholly.
/// `len` is how many bytes the disk has, `head` the head's gate.
pub(crate) fn repair<D: Disk>(
    disk: &mut D,
    place: u64,
    len: u64,
    head: u8,
    found: &Found,
) -> Result<(), Failed>
    requires { found.now.end ≤ 2 ^ 62 }
    ensures repaired { (magic : List ℕ) (stamp : Stamp) (front bytes : List ℕ) → place ≡ length front
        → (log : IsReadLog front magic stamp head found.now.records.items found.now.last found.now.end len bytes)
        → IsSynced (front ++ bytes) (D.moments disk.old)
        → BringsTo (length front) magic (λ image. IsRepaired magic stamp head log.gated (drop (length front) image))
        (IsAtRest magic stamp found.now.end front [] found.now.records.items)
        (D.moments disk.old) (D.moments disk.new) result }
    ensures unknown { D.moments disk.old ≡ [] → D.moments disk.new ≡ [] }
    ensures cause { HasCause (D.faults disk.old) (D.faults disk.new) result }
{
    cut_rest(disk, found.end, len)?;
    let gate = GateByte {
        at: place,
        byte: head,
    };
    open_wholly(disk, gate)?;
    match found.last {
        Some(gate) => open_wholly(disk, gate),
        None => Ok(()),
    }
}

/// Cuts what follows the closed gate at `end`.
fn cut_rest<D: Disk>(disk: &mut D, end: u64, len: u64) -> Result<(), Failed>
    requires { end ≤ 2 ^ 62 }
    ensures changes { (first front following : List ℕ) → end ≡ length first + length front
        → len ≡ length first + length (front ++ 0 ∷ following)
        → IsSynced (first ++ (front ++ 0 ∷ following)) (D.moments disk.old)
        → Changes first (HasFront front) (front ++ 0 ∷ following) (front ++ 0 ∷ [])
        (D.moments disk.old) (D.moments disk.new) result }
    ensures unknown { D.moments disk.old ≡ [] → D.moments disk.new ≡ [] }
    ensures cause { HasCause (D.faults disk.old) (D.faults disk.new) result }
{
    if len.saturating_sub(end) <= 1 {
        return Ok(());
    }
    cut_synced(disk, end + 1)
}

/// Writes the gate as 01, where it is another byte.
fn open_wholly<D: Disk>(disk: &mut D, gate: GateByte) -> Result<(), Failed>
    ensures changes { (first front following : List ℕ) → gate.at ≡ length first + length front
        → IsSynced (first ++ (front ++ gate.byte ∷ following)) (D.moments disk.old)
        → Changes first (Reopens front gate.byte following) (front ++ gate.byte ∷ following) (front ++ 1 ∷ following)
        (D.moments disk.old) (D.moments disk.new) result }
    ensures unknown { D.moments disk.old ≡ [] → D.moments disk.new ≡ [] }
    ensures cause { HasCause (D.faults disk.old) (D.faults disk.new) result }
{
    if gate.byte == OPEN {
        return Ok(());
    }
    write_synced(disk, gate.at, &[OPEN])
}
