//! Making a log where there is none.

ghost use Rattle.std.specs.Prelude.{◌≡◌, ℕ, [], ◌∷◌, ◌++◌, List, length, OnOk};
ghost use Rattle.wp_outside.specs.Disk.{Goes, IfKnown, images, synced};
ghost use Rattle.wp_outside.specs.Faults.{HasCause};
ghost use Rattle.wp_gatelog.specs.Beside.{IsNoneOrWhole, IsWholeLog};
ghost use Rattle.wp_gatelog.specs.Changes.{BringsTo, Changes};
ghost use Rattle.wp_gatelog.specs.Moments.{IsSynced, Leaves};
ghost use Rattle.wp_gatelog.specs.Heads.{BeginsOpen, SpellsNone};
ghost use Rattle.wp_gatelog.specs.Spelling.{IsUnmade, Spells, Stamp, log_of, stamped};

use crate::device::{cut_synced, write_synced};
use crate::gate::{CLOSED, OPEN};
use crate::head::head_bytes;
use crate::whole::WholeLog;
use wp_fields::Format;
use wp_outside::{Disk, Failed};

/// Makes a log without records on a disk of so many bytes. Its head's gate stays closed until the rest of the head is
/// on the disk for good.
pub(crate) fn make<D: Disk>(
    disk: &mut D,
    len: u64,
    magic: [u8; 4],
    format: Format,
    id: u32,
) -> Result<(), Failed>
    ensures made { (before : List ℕ) → IsUnmade before → len ≡ length before → IsSynced before (D.moments disk.old)
        → BringsTo 0 magic (SpellsNone magic (stamped format id))
        (λ m. m ≡ synced (log_of magic (stamped format id) 1 [] ++ 0 ∷ []))
        (D.moments disk.old) (D.moments disk.new) result }
    ensures unknown { D.moments disk.old ≡ [] → D.moments disk.new ≡ [] }
    ensures cause { HasCause (D.faults disk.old) (D.faults disk.new) result }
{
    close_head(disk, len)?;
    open_head(disk, &head_bytes(magic, format, id))
}

/// Writes a whole log to an empty disk, in the order in which one without records is made: a closed gate, what follows it, and
/// then that gate, open, each put on the disk for good before the next. So a crash leaves no log, or all of it.
pub fn make_whole<D: Disk>(disk: &mut D, log: &WholeLog) -> Result<(), Failed>
    ensures spelled { (magic : List ℕ) (stamp : Stamp) (records : List (List ℕ)) → IsWholeLog magic stamp records log.now
        → IfKnown (D.moments disk.old) (λ m. m.reads ≡ [])
        → OnOk result ((image : List ℕ) → images (D.moments disk.new) image → Spells image magic stamp records) }
    ensures passed { (magic : List ℕ) (stamp : Stamp) (records : List (List ℕ)) → IsWholeLog magic stamp records log.now
        → IsSynced [] (D.moments disk.old)
        → Goes (Leaves (IsNoneOrWhole magic stamp records)) (D.moments disk.old) (D.moments disk.new) }
    ensures unknown { D.moments disk.old ≡ [] → D.moments disk.new ≡ [] }
    ensures cause { HasCause (D.faults disk.old) (D.faults disk.new) result }
{
    write_synced(disk, 0, &[CLOSED])?;
    open_head(disk, log.rest())
}

/// Writes what is to follow the closed gate that is all of the disk, and then opens that gate.
fn open_head<D: Disk>(disk: &mut D, rest: &[u8]) -> Result<(), Failed>
    ensures opened { (magic : List ℕ) → IsSynced (0 ∷ []) (D.moments disk.old)
        → BringsTo 0 magic (BeginsOpen rest.now) (λ m. m ≡ synced (1 ∷ rest.now)) (D.moments disk.old) (D.moments disk.new) result }
    ensures unknown { D.moments disk.old ≡ [] → D.moments disk.new ≡ [] }
    ensures cause { HasCause (D.faults disk.old) (D.faults disk.new) result }
{
    write_synced(disk, 1, rest)?;
    write_synced(disk, 0, &[OPEN])
}

/// Leaves a closed gate and nothing after it. A closed gate with bytes after it is not written again: they are cut.
fn close_head<D: Disk>(disk: &mut D, len: u64) -> Result<(), Failed>
    ensures changes { (before : List ℕ) → IsUnmade before → len ≡ length before → IsSynced before (D.moments disk.old)
        → Changes [] IsUnmade before (0 ∷ []) (D.moments disk.old) (D.moments disk.new) result }
    ensures unknown { D.moments disk.old ≡ [] → D.moments disk.new ≡ [] }
    ensures cause { HasCause (D.faults disk.old) (D.faults disk.new) result }
{
    if len <= 1 {
        return write_synced(disk, 0, &[CLOSED]);
    }
    cut_synced(disk, 1)
}
