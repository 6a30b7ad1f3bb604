//! Finding the log that is opened, and then making or repairing it.

ghost use Rattle.std.specs.Prelude.{◌≡◌, ℕ, ◌<◌, ◌≤◌, ◌^◌, [], List, length, take, drop, IfOk, IfErr};
ghost use Rattle.wp_outside.specs.Disk.{IfKnown, added, after_sync};
ghost use Rattle.wp_outside.specs.Faults.{HasCause};
ghost use Rattle.wp_gatelog.specs.Changes.{BringsTo};
ghost use Rattle.wp_gatelog.specs.Errors.{HasLogCause};
ghost use Rattle.wp_gatelog.specs.Heads.{BeginsLog};
ghost use Rattle.wp_gatelog.specs.Left.{LeavesSynced};
ghost use Rattle.wp_gatelog.specs.Log.{IsAtRest};
ghost use Rattle.wp_gatelog.specs.Moments.{IsSynced};
ghost use Rattle.wp_gatelog.specs.Opening.{IsRefused, Repairs};
ghost use Rattle.wp_gatelog.specs.Opens.{HasPlaces, IsFoundLog, WasFound, found_stamp};
ghost use Rattle.wp_gatelog.specs.Spelling.{IsUpTo, Stamp, stamped};

use crate::error::LogError;
use crate::head::{HEAD_LEN, Head, own_head};
use crate::make::make;
use crate::repair::repair;
use crate::scan::{Found, own_records};
use std::alloc::Global;
use wp_fields::Format;
use wp_outside::{Disk, Failed, own_len};

/// What was found where a log is opened.
#[derive(Drop)]
pub(crate) struct FoundLog {
    pub format: Format,
    pub id: u32,

    /// The head's gate, where a log was made.
    pub head: Option<u8>,

    /// How many bytes the disk has.
    pub len: u64,

    pub found: Found,
}

/// Syncs the disk, and reads the log that stands at `place`. One that was not made at place 0 is to be of the newest version, and no later
/// one is read.
pub(crate) fn find<D: Disk>(
    alloc: Global,
    disk: &mut D,
    place: u64,
    magic: [u8; 4],
    newest: Format,
    id: u32,
) -> Result<FoundLog, LogError>
    requires { length magic ≡ 4 }
    ensures found { IfOk result (λ log. IfKnown (D.moments disk.old) (λ m. IsFoundLog place magic (stamped newest id) m.reads log)) }
    ensures refused { IfErr result (λ why. IfKnown (D.moments disk.old) (λ m. IsRefused place magic newest m.reads why)) }
    ensures synced { IfOk result (λ _. D.moments disk.new ≡ added after_sync (D.moments disk.old)) }
    ensures left { IfErr result (LeavesSynced (D.moments disk.old) (D.moments disk.new)) }
    ensures places { IfOk result HasPlaces }
    ensures readable { IfOk result (λ log. IsUpTo newest log.format) }
    ensures cause { HasLogCause (D.faults disk.old) (D.faults disk.new) result }
{
    disk.sync()?;
    if place == 0 {
        return find_first(alloc, disk, magic, newest, id);
    }
    find_behind(alloc, disk, place, magic, newest)
}

/// The log at place 0.
fn find_first<D: Disk>(
    alloc: Global,
    disk: &mut D,
    magic: [u8; 4],
    newest: Format,
    id: u32,
) -> Result<FoundLog, LogError>
    requires { length magic ≡ 4 }
    ensures found { IfOk result (λ log. IfKnown (D.moments disk.old) (λ m. IsFoundLog 0 magic (stamped newest id) m.reads log)) }
    ensures refused { IfErr result (λ why. IfKnown (D.moments disk.old) (λ m. IsRefused 0 magic newest m.reads why)) }
    ensures unchanged { D.moments disk.new ≡ D.moments disk.old }
    ensures places { IfOk result HasPlaces }
    ensures readable { IfOk result (λ log. IsUpTo newest log.format) }
    ensures cause { HasLogCause (D.faults disk.old) (D.faults disk.new) result }
{
    match own_head(disk, 0, &magic, newest)? {
        Head::Unmade => {
            let len = own_len(disk)?;
            let found = Found {
                records: Vec::new(alloc),
                last: None,
                end: HEAD_LEN,
            };
            Ok(FoundLog {
                format: newest,
                id,
                head: None,
                len,
                found,
            })
        }
        Head::Bad => Err(LogError::BadHead),
        Head::Made {
            gate,
            format,
            id,
            first,
        } => find_made(alloc, disk, 0, gate, format, id, first),
    }
}

/// The log at a place above 0. The place is compared with the disk's length before anything is read there.
fn find_behind<D: Disk>(
    alloc: Global,
    disk: &mut D,
    place: u64,
    magic: [u8; 4],
    newest: Format,
) -> Result<FoundLog, LogError>
    requires magic { length magic ≡ 4 }
    requires place { 0 < place }
    ensures found { (id : ℕ) → IfOk result (λ log. IfKnown (D.moments disk.old) (λ m. IsFoundLog place magic (stamped newest id) m.reads log)) }
    ensures refused { IfErr result (λ why. IfKnown (D.moments disk.old) (λ m. IsRefused place magic newest m.reads why)) }
    ensures unchanged { D.moments disk.new ≡ D.moments disk.old }
    ensures places { IfOk result HasPlaces }
    ensures readable { IfOk result (λ log. IsUpTo newest log.format) }
    ensures cause { HasLogCause (D.faults disk.old) (D.faults disk.new) result }
{
    let len = own_len(disk)?;
    if len.saturating_sub(place) <= HEAD_LEN {
        return Err(LogError::BadHead);
    }
    match own_head(disk, place, &magic, newest)? {
        Head::Unmade | Head::Bad => Err(LogError::BadHead),
        Head::Made {
            gate,
            format,
            id,
            first,
        } => find_made(alloc, disk, place, gate, format, id, first),
    }
}

/// The log whose head at `place` was read.
fn find_made<D: Disk>(
    alloc: Global,
    disk: &mut D,
    place: u64,
    head: u8,
    format: Format,
    id: u32,
    first: u8,
) -> Result<FoundLog, LogError>
    requires { place ≤ 2 ^ 62 }
    ensures found { (magic : List ℕ) (asked : Stamp) → IfOk result (λ log. IfKnown (D.moments disk.old) (λ m.
        BeginsLog magic asked.format (stamped format id) head first (drop place m.reads) → IsFoundLog place magic asked m.reads log)) }
    ensures refused { (magic : List ℕ) (asked : Stamp) → IfErr result (λ why. IfKnown (D.moments disk.old) (λ m.
        BeginsLog magic asked.format (stamped format id) head first (drop place m.reads) → IsRefused place magic asked.format m.reads why)) }
    ensures unchanged { D.moments disk.new ≡ D.moments disk.old }
    ensures places { IfOk result HasPlaces }
    ensures format { IfOk result (λ log. log.format ≡ format) }
    ensures cause { HasLogCause (D.faults disk.old) (D.faults disk.new) result }
{
    let found = own_records(alloc, disk, place + HEAD_LEN, id, first)?;
    let len = own_len(disk)?;
    Ok(FoundLog {
        format,
        id,
        head: Some(head),
        len,
        found,
    })
}

/// Makes the log at place 0 where none was made, and repairs the one that was found at `place`.
pub(crate) fn settle<D: Disk>(
    disk: &mut D,
    place: u64,
    magic: [u8; 4],
    log: &FoundLog,
) -> Result<(), Failed>
    requires magic { length magic ≡ 4 }
    requires end { log.now.found.end ≤ 2 ^ 62 }
    ensures brings { (bytes : List ℕ) → WasFound place magic bytes log.now → IsSynced bytes (D.moments disk.old)
        → BringsTo place magic (Repairs place magic (found_stamp log.now) bytes)
        (IsAtRest magic (found_stamp log.now) log.now.found.end (take place bytes) [] log.now.found.records.items)
        (D.moments disk.old) (D.moments disk.new) result }
    ensures unknown { D.moments disk.old ≡ [] → D.moments disk.new ≡ [] }
    ensures cause { HasCause (D.faults disk.old) (D.faults disk.new) result }
{
    match log.head {
        None => make(disk, log.len, magic, log.format, log.id),
        Some(head) => repair(disk, place, log.len, head, &log.found),
    }
}
