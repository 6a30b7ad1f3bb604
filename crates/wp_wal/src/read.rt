//! Reading what records spell: a base, if there is one, and the entries behind it.
ghost use Rattle.std.specs.Prelude.{◌≡◌, ◌↔◌, true, ◌+◌, ◌-◌, ◌≤◌, ◌<◌, ◌∷◌, ◌++◌, [], length, IfOk, IfErr, OnOk};
ghost use Rattle.wp_cuts.specs.Cut.{carried_of};
ghost use Rattle.wp_cuts.specs.LegalCut.{prepares_of};
ghost use Rattle.wp_model.specs.Legal.{log_end};
ghost use Rattle.wp_history.specs.Holders.{Holds};
ghost use Rattle.wp_history.specs.Outline.{cut_in};
ghost use Rattle.wp_wal.specs.Spelling.{AreCut};
ghost use Rattle.wp_wal.specs.Reading.{AreRefusedEntries, BeginsWith, IsBaseCause, IsBaseOf, IsReading, IsRecordCause, IsRefusedEntry, IsRefusedRecord, IsTold, MayCome, TakesRecord};

use crate::error::WalError;
use std::alloc::{AllocError, Global};
use std::collections::BTreeMap;
use wp_entry::{RecordError, read_base, read_record};
use wp_fields::Format;
use wp_gatelog::StoredRecord;
use wp_history::{Holders, HoldersError, Outline};
use wp_model::{Entry, Seq};

/// What was read so far, and who has the names and the keys of what it leaves undecided.
#[derive(Drop)]
struct Reading {
    outline: Outline,
    holders: Holders,
}

/// Whether the entry may come next, as far as a log tells: what an undo restores is known where there is no base. If it may, the
/// holders are those behind it then.
fn may_come(alloc: Global, reading: &mut Reading, entry: &Entry) -> Result<bool, AllocError>
    requires full { reading.old.outline.entries ≡ prepares_of (cut_in reading.old.outline) }
    requires holds { Holds (carried_of reading.old.outline.entries) reading.old.holders }
    ensures outline { reading.new.outline ≡ reading.old.outline }
    ensures may { IfOk result (λ may. (may ≡ true) ↔ MayCome (cut_in reading.old.outline) entry.now) }
    ensures holds { IfOk result (λ may. may ≡ true → Holds (carried_of (reading.old.outline.entries ++ entry.now ∷ [])) reading.new.holders) }
{
    let outline = &reading.outline;
    let may = outline.note(&mut reading.holders, entry)?;
    if !may {
        return Ok(false);
    }
    if outline.base() > 0 {
        return Ok(true);
    }
    let store = BTreeMap::new(alloc);
    Ok(outline.restores_prior(&store, entry, outline.published()))
}

/// Puts the entry behind the others, if it may come there: else the error has its number.
fn take_entry(alloc: Global, reading: &mut Reading, entry: Entry) -> Result<(), WalError>
    requires told { IsReading reading.old.outline reading.old.holders }
    requires few { length reading.old.outline.entries + 1 < log_end }
    requires room { 1 ≤ reading.old.outline.room }
    ensures told { OnOk result (IsReading reading.new.outline reading.new.holders) }
    ensures base { reading.new.outline.base ≡ reading.old.outline.base }
    ensures entries { OnOk result (reading.new.outline.entries ≡ reading.old.outline.entries ++ entry ∷ []) }
    ensures room { OnOk result (reading.new.outline.room ≡ reading.old.outline.room - 1) }
    ensures err { IfErr result (IsRefusedEntry (cut_in reading.old.outline) entry) }
{
    let may = may_come(alloc, reading, &entry)?;
    if !may {
        let number = reading.outline.published() + 1;
        return Err(WalError::Illegal { number });
    }
    reading.outline.push(entry);
    Ok(())
}

/// Puts the entries behind the others, up to the first that may not come there: the error has its number.
fn take_entries(alloc: Global, reading: &mut Reading, entries: Vec<Entry>) -> Result<(), WalError>
    requires told { IsReading reading.old.outline reading.old.holders }
    requires few { length reading.old.outline.entries + length entries.items < log_end }
    requires room { length entries.items ≤ reading.old.outline.room }
    ensures told { OnOk result (IsReading reading.new.outline reading.new.holders) }
    ensures base { reading.new.outline.base ≡ reading.old.outline.base }
    ensures ok { OnOk result (reading.new.outline.entries ≡ reading.old.outline.entries ++ entries.items) }
    ensures err { IfErr result (AreRefusedEntries (cut_in reading.old.outline) entries.items) }
{
    for entry in entries {
        take_entry(alloc, reading, entry)?;
    }
    Ok(())
}

/// Puts the entries behind the others that the record with this index is.
fn take_record(
    alloc: Global,
    format: Format,
    reading: &mut Reading,
    index: u64,
    bytes: &[u8],
) -> Result<(), WalError>
    requires { IsReading reading.old.outline reading.old.holders }
    ensures told { OnOk result (IsReading reading.new.outline reading.new.holders) }
    ensures ok { OnOk result (TakesRecord format (cut_in reading.old.outline) (cut_in reading.new.outline) bytes.now) }
    ensures err { IfErr result (IsRefusedRecord format (cut_in reading.old.outline) index bytes.now) }
{
    let due = reading.outline.published() + 1;
    let entries = match read_record(alloc, bytes, format, due) {
        Ok(entries) => entries,
        Err(RecordError::Memory) => return Err(WalError::Memory),
        Err(why) => return Err(WalError::BadRecord { index, why }),
    };
    reading.outline.reserve(entries.len())?;
    take_entries(alloc, reading, entries)
}

/// The base that the record is, without entries behind it. Two carried prepares with one name, or with one key, are illegal by the
/// number of the later one.
fn take_base(alloc: Global, bytes: &[u8]) -> Result<Reading, WalError>
    ensures told { IfOk result (λ reading. IsReading reading.outline reading.holders) }
    ensures ok { IfOk result (λ reading. IsBaseOf (cut_in reading.outline) bytes.now) }
    ensures err { IfErr result (IsBaseCause bytes.now) }
{
    let base = match read_base(alloc, bytes) {
        Ok(base) => base,
        Err(RecordError::Memory) => return Err(WalError::Memory),
        Err(why) => return Err(WalError::BadRecord { index: 0, why }),
    };
    let holders = match Holders::of(alloc, &base.carried) {
        Ok(holders) => holders,
        Err(HoldersError::Memory) => return Err(WalError::Memory),
        Err(HoldersError::Collision(number)) => return Err(WalError::Illegal { number }),
    };
    let outline = Outline::from_base(alloc, base.number, base.carried)?;
    Ok(Reading { outline, holders })
}

/// The reading that begins without a base.
fn without_base(alloc: Global, outline: Outline) -> Reading
    requires { (outline.base ≡ 0) × (outline.entries ≡ []) }
    ensures outline { result.outline ≡ outline }
    ensures told { IsReading result.outline result.holders }
{
    let holders = Holders::new(alloc);
    Reading { outline, holders }
}

/// What stands before the records of entries, and how many records that takes.
fn begin(
    alloc: Global,
    format: Format,
    place: u64,
    records: &[StoredRecord],
) -> Result<(Reading, usize), WalError>
    ensures told { IfOk result (λ begun. IsReading begun.0.outline begun.0.holders) }
    ensures ok { IfOk result (λ begun. BeginsWith format place records.now begun.1 (cut_in begun.0.outline)) }
    ensures err { IfErr result (IsRecordCause format place records.now) }
{
    let Some(first) = records.first() else {
        if place > 0 {
            return Err(WalError::BadRecord {
                index: 0,
                why: RecordError::Short,
            });
        }
        return Ok((without_base(alloc, Outline::new(alloc)), 0));
    };
    match format {
        Format::One => {
            let outline = Outline::with_capacity(alloc, records.len())?;
            Ok((without_base(alloc, outline), 0))
        }
        Format::Two => Ok((take_base(alloc, first.bytes())?, 1)),
    }
}

/// What the records of a log of this version at that place spell. Most records have one entry, so without a base it begins with
/// room for so many.
pub(crate) fn outline_of(
    alloc: Global,
    format: Format,
    place: u64,
    records: &[StoredRecord],
) -> Result<Outline, WalError>
    ensures told { IfOk result IsTold }
    ensures ok { IfOk result (λ outline. AreCut format place records.now (cut_in outline)) }
    ensures err { IfErr result (IsRecordCause format place records.now) }
{
    let (mut reading, first) = begin(alloc, format, place, records)?;
    for i in first..records.len() {
        take_record(alloc, format, &mut reading, i as u64, records[i].bytes())?;
    }
    Ok(reading.outline)
}
