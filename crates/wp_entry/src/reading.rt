ghost use Rattle.std.specs.Prelude.{◌≡◌, ◌≤◌, List, [], IfOk, IfErr, IfSome, Ok, Err};
ghost use Rattle.wp_model.specs.declared.entry.Entry.{Entry};
ghost use Rattle.wp_fields.specs.Reading.{Gives};
ghost use Rattle.wp_entry.specs.declared.error.RecordError.{RecordError};
ghost use Rattle.wp_entry.specs.Errors.{record_fault};
ghost use Rattle.wp_entry.specs.Faults.{IsRecordFault};
ghost use Rattle.wp_entry.specs.Record.{last_number, IsRecord, record_bytes};
ghost use Rattle.wp_entry.specs.Reading.{after_number, write_at, prepare_at, earlier_at, commit_at, rollback_at, commits_after, count_at, group_at, entries_at, record_at};

use crate::error::RecordError;
use crate::layout::{COMMIT, GROUP, PREPARE, ROLLBACK, WRITE, last_number};
use std::alloc::Global;
use wp_encoding::{read_batch, read_word};
use wp_fields::{Fields, Format};
use wp_model::{Entry, MOST_COMMITS, Seq};

#[tactic(auto, unfolding(crate::specs::Reading::after_number))]
fn due_number(fields: &mut Fields<'_>, format: Format, due: Seq) -> Result<(), RecordError>
    ensures rest { Gives record_fault (λ _. fields.new) result (after_number format due fields.old) }
    ensures small { IfOk result (λ _. due ≤ last_number format) }
{
    let found = fields.number(format).ok_or(RecordError::Short)?;
    if found != due {
        return Err(RecordError::BadNumber { found, due });
    }
    if due > last_number(format) {
        return Err(RecordError::BadWord);
    }
    Ok(())
}

#[tactic(auto, unfolding(crate::specs::Reading::write_at))]
fn one_write(alloc: Global, fields: &mut Fields<'_>) -> Result<Vec<Entry>, RecordError>
    ensures { Gives record_fault (λ entries. (entries.items, fields.new)) result (write_at fields.old) }
{
    let write = Entry::Write(read_batch(alloc, fields)?);
    Ok(vec![in alloc; write]?)
}

#[tactic(auto, unfolding(crate::specs::Reading::prepare_at))]
fn one_prepare(alloc: Global, fields: &mut Fields<'_>) -> Result<Vec<Entry>, RecordError>
    ensures { Gives record_fault (λ entries. (entries.items, fields.new)) result (prepare_at fields.old) }
{
    let name = read_word(alloc, fields)?;
    let prepare = Entry::Prepare(name, read_batch(alloc, fields)?);
    Ok(vec![in alloc; prepare]?)
}

/// The number of an entry before the one with the number that is due.
#[tactic(auto, unfolding(crate::specs::Reading::earlier_at))]
fn earlier(fields: &mut Fields<'_>, format: Format, due: Seq) -> Result<Seq, RecordError>
    ensures { Gives record_fault (λ p. (p, fields.new)) result (earlier_at format due fields.old) }
{
    let p = fields.number(format).ok_or(RecordError::Short)?;
    if p == 0 || p >= due {
        return Err(RecordError::BadWord);
    }
    Ok(p)
}

#[tactic(auto, unfolding(crate::specs::Reading::commit_at))]
fn one_commit(
    alloc: Global,
    fields: &mut Fields<'_>,
    format: Format,
    due: Seq,
) -> Result<Vec<Entry>, RecordError>
    ensures { Gives record_fault (λ entries. (entries.items, fields.new)) result (commit_at format due fields.old) }
{
    let commit = Entry::Commit(earlier(fields, format, due)?);
    Ok(vec![in alloc; commit]?)
}

#[tactic(auto, unfolding(crate::specs::Reading::rollback_at))]
fn one_rollback(
    alloc: Global,
    fields: &mut Fields<'_>,
    format: Format,
    due: Seq,
) -> Result<Vec<Entry>, RecordError>
    ensures { Gives record_fault (λ entries. (entries.items, fields.new)) result (rollback_at format due fields.old) }
{
    if due >= last_number(format) {
        return Err(RecordError::BadWord);
    }
    let p = earlier(fields, format, due)?;
    let undo = Entry::Undo(p, read_batch(alloc, fields)?);
    Ok(vec![in alloc; undo, Entry::Close(p)]?)
}

/// How many Commits a group has, of which the first has the number that is due.
#[tactic(auto, unfolding(crate::specs::Reading::count_at))]
fn group_count(fields: &mut Fields<'_>, format: Format, due: Seq) -> Result<u8, RecordError>
    requires { due ≤ last_number format }
    ensures { Gives record_fault (λ count. (count, fields.new)) result (count_at format due fields.old) }
{
    let count = fields.u8().ok_or(RecordError::Short)?;
    if count < 2
        || usize::from(count) > MOST_COMMITS
        || due + u64::from(count) > last_number(format) + 1
    {
        return Err(RecordError::BadWord);
    }
    Ok(count)
}

fn all_commits(
    alloc: Global,
    fields: &mut Fields<'_>,
    format: Format,
    due: Seq,
    count: u8,
) -> Result<Vec<Entry>, RecordError>
    ensures { Gives record_fault (λ commits. (commits.items, fields.new)) result (commits_after count format due [] fields.old) }
{
    let mut commits = Vec::new(alloc);
    for _ in 0..count {
        let p = earlier(fields, format, due)?;
        commits.push(Entry::Commit(p))?;
    }
    Ok(commits)
}

#[tactic(auto, unfolding(crate::specs::Reading::group_at))]
fn one_group(
    alloc: Global,
    fields: &mut Fields<'_>,
    format: Format,
    due: Seq,
) -> Result<Vec<Entry>, RecordError>
    requires { due ≤ last_number format }
    ensures { Gives record_fault (λ entries. (entries.items, fields.new)) result (group_at format due fields.old) }
{
    let count = group_count(fields, format, due)?;
    all_commits(alloc, fields, format, due, count)
}

#[tactic(auto, unfolding(crate::specs::Reading::entries_at))]
fn entries(
    alloc: Global,
    fields: &mut Fields<'_>,
    format: Format,
    due: Seq,
    kind: u8,
) -> Result<Vec<Entry>, RecordError>
    requires { due ≤ last_number format }
    ensures { Gives record_fault (λ entries. (entries.items, fields.new)) result (entries_at format due kind fields.old) }
{
    match kind {
        WRITE => one_write(alloc, fields),
        PREPARE => one_prepare(alloc, fields),
        COMMIT => one_commit(alloc, fields, format, due),
        ROLLBACK => one_rollback(alloc, fields, format, due),
        GROUP => one_group(alloc, fields, format, due),
        other => Err(RecordError::BadKind(other)),
    }
}

#[tactic(auto, unfolding(crate::specs::Reading::record_at))]
fn record(
    alloc: Global,
    bytes: &[u8],
    format: Format,
    first: Seq,
) -> Result<Vec<Entry>, RecordError>
    ensures { Gives record_fault (λ entries. entries.items) result (record_at format first bytes.now) }
{
    let mut fields = Fields::of(bytes);
    due_number(&mut fields, format, first)?;
    let kind = fields.u8().ok_or(RecordError::Short)?;
    let entries = entries(alloc, &mut fields, format, first, kind)?;
    match fields.left() {
        0 => Ok(entries),
        extra => Err(RecordError::Extra(extra)),
    }
}

/// Reads the record of that version of the format whose first entry has the number `first`: the bytes are it, and
/// nothing follows.
pub fn read_record(
    alloc: Global,
    bytes: &[u8],
    format: Format,
    first: Seq,
) -> Result<Vec<Entry>, RecordError>
    // What is read is a record, and the bytes are its spelling.
    ensures found { IfOk result (λ entries. IsRecord format first entries.items
        × (bytes.now ≡ record_bytes format first entries.items)) }
    // What is spelled so is read, unless memory runs out.
    ensures only { (written : List Entry) → IsRecord format first written → bytes.now ≡ record_bytes format first written
        → Gives record_fault (λ entries. entries.items) result (Ok written) }
    // What is refused has that fault, and what has a fault is refused for it, unless memory runs out.
    ensures refused { IfErr result (λ error. IfSome (record_fault error) (λ fault. IsRecordFault format first bytes.now fault)) }
    ensures each_fault { (fault : RecordError) → IsRecordFault format first bytes.now fault
        → Gives record_fault (λ entries. entries.items) result (Err fault) }
    ensures exact { Gives record_fault (λ entries. entries.items) result (record_at format first bytes.now) }
{
    record(alloc, bytes, format, first)
}
