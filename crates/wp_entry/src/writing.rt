ghost use Rattle.std.specs.Prelude.{◌≡◌, ◌<◌, ◌≤◌, ◌^◌, true, ◌++◌, OnOk};
ghost use Rattle.std.specs.List.{flat_map, list_all, AllByRecursion};
ghost use Rattle.wp_entry.specs.Record.{last_number, named_bytes, entries_bytes, record_bytes, is_entry, NamesEarlier, FormRecord, IsRecord};

use crate::layout::{COMMIT, GROUP, PREPARE, ROLLBACK, WRITE};
use std::alloc::AllocError;
use wp_encoding::{push_batch, push_word};
use wp_fields::{Format, push_number, push_u8};
use wp_model::{Entry, Seq};

/// The number that a Commit names.
#[tactic(auto, using(crate::proofs::Grammar::last_fits))]
fn push_named(
    out: &mut Vec<u8>,
    format: Format,
    first: Seq,
    commit: &Entry,
) -> Result<(), AllocError>
    requires small { first ≤ last_number format }
    requires earlier { NamesEarlier first commit.now }
    ensures pushed { OnOk result (out.new.items ≡ out.old.items ++ named_bytes format commit.now) }
{
    match commit {
        Entry::Commit(p) => push_number(out, format, *p),
        _ => Ok(()),
    }
}

fn push_all_named(
    out: &mut Vec<u8>,
    format: Format,
    first: Seq,
    commits: &[Entry],
) -> Result<(), AllocError>
    requires small { first ≤ last_number format }
    requires earlier { AllByRecursion (NamesEarlier first) commits.now }
    ensures pushed { OnOk result (out.new.items ≡ out.old.items ++ flat_map (named_bytes format) commits.now) }
{
    for commit in commits {
        push_named(out, format, first, commit)?;
    }
    Ok(())
}

/// The kind, and what the entries of that kind hold.
#[tactic(auto, using(crate::proofs::Grammar::last_fits, crate::proofs::Grammar::commits_in_range))]
fn push_entries(
    out: &mut Vec<u8>,
    format: Format,
    first: Seq,
    entries: &[Entry],
) -> Result<(), AllocError>
    requires { FormRecord format first entries.now }
    ensures pushed { OnOk result (out.new.items ≡ out.old.items ++ entries_bytes format entries.now) }
    ensures in_range { OnOk result (list_all is_entry entries.now ≡ true) }
{
    match entries {
        [Entry::Write(batch)] => {
            push_u8(out, WRITE)?;
            push_batch(out, batch)
        }
        [Entry::Prepare(name, batch)] => {
            push_u8(out, PREPARE)?;
            push_word(out, name)?;
            push_batch(out, batch)
        }
        [Entry::Commit(p)] => {
            push_u8(out, COMMIT)?;
            push_number(out, format, *p)
        }
        [Entry::Undo(p, batch), Entry::Close(_)] => {
            push_u8(out, ROLLBACK)?;
            push_number(out, format, *p)?;
            push_batch(out, batch)
        }
        [Entry::Commit(_), Entry::Commit(_), ..] => {
            push_u8(out, GROUP)?;
            push_u8(out, entries.len() as u8)?;
            push_all_named(out, format, first, entries)
        }
        _ => unreachable!(),
    }
}

/// Puts the one spelling of the record that the entries are, in that version of the format, at the end. The first of
/// them has the number `first`.
#[tactic(auto, using(crate::proofs::Grammar::last_fits))]
pub fn push_record(
    out: &mut Vec<u8>,
    format: Format,
    first: Seq,
    entries: &[Entry],
) -> Result<(), AllocError>
    requires { FormRecord format first entries.now }
    ensures record { OnOk result (IsRecord format first entries.now) }
    ensures pushed { OnOk result (out.new.items ≡ out.old.items ++ record_bytes format first entries.now) }
{
    push_number(out, format, first)?;
    push_entries(out, format, first, entries)
}
