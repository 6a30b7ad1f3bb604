//! Versions, each read where it is.
ghost use Rattle.std.specs.Prelude.{◌≡◌, ◌≤◌, ◌<◌, Some, true, false, map};
ghost use Rattle.std.specs.Arc.{arc_value};
ghost use Rattle.std.specs.Option.{option_map, option_copied};
ghost use Rattle.wp_model.specs.Batch.{change_to};
ghost use Rattle.wp_model.specs.Decision.{decision_of, entry_version};
ghost use Rattle.wp_model.specs.Flushed.{later_versions};
ghost use Rattle.wp_model.specs.Versions.{version_at};
ghost use Rattle.wp_merge.specs.Merge.{joined};
ghost use Rattle.wp_cover.specs.Present.{place_cmp};
ghost use Rattle.wp_cover.specs.Sources.{all_of, is_fixed};

use std::cmp::Ordering;
use std::marker::Brand;
use std::sync::Arc;
use std::sync::ledger::{Blank, Ledger};
use wp_history::History;
use wp_model::{Batch, Entry, Key, Seq, Value, Version, Versions};
use wp_table::{Steps, Table};

/// Versions of which each is read where it is: those of a list, then those of tables, one after the other, then those of
/// the history's entries above the flushed number, which is not below its base. Of several with one key and number the first one counts.
#[derive(Drop)]
pub(crate) struct Sources<'a> {
    pub history: &'a History,
    pub list: &'a Versions,
    pub tables: &'a [Arc<Table>],
    pub flushed: Seq,
}

/// The bytes of the value, if there is one.
pub(crate) fn bytes_of<'a>(value: Option<&'a Value>) -> Option<&'a [u8]>
    ensures { option_copied result ≡ option_copied value.entry }
{
    match value {
        Some(value) => Some(value.bytes()),
        None => None,
    }
}

/// What the batch says of the key.
fn change_to<'a>(batch: &'a Batch, key: &[u8]) -> Option<Option<&'a [u8]>>
    ensures { option_map option_copied result ≡ change_to batch.now key.now }
{
    for change in batch.changes() {
        if change.key().bytes() == key {
            return Some(bytes_of(change.value()));
        }
    }
    None
}

/// Whether the number is one up to the base, and no prepare has it: its versions are those of the tables, and it is a write's.
#[tactic(auto, using(crate::proofs::Based::fixed_decides))]
pub(crate) fn is_fixed(history: &History, p: Seq) -> bool
    ensures value { result ≡ is_fixed history.now p }
    ensures decided { is_fixed history.now p ≡ true → decision_of history.now.entries p ≡ Some p }
{
    1 <= p && p <= history.base() && history.prepare_at(p).is_none()
}

/// The version of the key of the entry with that number, which is not fixed.
pub(crate) fn entry_version<'a>(
    history: &'a History,
    p: Seq,
    key: &[u8],
) -> Option<Option<&'a [u8]>>
    requires { is_fixed history.now p ≡ false }
    ensures { option_map option_copied result ≡ entry_version history.now.entries p key.now }
{
    if let Some((_, batch)) = history.prepare_at(p) {
        return change_to(batch, key);
    }
    match history.entry_at(p)? {
        Entry::Write(batch) | Entry::Prepare(_, batch) | Entry::Undo(_, batch) => {
            change_to(batch, key)
        }
        Entry::Commit(_) | Entry::Close(_) => None,
    }
}

/// How the version compares to the place of the key and the number.
fn place_cmp(version: &Version, key: &Key, number: Seq) -> Ordering
    ensures { result ≡ place_cmp key.now number version.now }
{
    version.key.cmp(key).then(number.cmp(&version.number))
}

/// The version of the key with that number, by halves.
fn version_at<'a>(versions: &'a Versions, key: &Key, number: Seq) -> Option<Option<&'a [u8]>>
    ensures { option_map option_copied result ≡ version_at versions.now key.now number }
{
    let list = versions.as_slice();
    match list.binary_search_by(|version| place_cmp(version, key, number)) {
        Ok(i) => Some(bytes_of(list[i].value.as_ref())),
        Err(_) => None,
    }
}

/// The version of the key with that number. The steps of the look-up are counted under the blank.
fn version_in_table<'a, L: Ledger>(
    table: &'a Table,
    key: &'a Key,
    number: Seq,
    blank: Blank,
) -> Option<Option<&'a [u8]>>
    requires name { blank.name ≡ L.name }
    requires parts { blank.parts ≡ L.parts }
    requires some { 0 < blank.parts }
    ensures { option_map option_copied result ≡ version_at table.now key.now number }
{
    let mut steps = Steps::<L>::new(blank);
    for version in table.versions(key, &mut steps) {
        if version.number == number {
            return Some(version.value);
        }
    }
    None
}

/// The version of the key with that number in the first table that has one.
fn version_in_tables<'a>(
    tables: &'a [Arc<Table>],
    key: &'a Key,
    number: Seq,
) -> Option<Option<&'a [u8]>>
    ensures { option_map option_copied result ≡ version_at (joined (map arc_value tables.now)) key.now number }
{
    for table in tables {
        let found = version_in_table::<Brand>(table, key, number, Blank::new(1));
        if found.is_some() {
            return found;
        }
    }
    None
}

/// The version of the key with that number, if it is above the flushed one.
fn later_version<'a>(
    history: &'a History,
    flushed: Seq,
    key: &Key,
    number: Seq,
) -> Option<Option<&'a [u8]>>
    requires { history.now.base ≤ flushed }
    ensures { option_map option_copied result ≡ version_at (later_versions history.now.entries flushed) key.now number }
{
    if number <= flushed {
        return None;
    }
    entry_version(history, number, key.bytes())
}

impl<'a> Sources<'a> {
    /// What counts under the key and the number.
    pub(crate) fn find<'b>(&'b self, key: &'b Key, number: Seq) -> Option<Option<&'b [u8]>>
        requires { self.now.history.now.base ≤ self.now.flushed }
        ensures { option_map option_copied result ≡ version_at (all_of self.now) key.now number }
    {
        let listed = version_at(self.list, key, number);
        if listed.is_some() {
            return listed;
        }
        let stored = version_in_tables(self.tables, key, number);
        if stored.is_some() {
            return stored;
        }
        later_version(self.history, self.flushed, key, number)
    }
}
