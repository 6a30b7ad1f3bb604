ghost use Rattle.std.specs.Prelude.{◌≡◌, ◌↔◌, ◌≤◌, ◌++◌, ℕ, List, [], true, length, map, IfOk};
ghost use Rattle.std.specs.Arc.{arc_value};
ghost use Rattle.wp_model.specs.Covered.{GivesStore, IsCovered, is_among};
ghost use Rattle.wp_model.specs.Flushed.{later_versions};
ghost use Rattle.wp_merge.specs.Merge.{joined};
ghost use Rattle.wp_cover.specs.Sources.{all_of, AreFixed};

use crate::decisions::Decisions;
use crate::present::{are_part, has_undecided, has_undone};
use crate::shown::gives_store;
use crate::sources::Sources;
use std::alloc::{AllocError, Global};
use std::sync::Arc;
use wp_history::History;
use wp_model::{Seq, Versions};
use wp_table::Table;

/// Whether a reader finds what the store has, at each of the numbers.
fn gives_listed<'a>(
    alloc: Global,
    decisions: &'a Decisions<'_>,
    sources: &Sources<'a>,
    numbers: &[Seq],
) -> Result<bool, AllocError>
    requires from { (n : ℕ) → is_among numbers.now n ≡ true → sources.now.history.now.base ≤ n }
    requires flushed { sources.now.history.now.base ≤ sources.now.flushed }
    requires same { sources.now.history.now.entries ≡ decisions.now }
    ensures { IfOk result (λ yes. (yes ≡ true) ↔ ((key : List ℕ) (n : ℕ) → is_among numbers.now n ≡ true → GivesStore (all_of sources.now) decisions.now key n)) }
{
    for n in numbers {
        if !gives_store(alloc, decisions, sources, *n)? {
            return Ok(false);
        }
    }
    Ok(true)
}

/// Whether a reader finds what the store has, at each number from one on.
fn gives_later<'a>(
    alloc: Global,
    decisions: &'a Decisions<'_>,
    sources: &Sources<'a>,
    from: Seq,
) -> Result<bool, AllocError>
    requires from { sources.now.history.now.base ≤ from }
    requires flushed { sources.now.history.now.base ≤ sources.now.flushed }
    requires same { sources.now.history.now.entries ≡ decisions.now }
    ensures { IfOk result (λ yes. (yes ≡ true) ↔ ((key : List ℕ) (n : ℕ) → from ≤ n → n ≤ length decisions.now → GivesStore (all_of sources.now) decisions.now key n)) }
{
    let last = sources.history.published();
    let mut n = from;
    while n <= last {
        if !gives_store(alloc, decisions, sources, n)? {
            return Ok(false);
        }
        n += 1;
    }
    Ok(true)
}

fn are_covering(
    alloc: Global,
    sources: &Sources<'_>,
    numbers: &[Seq],
    from: Seq,
) -> Result<bool, AllocError>
    requires numbers { (n : ℕ) → is_among numbers.now n ≡ true → sources.now.history.now.base ≤ n }
    requires from { sources.now.history.now.base ≤ from }
    requires flushed { sources.now.history.now.base ≤ sources.now.flushed }
    requires fixed { AreFixed sources.now.history.now (all_of sources.now) }
    ensures { IfOk result (λ yes. (yes ≡ true) ↔ IsCovered (all_of sources.now) sources.now.history.now.entries numbers.now from) }
{
    let is_part = are_part(alloc, sources)?;
    if !is_part {
        return Ok(false);
    }
    if !has_undecided(sources) {
        return Ok(false);
    }
    if !has_undone(sources) {
        return Ok(false);
    }
    let decisions = Decisions::of(alloc, sources.history)?;
    if !gives_listed(alloc, &decisions, sources, numbers)? {
        return Ok(false);
    }
    gives_later(alloc, &decisions, sources, from)
}

/// Whether the versions cover the history: a reader finds what the store has, at each of the numbers and at each from
/// `from` on, and none is missing that a decision still to come needs. A number past the history is as its last one. All of them
/// are from the history's base on, and the versions of fixed numbers up to it are known to be the history's.
pub fn covers(
    alloc: Global,
    history: &History,
    versions: &Versions,
    numbers: &[Seq],
    from: Seq,
) -> Result<bool, AllocError>
    requires numbers { (n : ℕ) → is_among numbers.now n ≡ true → history.now.base ≤ n }
    requires from { history.now.base ≤ from }
    requires fixed { AreFixed history.now versions.now }
    ensures { IfOk result (λ yes. (yes ≡ true) ↔ IsCovered versions.now history.now.entries numbers.now from) }
{
    let sources = Sources {
        history,
        list: versions,
        tables: &[],
        flushed: history.published(),
    };
    are_covering(alloc, &sources, numbers, from)
}

/// Whether the tables' versions, with those of the entries above the flushed number, cover the history for a reader at its
/// end. Of several versions with one key and number the first table's counts. The tables are read where they are, and no
/// list is made of their versions: what it takes beside them grows with the number of keys alone.
pub fn tables_cover(
    alloc: Global,
    history: &History,
    flushed: Seq,
    tables: &[Arc<Table>],
) -> Result<bool, AllocError>
    requires flushed { history.now.base ≤ flushed }
    requires fixed { AreFixed history.now (joined (map arc_value tables.now) ++ later_versions history.now.entries flushed) }
    ensures { IfOk result (λ yes. (yes ≡ true) ↔ IsCovered (joined (map arc_value tables.now) ++ later_versions history.now.entries flushed) history.now.entries [] (length history.now.entries)) }
{
    let none = Versions::of(Vec::new(alloc));
    let sources = Sources {
        history,
        list: &none,
        tables,
        flushed,
    };
    are_covering(alloc, &sources, &[], history.published())
}
