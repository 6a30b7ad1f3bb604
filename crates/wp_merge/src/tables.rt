//! A list and a table as one list.
ghost use Rattle.std.specs.Prelude.{◌≡◌, true, [], ◌∷◌, List, IfOk, MatchOption};
ghost use Rattle.std.specs.List.{list_all};
ghost use Rattle.std.specs.Option.{option_map};
ghost use Rattle.wp_model.specs.declared.version.Version.{Version};
ghost use Rattle.wp_model.specs.Versions.{AreInOrder};
ghost use Rattle.wp_table.specs.Borrowed.{seen, with_next};
ghost use Rattle.wp_table.specs.Table.{has_words};
ghost use Rattle.wp_merge.specs.Merge.{front_order, merge_of};

use std::alloc::{AllocError, Global};
use std::cmp::Ordering;
use std::collections::VecDeque;
use wp_model::Version;
use wp_table::{All, Table, VersionRef};

/// Which has the version that comes next: `Less` for the list, `Greater` for the table, whose next version is `next`, and
/// `Equal` where both have one of the same key and number.
fn next_of(list: &VecDeque<Version>, next: Option<VersionRef<'_>>) -> Ordering
    ensures { (rest : List Version) → result ≡ front_order list.now.items (with_next (option_map seen next.entry) rest) }
{
    let Some(front) = list.front() else {
        return Ordering::Greater;
    };
    match next {
        Some(other) => VersionRef::of(front).place_cmp(&other),
        None => Ordering::Less,
    }
}

/// Takes a copy of the table's next version.
fn take_copy<'a>(
    alloc: Global,
    next: &mut Option<VersionRef<'a>>,
    rest: &mut All<'a>,
) -> Result<Option<Version>, AllocError>
    requires { list_all has_words (with_next (option_map seen next.old) rest.old) ≡ true }
    ensures taken { IfOk result (λ taken. MatchOption taken (with_next (option_map seen next.old) rest.old ≡ [])
        (λ version. with_next (option_map seen next.old) rest.old ≡ version ∷ with_next (option_map seen next.new) rest.new)) }
    ensures in_range { list_all has_words (with_next (option_map seen next.new) rest.new) ≡ true }
{
    let Some(version) = *next else {
        return Ok(None);
    };
    let copy = version.copy(alloc)?;
    *next = rest.advance();
    Ok(Some(copy))
}

/// Takes the version that comes next. Of two of the same key and number it is the list's, and the table's is passed by.
fn take_next<'a>(
    alloc: Global,
    list: &mut VecDeque<Version>,
    next: &mut Option<VersionRef<'a>>,
    rest: &mut All<'a>,
) -> Result<Option<Version>, AllocError>
    requires { list_all has_words (with_next (option_map seen next.old) rest.old) ≡ true }
    ensures taken { IfOk result (λ taken. MatchOption taken (merge_of list.old.items (with_next (option_map seen next.old) rest.old) ≡ [])
        (λ version. merge_of list.old.items (with_next (option_map seen next.old) rest.old) ≡ version ∷ merge_of list.new.items (with_next (option_map seen next.new) rest.new))) }
    ensures in_range { list_all has_words (with_next (option_map seen next.new) rest.new) ≡ true }
{
    match next_of(list, *next) {
        Ordering::Less => Ok(list.pop_front()),
        Ordering::Equal => {
            *next = rest.advance();
            Ok(list.pop_front())
        }
        Ordering::Greater => take_copy(alloc, next, rest),
    }
}

/// The versions of the list and of the table, which is read where it is: what stays of it is copied. More of them than a
/// length can be are answered as want of memory, since no memory holds so many.
pub(crate) fn merge_table(
    alloc: Global,
    mut list: VecDeque<Version>,
    table: &Table,
) -> Result<VecDeque<Version>, AllocError>
    ensures merged { IfOk result (λ merged. merged.items ≡ merge_of list.items table.now) }
    ensures in_order { AreInOrder table.now }
{
    let mut rest = table.all();
    let mut next = rest.advance();
    let most = list.len().checked_add(table.count()).ok_or(AllocError)?;
    let mut merged = VecDeque::with_capacity(alloc, most)?;
    while let Some(version) = take_next(alloc, &mut list, &mut next, &mut rest)? {
        merged.push_back(version)?;
    }
    Ok(merged)
}
