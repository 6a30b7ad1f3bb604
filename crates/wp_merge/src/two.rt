//! Two sorted lists as one.
ghost use Rattle.std.specs.Prelude.{◌≡◌, [], ◌∷◌, IfOk, MatchOption};
ghost use Rattle.wp_merge.specs.Merge.{front_order, merge_of};

use std::alloc::{AllocError, Global};
use std::cmp::Ordering;
use std::collections::VecDeque;
use wp_model::Version;

/// Which list has the version that comes next: `Less` for the first, `Greater` for the second, and `Equal` where
/// both have one of the same key and number.
fn next_of(first: &VecDeque<Version>, second: &VecDeque<Version>) -> Ordering
    ensures { result ≡ front_order first.now.items second.now.items }
{
    let Some(front) = first.front() else {
        return Ordering::Greater;
    };
    match second.front() {
        Some(other) => front.place_cmp(other),
        None => Ordering::Less,
    }
}

/// Takes the version that comes next. Of two of the same key and number it is the first list's, and the other goes
/// with it.
fn take_next(first: &mut VecDeque<Version>, second: &mut VecDeque<Version>) -> Option<Version>
    ensures { MatchOption result (merge_of first.old.items second.old.items ≡ []) (λ version. merge_of first.old.items second.old.items ≡ version ∷ merge_of first.new.items second.new.items) }
{
    match next_of(first, second) {
        Ordering::Less => first.pop_front(),
        Ordering::Equal => {
            second.pop_front();
            first.pop_front()
        }
        Ordering::Greater => second.pop_front(),
    }
}

/// The versions of both lists. Where one has none the other stays in the memory that it has.
pub(crate) fn merge_two(
    alloc: Global,
    mut first: VecDeque<Version>,
    mut second: VecDeque<Version>,
) -> Result<VecDeque<Version>, AllocError>
    ensures { IfOk result (λ merged. merged.items ≡ merge_of first.items second.items) }
{
    if first.is_empty() {
        return Ok(second);
    }
    if second.is_empty() {
        return Ok(first);
    }
    let mut merged = VecDeque::with_capacity(alloc, first.len() + second.len())?;
    while let Some(version) = take_next(&mut first, &mut second) {
        merged.push_back(version)?;
    }
    Ok(merged)
}
