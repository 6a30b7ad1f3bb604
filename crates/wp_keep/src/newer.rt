ghost use Rattle.std.specs.Prelude.{◌≡◌, ℕ, List, ◌||◌, ◌&&◌, Option, Some, None};
ghost use Rattle.std.specs.Str.{bytes_eq};
ghost use Rattle.wp_model.specs.Decision.{is_by};
ghost use Rattle.wp_keep.specs.Newer.{is_above};

use std::marker::Model;
use wp_model::{Key, Seq};

/// A key, and the least number by which one of its versions that were passed is committed.
#[derive(Drop)]
pub(crate) struct Newer<'a> {
    key: &'a Key,
    commit: Seq,
}

impl<'a> Model for Newer<'a> {
    ghost use Rattle.std.specs.Prelude.{ℕ, List};

    ghost Value = { List ℕ × ℕ };

    ghost view = { λ n. (n.key.now, n.commit) };
}

/// The least number by which a version of the key that was passed is committed.
pub(crate) fn commit_above(newer: &Option<Newer<'_>>, key: &Key) -> Option<Seq>
    ensures { (n : ℕ) → is_by result n ≡ is_above newer.now key.now n }
{
    match newer {
        Some(newer) if newer.key == key => Some(newer.commit),
        _ => None,
    }
}

/// The lesser of the two numbers, where there is one.
pub(crate) fn least(found: Option<Seq>, commit: Seq) -> Seq
    ensures { (n : ℕ) → is_by (Some result) n ≡ (is_by found n || is_by (Some commit) n) }
{
    match found {
        Some(other) => other.min(commit),
        None => commit,
    }
}

/// What is noted after a version that is committed by the number, or is not.
pub(crate) fn note<'a>(
    newer: Option<Newer<'a>>,
    key: &'a Key,
    commit: Option<Seq>,
) -> Option<Newer<'a>>
    ensures uncommitted { commit ≡ None → result ≡ newer.entry }
    ensures committed { (c : ℕ) → commit ≡ Some c → (other : List ℕ) (n : ℕ) → is_above result other n ≡ (bytes_eq key.now other && (is_above newer.entry key.now n || is_by commit n)) }
{
    let Some(own) = commit else {
        return newer;
    };
    let commit = least(commit_above(&newer, key), own);
    Some(Newer { key, commit })
}
