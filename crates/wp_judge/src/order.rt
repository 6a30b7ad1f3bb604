ghost use Rattle.std.specs.Prelude.{◌≡◌, ◌≤◌, ◌^◌};
ghost use Rattle.wp_judge.specs.Order as order;
ghost use Rattle.wp_judge.specs.Words.{decision_in_word};

use crate::observed::{Asked, InPrepared, Load, Observed};
use crate::words::{count_words, unpack};
use wp_model::Seq;

/// The next load of a reader, or its answer.
///
/// A version above the snapshot is invisible, and one below the snapshot's smallest is visible. Else the word decides,
/// if it is the version's; then the bound is loaded, which the version may be above; then what is delayed, where the
/// flag says that something is; then the word and the bound once more; and last the old commit map, where its flag says
/// that it has something.
pub fn ask(seen: &Observed) -> Asked
    requires { seen.now.bits ≤ 16 }
    ensures { result ≡ order.ask seen.now }
{
    if seen.snapshot < seen.version {
        return Asked::Answer(false);
    }
    if seen.version < seen.smallest {
        return Asked::Answer(true);
    }
    let Some(word) = seen.first_word else {
        return Asked::Load(Load::FirstWord);
    };
    match decision_in(seen.bits, word, seen.version) {
        Some(c) => Asked::Answer(c <= seen.snapshot),
        None => ask_bound(seen),
    }
}

/// After a first word that is another's.
fn ask_bound(seen: &Observed) -> Asked
    requires { seen.now.bits ≤ 16 }
    ensures { result ≡ order.ask_first_max seen.now seen.now.first_max }
{
    let Some(max) = seen.first_max else {
        return Asked::Load(Load::FirstMax);
    };
    if max < seen.version {
        return Asked::Answer(false);
    }
    match seen.delayed_flag {
        None => Asked::Load(Load::DelayedFlag),
        Some(0) => ask_again(seen),
        Some(_) => ask_delayed(seen),
    }
}

/// Where something is delayed.
fn ask_delayed(seen: &Observed) -> Asked
    requires { seen.now.bits ≤ 16 }
    ensures { result ≡ order.ask_in_prepared seen.now seen.now.in_prepared }
{
    match seen.in_prepared {
        None => Asked::Load(Load::InPrepared),
        Some(InPrepared::Absent) => ask_again(seen),
        Some(InPrepared::Delayed) => Asked::Answer(false),
        Some(InPrepared::Decided(c)) => Asked::Answer(c <= seen.snapshot),
    }
}

/// Where the version is not delayed.
fn ask_again(seen: &Observed) -> Asked
    requires { seen.now.bits ≤ 16 }
    ensures { result ≡ order.ask_second_word seen.now seen.now.second_word }
{
    let Some(word) = seen.second_word else {
        return Asked::Load(Load::SecondWord);
    };
    match decision_in(seen.bits, word, seen.version) {
        Some(c) => Asked::Answer(c <= seen.snapshot),
        None => ask_bound_again(seen),
    }
}

/// After a second word that is another's.
fn ask_bound_again(seen: &Observed) -> Asked
    ensures { result ≡ order.ask_second_max seen.now seen.now.second_max }
{
    let Some(max) = seen.second_max else {
        return Asked::Load(Load::SecondMax);
    };
    if max < seen.snapshot {
        return Asked::Answer(true);
    }
    match seen.old_flag {
        None => Asked::Load(Load::OldFlag),
        Some(0) => Asked::Answer(true),
        Some(_) => ask_old_commits(seen),
    }
}

/// Where the old commit map has something.
fn ask_old_commits(seen: &Observed) -> Asked
    ensures { result ≡ order.ask_is_old_commit seen.now.is_old_commit }
{
    match seen.is_old_commit {
        None => Asked::Load(Load::IsOldCommit),
        Some(is_old_commit) => Asked::Answer(!is_old_commit),
    }
}

/// The number that decides the version, if the word at its place is the version's.
fn decision_in(bits: u32, word: u64, version: Seq) -> Option<Seq>
    requires { bits ≤ 16 }
    ensures { result ≡ decision_in_word (2 ^ bits) version word }
{
    let place = (version % count_words(bits)) as usize;
    match unpack(bits, place, word) {
        Some((p, c)) if p == version => Some(c),
        _ => None,
    }
}
