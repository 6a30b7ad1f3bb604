//! Whether what a flag or a turn stands for is empty.
ghost use Rattle.std.specs.Prelude.{◌≡◌, ◌↔◌, ◌≤◌, true, false, ℕ, length, ◌==◌, MatchOption};
ghost use Rattle.std.specs.FinSet as set;
ghost use Rattle.wp_model.specs.Snapshots.{is_old_commit, NoOldCommits};
ghost use Rattle.wp_model.specs.PreparedSets.{NoneDelayed};
ghost use Rattle.wp_machine_permits.specs.Each.{Each};

use wp_machine::{LiveSnapshot, PreparedSets, Snapshots};
use wp_model::Seq;

/// Each of the numbers is from this one on.
fn are_from(numbers: &[Seq], least: Seq) -> bool
    ensures { result ≡ true → Each (λ p. least ≤ p) numbers.now }
{
    for number in numbers {
        if *number < least {
            return false;
        }
    }
    true
}

/// The prepared heap has only numbers from this one on.
pub(super) fn heap_is_from(prepared: &PreparedSets, least: Seq) -> bool
    ensures { result ≡ true → (p : ℕ) → set.contains prepared.now.heap p ≡ true → least ≤ p }
{
    are_from(&prepared.heap, least)
}

/// The delayed set has only numbers from this one on.
pub(super) fn delayed_is_from(prepared: &PreparedSets, least: Seq) -> bool
    ensures { result ≡ true → (p : ℕ) → set.contains prepared.now.delayed p ≡ true → least ≤ p }
{
    are_from(&prepared.delayed, least)
}

fn is_no_number(numbers: &[Seq]) -> bool
    ensures { result ≡ (length numbers.now == 0) }
{
    numbers.is_empty()
}

fn is_no_pair(pairs: &[(Seq, Seq)]) -> bool
    ensures { result ≡ (length pairs.now == 0) }
{
    pairs.is_empty()
}

pub(super) fn none_delayed(prepared: &PreparedSets) -> bool
    ensures { (result ≡ true) ↔ NoneDelayed prepared.now }
{
    if !is_no_number(&prepared.delayed) {
        return false;
    }
    is_no_pair(&prepared.delayed_commits)
}

/// A version that the old commit map has under the number.
fn kept_at(snapshots: &Snapshots, s: Seq) -> Option<Seq>
    ensures { MatchOption result ((p : ℕ) → is_old_commit snapshots.now s p ≡ false) (λ p. is_old_commit snapshots.now s p ≡ true) }
{
    let snapshot = snapshots.at(s)?;
    first_of(snapshot)
}

fn first_of(snapshot: &LiveSnapshot) -> Option<Seq>
    ensures { MatchOption result ((p : ℕ) → set.contains snapshot.now.old_commits p ≡ false) (λ p. set.contains snapshot.now.old_commits p ≡ true) }
{
    snapshot.old_commits.first().copied()
}

/// A version that the old commit map has under one of these, and that number.
fn kept_under(live: &[(Seq, LiveSnapshot)], snapshots: &Snapshots) -> Option<(Seq, Seq)>
    ensures { MatchOption result (Each (λ pair. (p : ℕ) → is_old_commit snapshots.now pair.0 p ≡ false) live.now) (λ r. is_old_commit snapshots.now r.0 r.1 ≡ true) }
{
    for pair in live {
        if let Some(p) = kept_at(snapshots, pair.0) {
            return Some((pair.0, p));
        }
    }
    None
}

pub(super) fn has_no_old_commits(snapshots: &Snapshots) -> bool
    ensures { (result ≡ true) ↔ NoOldCommits snapshots.now }
{
    kept_under(&snapshots.live, snapshots).is_none()
}
