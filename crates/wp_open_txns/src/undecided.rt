//! The prepares that are undecided at a snapshot.
ghost use Rattle.std.specs.Prelude.{◌≡◌, ◌≤◌, ℕ, ◌==◌, ◌&&◌, ◌||◌, true, nat_le, length, take, IfOk, OnOk};
ghost use Rattle.std.specs.BTreeSet as sorted;
ghost use Rattle.std.specs.List.{list_any};
ghost use Rattle.std.specs.Ordering.{nat_cmp};
ghost use Rattle.wp_model.specs.History.{decides, entry_at, is_prepare, undecided};
ghost use Rattle.wp_model.specs.Legal.{IsLegal, undone_last};
ghost use Rattle.wp_history_laws.specs.Growth.{undone_by};
ghost use Rattle.wp_cuts.specs.Cut.{carried_from, carried_of};
ghost use Rattle.wp_core.specs.Lists.{IsIn};
ghost use Rattle.wp_shared.specs.Calls.{Continues};
ghost use Rattle.wp_shared.specs.Seats.{IsFree, participant_of, seen_by};

use std::alloc::{AllocError, Global};
use std::collections::BTreeSet;
use std::sync::Wait;
use wp_history::History;
use wp_model::{Carried, Entry, Seq};
use wp_outside::Disk;
use wp_read::Snapshot;
use wp_shared::{Log, Seat, Shared};

/// Those up to `n` of the numbers.
fn numbers_up_to(alloc: Global, numbers: &[Seq], n: Seq) -> Result<BTreeSet<Seq>, AllocError>
    ensures { IfOk result (λ kept. (p : ℕ) → sorted.contains nat_cmp kept p ≡ (nat_le p n && list_any (λ q. q == p) numbers.now)) }
{
    let mut kept = BTreeSet::new(alloc);
    for p in numbers {
        if *p <= n {
            kept.insert(*p)?;
        }
    }
    Ok(kept)
}

/// Adds the prepare that the entry decides, where it is one up to `n`.
fn add_decided(numbers: &mut BTreeSet<Seq>, entry: &Entry, n: Seq) -> Result<(), AllocError>
    ensures { OnOk result ((p : ℕ) → sorted.contains nat_cmp numbers.new p ≡ (sorted.contains nat_cmp numbers.old p || (nat_le p n && decides p entry.now))) }
{
    match entry {
        Entry::Commit(p) | Entry::Close(p) if *p <= n => {
            numbers.insert(*p)?;
            Ok(())
        }
        _ => Ok(()),
    }
}

/// The numbers of the prepares that are undecided where the history is cut behind `n` entries, ascending: up to there those that are so
/// at its end, and those that are decided behind.
fn numbers_at(alloc: Global, history: &History, n: Seq) -> Result<Vec<Seq>, AllocError>
    requires from { history.now.base ≤ n }
    requires within { n ≤ length history.now.entries }
    ensures { IfOk result (λ numbers. numbers.items ≡ undecided (take n history.now.entries)) }
{
    let mut numbers = numbers_up_to(alloc, history.undecided(), n)?;
    let behind = (n - history.base()) as usize;
    for entry in &history.later()[behind..] {
        add_decided(&mut numbers, entry, n)?;
    }
    numbers.into_iter().collect(alloc)
}

/// The prepare with that number, as a base carries it.
fn carried(alloc: Global, history: &History, p: Seq) -> Result<Carried, AllocError>
    requires { is_prepare (entry_at history.now.entries p) ≡ true }
    ensures { IfOk result (λ carried. carried ≡ carried_from history.now.entries p) }
{
    let Some((name, batch)) = history.prepare_at(p) else {
        unreachable!();
    };
    Ok(Carried {
        number: p,
        name: name.copy(alloc)?,
        batch: batch.copy(alloc)?,
    })
}

/// The prepares that are undecided where the history is cut behind `n` entries.
fn carried_at(alloc: Global, history: &History, n: Seq) -> Result<Vec<Carried>, AllocError>
    requires from { history.now.base ≤ n }
    requires within { n ≤ length history.now.entries }
    ensures { IfOk result (λ prepares. prepares.items ≡ carried_of (take n history.now.entries)) }
{
    let numbers = numbers_at(alloc, history, n)?;
    let mut prepares = Vec::with_capacity(alloc, numbers.len())?;
    for p in &numbers {
        prepares.push(carried(alloc, history, *p)?)?;
    }
    Ok(prepares)
}

/// The prepare that the entry undoes, if it is an undo.
fn undone_by(entry: &Entry) -> Option<Seq>
    ensures { result ≡ undone_by entry.now }
{
    match entry {
        Entry::Undo(p, _) => Some(*p),
        _ => None,
    }
}

/// The prepare that the entry with that number undoes, if it is an undo. Up to the base there is none.
fn undone_in(history: &History, n: Seq) -> Option<Seq>
    requires from { history.now.base ≤ n }
    requires within { n ≤ length history.now.entries }
    ensures { result ≡ undone_last (take n history.now.entries) }
{
    history.base();
    match history.entry_at(n) {
        Some(entry) => undone_by(entry),
        None => None,
    }
}

/// The prepares that are undecided at the snapshot, as a base at its number carries them: those that are so now, and those that were
/// decided since. The write turn is held for one pass over what came since. Between an undo and its close the transaction is undecided
/// still, while the undo is committed: `undone_at` tells.
pub fn undecided_at<D: Disk + Drop, R: Wait>(
    store: &Shared<D>,
    rt: &R,
    alloc: Global,
    seat: &mut Seat<D>,
    snapshot: &Snapshot,
) -> Result<Vec<Carried>, AllocError>
    requires free { IsFree store.now.table seat.old }
    requires registered { IsIn snapshot.now seat.old.knows.participant.registered }
    ensures continues { Continues store.now seat.old seat.new (participant_of seat.old) }
    ensures undecided { IfOk result (λ prepares. prepares.items ≡ carried_of (take snapshot.now.number (seen_by seat.new))) }
    ensures within { snapshot.now.number ≤ length (seen_by seat.old) }
    ensures legal { IsLegal (seen_by seat.new) }
{
    store.shows_one_store();
    let log = store.take_log(rt, seat);
    let prepares = carried_at(alloc, log.history(), snapshot.number());
    store.give_turn(seat, log);
    prepares
}

/// The prepare that the entry at the snapshot undoes, where that is an undo: its close comes next. The write turn is held for one look.
pub fn undone_at<D: Disk + Drop, R: Wait>(
    store: &Shared<D>,
    rt: &R,
    seat: &mut Seat<D>,
    snapshot: &Snapshot,
) -> Option<Seq>
    requires free { IsFree store.now.table seat.old }
    requires registered { IsIn snapshot.now seat.old.knows.participant.registered }
    ensures continues { Continues store.now seat.old seat.new (participant_of seat.old) }
    ensures undone { result ≡ undone_last (take snapshot.now.number (seen_by seat.new)) }
{
    store.shows_one_store();
    let log = store.take_log(rt, seat);
    let undone = undone_in(log.history(), snapshot.number());
    store.give_turn(seat, log);
    undone
}
