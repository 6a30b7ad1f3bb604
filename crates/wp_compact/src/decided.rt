//! Which versions in tables are committed, where something is pinned.
ghost use Rattle.std.specs.Prelude.{◌≡◌, ◌≤◌, true, [], ◌∷◌, ◌++◌, length, map, IfOk, OnOk};
ghost use Rattle.std.specs.Arc.{arc_value};
ghost use Rattle.wp_merge.specs.Merge.{joined, sorted_of};
ghost use Rattle.wp_keep.specs.Keep.{is_committed};
ghost use Rattle.wp_core.specs.Lists.{IsIn};
ghost use Rattle.wp_core.specs.Sound.Snapshots.{has_versions_at};
ghost use Rattle.wp_shared.specs.Calls.{Continues};
ghost use Rattle.wp_shared.specs.Seats.{IsFree};
ghost use Rattle.wp_read.specs.Registers.{numbers_of};
ghost use Rattle.wp_model.specs.Legal.{IsLegal};
ghost use Rattle.wp_compact.specs.Compaction.{AreBases, AreLow, HadVersions};
ghost use Rattle.wp_compact.specs.Decided.{ArePinned, AreSeen, Decides, both_bases, version_numbers};

use std::alloc::{AllocError, Global};
use std::collections::VecDeque;
use std::sync::{Arc, Wait};
use wp_cover::Decisions;
use wp_keep::Pair;
use wp_model::{Seq, Version, Versions};
use wp_outside::Disk;
use wp_read::{Pinned, Snapshot, visible};
use wp_shared::{Log, Seat, Shared, Stock};
use wp_store::merged_tables;
use wp_table::Table;

/// The tables at some moment, the newest first, and their versions.
#[derive(Drop)]
pub(crate) struct Decided {
    /// Where another table took their place, they are freed with this.
    pub tables: VecDeque<Arc<Table>>,
    pub versions: Versions,
    pub bases: Bases,
    /// Which of their numbers are committed, and at which of the pinned ones and of the bases.
    pub committed: Vec<Pair>,
}

/// The base of the log as it was opened, and its base when the versions were decided.
#[derive(Clone, Copy)]
pub(crate) struct Bases {
    pub opened: Seq,
    pub installed: Seq,
}

/// The tables now, the newest first.
fn tabled<D: Disk + Drop, R: Wait>(
    store: &Shared<D>,
    rt: &R,
    seat: &mut Seat<D>,
) -> Result<Vec<Arc<Table>>, AllocError>
    requires { IsFree store.now.table seat.old }
    ensures continues { Continues store.now seat.old seat.new seat.old.knows.participant }
    ensures same { seat.new.knows.participant ≡ seat.old.knows.participant }
    ensures seen { IfOk result (λ tables. AreSeen seat.old.knows.participant.seen (sorted_of (joined (map arc_value tables.items)))) }
    ensures tabled { IfOk result (λ tables. HadVersions store.now seat.old seat.new (sorted_of (joined (map arc_value tables.items)))) }
{
    let stock = store.take_turn::<Stock, R>(rt, seat);
    let tables = stock.copy_tables();
    store.give_turn::<Stock>(seat, stock);
    tables
}

/// Whether the last of the pairs tells that the number is committed at this one.
fn is_told(committed: &[Pair], number: Seq, at: Seq) -> bool
    ensures { result ≡ true → is_committed committed.now number at ≡ true }
{
    match committed.last() {
        Some(pair) => pair.number == number && pair.commit <= at,
        None => false,
    }
}

/// Decides the version with this number at the snapshot. It takes no look where the last pair tells that it is committed.
fn decide_at<D: Disk + Drop, R: Wait>(
    store: &Shared<D>,
    rt: &R,
    seat: &mut Seat<D>,
    committed: &mut Vec<Pair>,
    number: Seq,
    snapshot: &Snapshot,
) -> Result<(), AllocError>
    requires free { IsFree store.now.table seat.old }
    requires registered { IsIn snapshot.now seat.old.knows.participant.registered }
    requires version { number ≤ snapshot.now.number → has_versions_at seat.old.knows.participant.seen number ≡ true }
    ensures continues { Continues store.now seat.old seat.new seat.old.knows.participant }
    ensures same { seat.new.knows.participant ≡ seat.old.knows.participant }
    ensures decided { OnOk result (Decides seat.old.knows.participant.seen (number ∷ []) (snapshot.now.number ∷ []) committed.old.items committed.new.items) }
{
    let at = snapshot.number();
    if is_told(committed, number, at) {
        return Ok(());
    }
    if !visible(store, rt, seat, number, snapshot) {
        return Ok(());
    }
    committed.push(Pair { number, commit: at })?;
    Ok(())
}

/// Decides it at each of the snapshots.
fn decide_at_each<D: Disk + Drop, R: Wait>(
    store: &Shared<D>,
    rt: &R,
    seat: &mut Seat<D>,
    committed: &mut Vec<Pair>,
    number: Seq,
    live: &[Snapshot],
) -> Result<(), AllocError>
    requires free { IsFree store.now.table seat.old }
    requires pinned { ArePinned seat.old.knows.participant live.now }
    requires version { number ≤ length seat.old.knows.participant.seen → has_versions_at seat.old.knows.participant.seen number ≡ true }
    ensures continues { Continues store.now seat.old seat.new seat.old.knows.participant }
    ensures same { seat.new.knows.participant ≡ seat.old.knows.participant }
    ensures decided { OnOk result (Decides seat.old.knows.participant.seen (number ∷ []) (numbers_of live.now) committed.old.items committed.new.items) }
{
    for i in 0..live.len() {
        decide_at(store, rt, seat, committed, number, &live[i])?;
    }
    Ok(())
}

/// Decides it at all that is pinned, from the least live number on: where it is committed there, it is so at all greater ones.
fn decide_version<D: Disk + Drop, R: Wait>(
    store: &Shared<D>,
    rt: &R,
    seat: &mut Seat<D>,
    committed: &mut Vec<Pair>,
    number: Seq,
    pinned: &Pinned,
) -> Result<(), AllocError>
    requires free { IsFree store.now.table seat.old }
    requires pinned { ArePinned seat.old.knows.participant (pinned.now.floor ∷ pinned.now.live.items) }
    requires version { number ≤ length seat.old.knows.participant.seen → has_versions_at seat.old.knows.participant.seen number ≡ true }
    ensures continues { Continues store.now seat.old seat.new seat.old.knows.participant }
    ensures same { seat.new.knows.participant ≡ seat.old.knows.participant }
    ensures decided { OnOk result (Decides seat.old.knows.participant.seen (number ∷ []) (numbers_of (pinned.now.floor ∷ pinned.now.live.items)) committed.old.items committed.new.items) }
{
    decide_at_each(store, rt, seat, committed, number, &pinned.live)?;
    decide_at(store, rt, seat, committed, number, &pinned.floor)
}

/// Decides each of the versions at all that is pinned.
fn decide_each<D: Disk + Drop, R: Wait>(
    store: &Shared<D>,
    rt: &R,
    alloc: Global,
    seat: &mut Seat<D>,
    versions: &[Version],
    pinned: &Pinned,
) -> Result<Vec<Pair>, AllocError>
    requires free { IsFree store.now.table seat.old }
    requires pinned { ArePinned seat.old.knows.participant (pinned.now.floor ∷ pinned.now.live.items) }
    requires seen { AreSeen seat.old.knows.participant.seen versions.now }
    ensures continues { Continues store.now seat.old seat.new seat.old.knows.participant }
    ensures same { seat.new.knows.participant ≡ seat.old.knows.participant }
    ensures decided { IfOk result (λ committed. Decides seat.old.knows.participant.seen (version_numbers versions.now) (numbers_of (pinned.now.floor ∷ pinned.now.live.items)) [] committed.items) }
{
    let mut committed = Vec::new(alloc);
    for i in 0..versions.len() {
        decide_version(store, rt, seat, &mut committed, versions[i].number, pinned)?;
    }
    Ok(committed)
}

/// Decides the version with this number at one of the bases, by the history. It asks nothing where the last pair tells that it is committed.
fn decide_base(
    committed: &mut Vec<Pair>,
    decisions: &Decisions<'_>,
    number: Seq,
    commit: Seq,
) -> Result<(), AllocError>
    ensures { OnOk result (Decides decisions.now (number ∷ []) (commit ∷ []) committed.old.items committed.new.items) }
{
    if is_told(committed, number, commit) {
        return Ok(());
    }
    if !decisions.is_committed(number, commit) {
        return Ok(());
    }
    committed.push(Pair { number, commit })?;
    Ok(())
}

/// Decides it at both.
fn decide_at_bases(
    committed: &mut Vec<Pair>,
    decisions: &Decisions<'_>,
    number: Seq,
    bases: Bases,
) -> Result<(), AllocError>
    ensures { OnOk result (Decides decisions.now (number ∷ []) (both_bases bases) committed.old.items committed.new.items) }
{
    decide_base(committed, decisions, number, bases.opened)?;
    decide_base(committed, decisions, number, bases.installed)
}

/// Decides each of the versions at both.
fn decide_bases(
    committed: &mut Vec<Pair>,
    decisions: &Decisions<'_>,
    versions: &[Version],
    bases: Bases,
) -> Result<(), AllocError>
    ensures { OnOk result (Decides decisions.now (version_numbers versions.now) (both_bases bases) committed.old.items committed.new.items) }
{
    for i in 0..versions.len() {
        decide_at_bases(committed, decisions, versions[i].number, bases)?;
    }
    Ok(())
}

/// The same by the history of the log, in one pass over it.
fn decide_in<D: Disk + Drop>(
    alloc: Global,
    committed: &mut Vec<Pair>,
    log: &Log<D>,
    versions: &[Version],
    bases: Bases,
) -> Result<(), AllocError>
    ensures { OnOk result (Decides log.now.state.history (version_numbers versions.now) (both_bases bases) committed.old.items committed.new.items) }
{
    let decisions = Decisions::of(alloc, log.history())?;
    decide_bases(committed, &decisions, versions, bases)
}

/// Decides the versions at the two bases of the log, under the write turn. No snapshot is registered for them: where the log has a
/// base above the floor, the floor stands for it.
fn decide_log<D: Disk + Drop, R: Wait>(
    store: &Shared<D>,
    rt: &R,
    alloc: Global,
    seat: &mut Seat<D>,
    committed: &mut Vec<Pair>,
    versions: &[Version],
    pinned: &Pinned,
) -> Result<Bases, AllocError>
    requires free { IsFree store.now.table seat.old }
    requires pinned { ArePinned seat.old.knows.participant (pinned.now.floor ∷ pinned.now.live.items) }
    ensures continues { Continues store.now seat.old seat.new seat.old.knows.participant }
    ensures legal { IsLegal seat.new.knows.participant.seen }
    ensures bases { IfOk result (AreBases store.now seat.old seat.new pinned.now.floor.number) }
    ensures low { IfOk result (AreLow seat.new.knows.participant.seen pinned.now.floor.number pinned.now.live.items) }
    ensures decided { IfOk result (λ bases. Decides seat.new.knows.participant.seen (version_numbers versions.now) (both_bases bases) committed.old.items committed.new.items) }
{
    store.shows_one_store();
    let log = store.take_log(rt, seat);
    log.devices_agree();
    let bases = Bases {
        opened: log.opened_base(),
        installed: log.base().min(pinned.floor.number()),
    };
    let decided = decide_in(alloc, committed, &log, versions, bases);
    store.give_turn::<Log<D>>(seat, log);
    decided?;
    Ok(bases)
}

/// Decides the versions that are in tables now at all that is pinned and at the bases of the log. It takes the write turn for one pass over
/// the history, and else no turn for longer than a look.
pub(crate) fn decide_tables<D: Disk + Drop, R: Wait>(
    store: &Shared<D>,
    rt: &R,
    alloc: Global,
    seat: &mut Seat<D>,
    pinned: &Pinned,
) -> Result<Decided, AllocError>
    requires free { IsFree store.now.table seat.old }
    requires pinned { ArePinned seat.old.knows.participant (pinned.now.floor ∷ pinned.now.live.items) }
    ensures continues { Continues store.now seat.old seat.new seat.old.knows.participant }
    ensures bases { IfOk result (λ d. AreBases store.now seat.old seat.new pinned.now.floor.number d.bases) }
    ensures low { IfOk result (λ d. AreLow seat.new.knows.participant.seen pinned.now.floor.number pinned.now.live.items d.bases) }
    ensures decided { IfOk result (λ d. Decides seat.new.knows.participant.seen (version_numbers d.versions) (numbers_of (pinned.now.floor ∷ pinned.now.live.items) ++ both_bases d.bases) [] d.committed.items) }
    ensures tabled { IfOk result (λ d. HadVersions store.now seat.old seat.new d.versions) }
{
    let tables = VecDeque::from_vec(tabled(store, rt, seat)?);
    let versions = merged_tables(alloc, &tables)?;
    let mut committed = decide_each(store, rt, alloc, seat, versions.as_slice(), pinned)?;
    let bases = decide_log(
        store,
        rt,
        alloc,
        seat,
        &mut committed,
        versions.as_slice(),
        pinned,
    )?;
    Ok(Decided {
        tables,
        versions,
        bases,
        committed,
    })
}
