//! Whether a reader's step may be made.
ghost use Rattle.std.specs.Prelude.{◌≡◌, ◌≤◌, ℕ, suc, true, option_map, slice_get};
ghost use Rattle.wp_core.specs.World.{published};
ghost use Rattle.wp_core.specs.Turns.{Holds, prepared_turn};
ghost use Rattle.wp_core.specs.Conditions.{IsNextLoad, MayLook, MayBeSmallest};
ghost use Rattle.wp_core.specs.Steps as step;
ghost use Rattle.wp_core.specs.Sound.Snapshots.{has_versions_at};
ghost use Rattle.wp_model.specs.PreparedSets.{is_prepared};
ghost use Rattle.wp_machine.specs.Machine.{reader_step};
ghost use Rattle.wp_machine_permits.specs.Offered.{IsOffered};

use crate::permitted::empty::{delayed_is_from, heap_is_from};
use wp_judge::{Asked, Load, ask};
use wp_machine::{Actor, PreparedSets, ReaderStep, Registration, Turn, World, entry_at};
use wp_model::{Entry, Seq};

/// A look into a state needs its turn.
fn may_look(world: &World, by: usize, which: Load) -> bool
    ensures { result ≡ true → MayLook world.now by which }
{
    match which {
        Load::InPrepared => world.holders.holds(Turn::Prepared, by),
        Load::IsOldCommit => world.holders.holds(Turn::Snapshots, by),
        _ => true,
    }
}

/// The load is the next one in the reader's order.
fn may_load(world: &World, by: usize, actor: &Actor, which: Load) -> bool
    ensures { result ≡ true → IsNextLoad world.now by actor.now which }
{
    let Some(seen) = actor.reading else {
        return false;
    };
    if seen.bits > 16 {
        return false;
    }
    match ask(&seen) {
        Asked::Load(next) => next == which && may_look(world, by, which),
        Asked::Answer(_) => false,
    }
}

/// Whether the entry with that number has versions.
fn has_versions_at(entries: &[Entry], p: Seq) -> bool
    ensures { result ≡ true → has_versions_at entries.now p ≡ true }
{
    match entry_at(entries, p) {
        Some(Entry::Write(_) | Entry::Prepare(_, _) | Entry::Undo(_, _)) => true,
        Some(Entry::Commit(_) | Entry::Close(_)) | None => false,
    }
}

/// A version up to the snapshot is there.
fn may_read(world: &World, p: Seq, snapshot: Seq) -> bool
    ensures { result ≡ true → p ≤ snapshot → has_versions_at world.now.writes.history p ≡ true }
{
    if snapshot < p {
        return true;
    }
    has_versions_at(&world.writes.history, p)
}

/// The registration at that place of the actor's.
fn registration_at(actor: &Actor, place: usize) -> Option<Registration>
    ensures { result ≡ slice_get actor.now.participant.registered place }
{
    actor.participant.registered.get(place).copied()
}

/// The actor may read the version at that registration, in the cache as it is.
fn may_begin(world: &World, actor: &Actor, bits: u32, p: Seq, place: usize) -> bool
    ensures { result ≡ true → (by : ℕ) → IsOffered world.now by actor.now (option_map (step.begin_reading bits p) (slice_get actor.now.participant.registered place)) }
{
    match registration_at(actor, place) {
        Some(registration) => {
            world.cache.bits() == bits && may_read(world, p, registration.number)
        }
        None => false,
    }
}

/// A snapshot's smallest is 1; or at most each prepared number and the next number, with the prepared turn.
fn may_be_smallest(world: &World, by: usize, least: Seq) -> bool
    ensures { result ≡ true → MayBeSmallest world.now by least }
{
    if least == 1 {
        return true;
    }
    is_below_prepared(world, by, least)
}

/// It is at most each prepared number and the next number, under the prepared turn.
fn is_below_prepared(world: &World, by: usize, least: Seq) -> bool
    ensures { result ≡ true → Holds world.now.holders prepared_turn by × (least ≤ suc (published world.now)) × ((p : ℕ) → is_prepared world.now.prepared p ≡ true → least ≤ p) }
{
    if !world.holders.holds(Turn::Prepared, by) {
        return false;
    }
    least.saturating_sub(1) <= world.writes.published() && are_prepared_from(&world.prepared, least)
}

/// Each prepared number is from this one on.
fn are_prepared_from(prepared: &PreparedSets, least: Seq) -> bool
    ensures { result ≡ true → (p : ℕ) → is_prepared prepared.now p ≡ true → least ≤ p }
{
    if !heap_is_from(prepared, least) {
        return false;
    }
    delayed_is_from(prepared, least)
}

pub(super) fn reader(world: &World, by: usize, actor: &Actor, kind: &ReaderStep) -> bool
    ensures { result ≡ true → IsOffered world.now by actor.now (reader_step actor.now.participant kind.now) }
{
    match kind {
        ReaderStep::LoadPublished | ReaderStep::EndReading => true,
        ReaderStep::Register(smallest) => {
            world.holders.holds(Turn::Snapshots, by) && may_be_smallest(world, by, *smallest)
        }
        ReaderStep::BeginReading(bits, p, place) => may_begin(world, actor, *bits, *p, *place),
        ReaderStep::Load(which) => may_load(world, by, actor, *which),
    }
}
