//! What a reader's steps make of a world.
ghost use Rattle.std.specs.Prelude.{◌≡◌, ℕ, OnOk, None, Some, option_map, slice_get};
ghost use Rattle.wp_core.specs.World.{World};
ghost use Rattle.wp_core.specs.Reading.{reads};
ghost use Rattle.wp_core.specs.Changes.{loaded};
ghost use Rattle.wp_core.specs.Steps as step;
ghost use Rattle.wp_machine.specs.Machine.{reader_step};
ghost use Rattle.wp_machine.specs.Effect.{IsEffect};

use crate::actor::{Actor, Registration};
use crate::effects::turn::hold;
use crate::step::ReaderStep;
use crate::world::World;
use std::alloc::AllocError;
use wp_core::Turn;
use wp_judge::{InPrepared, Load, Observed};
use wp_model::Seq;

fn register(world: &mut World, actor: &mut Actor, smallest: Seq) -> Result<(), AllocError>
    ensures { OnOk result ((by : ℕ) → IsEffect by world.old actor.old (step.register smallest) world.new actor.new) }
{
    let alloc = world.alloc;
    let number = world.writes.history.len() as Seq;
    actor.see(&world.writes.history, alloc)?;
    actor.register(Registration { number, smallest })?;
    world.snapshots.register(number, alloc)?;
    hold(world, actor, Turn::Snapshots);
    Ok(())
}

fn reading(bits: u32, version: Seq, snapshot: Registration) -> Observed
    ensures { result ≡ reads bits version snapshot }
{
    Observed {
        bits,
        version,
        snapshot: snapshot.number,
        smallest: snapshot.smallest,
        first_word: None,
        first_max: None,
        delayed_flag: None,
        in_prepared: None,
        second_word: None,
        second_max: None,
        old_flag: None,
        is_old_commit: None,
    }
}

fn loaded(world: &World, which: Load, seen: Observed) -> Observed
    ensures { result ≡ loaded world.now which seen }
{
    let mut seen = seen;
    match which {
        Load::FirstWord => seen.first_word = Some(world.cache.word(seen.version)),
        Load::FirstMax => seen.first_max = Some(world.max_evicted),
        Load::DelayedFlag => seen.delayed_flag = Some(world.delayed_flag),
        Load::InPrepared => seen.in_prepared = Some(world.prepared.found(seen.version)),
        Load::SecondWord => seen.second_word = Some(world.cache.word(seen.version)),
        Load::SecondMax => seen.second_max = Some(world.max_evicted),
        Load::OldFlag => seen.old_flag = Some(world.old_flag),
        Load::IsOldCommit => {
            seen.is_old_commit = Some(world.snapshots.is_old_commit(seen.snapshot, seen.version));
        }
    }
    seen
}

fn begin_reading(actor: &mut Actor, bits: u32, version: Seq, place: usize)
    ensures { (s : step.Step) → option_map (step.begin_reading bits version) (slice_get actor.old.participant.registered place) ≡ Some s
        → (w : World) (by : ℕ) → IsEffect by w actor.old s w actor.new }
{
    if let Some(snapshot) = actor.participant.registered.get(place) {
        actor.reading = Some(reading(bits, version, *snapshot));
    }
}

fn load(world: &World, actor: &mut Actor, which: Load)
    ensures { (by : ℕ) → IsEffect by world.now actor.old (step.load which) world.now actor.new }
{
    if let Some(seen) = actor.reading {
        actor.reading = Some(loaded(world, which, seen));
    }
}

pub(crate) fn reader(
    world: &mut World,
    actor: &mut Actor,
    kind: ReaderStep,
) -> Result<(), AllocError>
    ensures { (s : step.Step) → reader_step actor.old.participant kind ≡ Some s
        → OnOk result ((by : ℕ) → IsEffect by world.old actor.old s world.new actor.new) }
{
    match kind {
        ReaderStep::LoadPublished => actor.see(&world.writes.history, world.alloc)?,
        ReaderStep::Register(smallest) => return register(world, actor, smallest),
        ReaderStep::BeginReading(bits, version, place) => {
            begin_reading(actor, bits, version, place);
        }
        ReaderStep::Load(which) => load(world, actor, which),
        ReaderStep::EndReading => actor.reading = None,
    }
    Ok(())
}
