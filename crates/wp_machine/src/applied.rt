ghost use Rattle.std.specs.Prelude.{◌≡◌, ◌≢◌, ◌<◌, ◌∷◌, ◌++◌, [], Some, length, IfOk, OnOk};
ghost use mathlib.Core.Option.{some};
ghost use lib.ListN.{get_elem?};
ghost use Rattle.wp_core.specs.World.{Actor, new_actor};
ghost use Rattle.wp_core.specs.Changes.{with_actor, joined_actor};
ghost use Rattle.wp_core.specs.Effects.{done};
ghost use Rattle.wp_core.specs.Notes.{forgets};
ghost use Rattle.wp_core.specs.Steps as step;
ghost use Rattle.wp_core.specs.IsSound.{IsSound};
ghost use Rattle.wp_core.specs.Runs.{Reaches};
ghost use Rattle.wp_machine.specs.Machine.{step_of, MayMake, Makes};
ghost use Rattle.wp_machine.specs.Effect.{IsEffect};
ghost use Rattle.wp_machine.specs.Apart.{IsApart};
ghost use Rattle.wp_machine.specs.declared.step.Kind.TheVariants.{Actors};

use crate::actor::Actor;
use crate::copies::copy_entries;
use crate::effects;
use crate::lists::add;
use crate::locks::copy_client;
use crate::step::{ActorsStep, Kind, Step};
use crate::world::World;
use std::alloc::{AllocError, Global};
use wp_core::laws::steps_keep_sound;

/// The actor at that place, with one that was joined left in its place.
fn take_actor(world: &mut World, by: usize) -> Actor
    requires { by < length world.old.actors }
    ensures actor { get_elem? world.old.actors by ≡ some result }
    ensures others { world.new ≡ with_actor world.old by joined_actor }
{
    let alloc = world.alloc;
    let joined = Actor::new(alloc, false, None, Vec::new(alloc));
    std::mem::replace(&mut world.actors[by], joined)
}

#[tactic(auto, using(crate::proofs::Acting::set_beyond))]
fn put_actor(world: &mut World, by: usize, actor: Actor)
    ensures { world.new ≡ with_actor world.old by actor }
{
    if by < world.actors.len() {
        world.actors[by] = actor;
    }
}

/// The actor at that place.
pub fn actor_at(world: &World, by: usize) -> &Actor
    requires { by < length world.now.actors }
    ensures { get_elem? world.now.actors by ≡ some result.now }
{
    &world.actors[by]
}

fn push_actor(world: &mut World, actor: Actor) -> Result<(), AllocError>
    ensures { OnOk result (world.new ≡ record world.old { actors = world.old.actors ++ actor ∷ [] }) }
{
    add(&mut world.actors, actor)
}

/// A note of the actor, or a seat of its client.
fn made(actor: &Actor, live: bool, alloc: Global) -> Result<Actor, AllocError>
    ensures { IfOk result (λ new. new ≡ new_actor live actor.now.participant.client actor.now.participant.seen) }
{
    let client = copy_client(&actor.participant.client, alloc)?;
    let seen = copy_entries(&actor.participant.seen, alloc)?;
    Ok(Actor::new(alloc, live, client, seen))
}

fn make_note(world: &mut World, by: usize) -> Result<(), AllocError>
    requires { by < length world.old.actors }
    ensures { (a : Actor) → get_elem? world.old.actors by ≡ some a → OnOk result (world.new ≡ done world.old by a step.make_note) }
{
    let alloc = world.alloc;
    let note = made(actor_at(world, by), false, alloc)?;
    push_actor(world, note)?;
    Ok(())
}

fn make_seat(world: &mut World, by: usize) -> Result<(), AllocError>
    requires { by < length world.old.actors }
    ensures { (a : Actor) → get_elem? world.old.actors by ≡ some a → OnOk result (world.new ≡ done world.old by a step.make_seat) }
{
    let alloc = world.alloc;
    let seat = made(actor_at(world, by), true, alloc)?;
    let mut actor = take_actor(world, by);
    actor.count_one()?;
    put_actor(world, by, actor);
    push_actor(world, seat)?;
    Ok(())
}

/// The actor joins a note.
fn learn(world: &mut World, by: usize, other: usize)
    requires by { by < length world.old.actors }
    requires other { other < length world.old.actors }
    ensures { (a b : Actor) → other ≢ by → get_elem? world.old.actors by ≡ some a → get_elem? world.old.actors other ≡ some b
        → world.new ≡ done world.old by a (step.learn other b) }
{
    let note = take_actor(world, other);
    let mut actor = take_actor(world, by);
    actor.learn(note);
    put_actor(world, by, actor);
}

/// The actor joins a seat.
fn join_seat(world: &mut World, by: usize, other: usize) -> Result<(), AllocError>
    requires by { by < length world.old.actors }
    requires other { other < length world.old.actors }
    ensures { (a b : Actor) → other ≢ by → get_elem? world.old.actors by ≡ some a → get_elem? world.old.actors other ≡ some b
        → OnOk result (world.new ≡ done world.old by a (step.join_seat other b)) }
{
    let seat = take_actor(world, other);
    let mut actor = take_actor(world, by);
    actor.join(seat)?;
    put_actor(world, by, actor);
    Ok(())
}

/// What a step makes of the world and of its actor.
fn effect(world: &mut World, by: usize, actor: &mut Actor, kind: Kind) -> Result<(), AllocError>
    ensures { (s : step.Step) → IsApart kind → step_of world.old actor.old.participant kind ≡ Some s
        → OnOk result (IsEffect by world.old actor.old s world.new actor.new) }
{
    match kind {
        Kind::Reader(kind) => effects::reader(world, actor, kind),
        Kind::Word(kind) => effects::word(world, actor, kind),
        Kind::Turn(kind) => effects::turn(world, by, actor, kind),
        Kind::Write(kind) => effects::write(world, actor, kind),
        Kind::Prepared(kind) => effects::prepared(world, actor, kind),
        Kind::Snapshots(kind) => effects::snapshots(world, actor, kind),
        Kind::Store(kind) => effects::store(world, actor, kind),
        Kind::Tables(kind) => effects::tables(world, actor, kind),
        Kind::Locks(kind) => effects::locks(world, actor, &kind),
        Kind::Own(kind) => effects::own(world, actor, kind),
        Kind::Actors(_) => Ok(()),
    }
}

/// A step of an actor that makes and joins none.
fn act(world: &mut World, by: usize, kind: Kind) -> Result<(), AllocError>
    requires { by < length world.old.actors }
    ensures { (a : Actor) (s : step.Step) → IsApart kind → get_elem? world.old.actors by ≡ some a → step_of world.old a.participant kind ≡ Some s
        → OnOk result (world.new ≡ done world.old by (forgets world.old.writes.history (length world.old.cache) s a) s) }
{
    let mut actor = take_actor(world, by);
    actor.mark(world, &kind)?;
    effect(world, by, &mut actor, kind)?;
    put_actor(world, by, actor);
    Ok(())
}

/// An actor makes another, or joins one.
fn make_actor(world: &mut World, by: usize, kind: ActorsStep) -> Result<(), AllocError>
    requires { MayMake world.old by (Actors kind) }
    ensures { OnOk result (Makes world.old by (Actors kind) world.new) }
{
    match kind {
        ActorsStep::MakeNote => make_note(world, by),
        ActorsStep::MakeSeat => make_seat(world, by),
        ActorsStep::Learn(other) => {
            learn(world, by, other);
            Ok(())
        }
        ActorsStep::JoinSeat(other) => join_seat(world, by, other),
    }
}

pub(crate) fn make(world: &mut World, by: usize, kind: Kind) -> Result<(), AllocError>
    requires { MayMake world.old by kind }
    ensures { OnOk result (Makes world.old by kind world.new) }
{
    match kind {
        Kind::Actors(kind) => make_actor(world, by, kind),
        other => act(world, by, other),
    }
}

/// What the step makes of the world.
///
/// Want of memory is answered too where an actor that was joined makes a step that asks for its client, which in a sound
/// world never comes, and where a number is past its type's end.
pub fn apply(world: World, step: Step) -> Result<World, AllocError>
    requires { MayMake world step.by step.kind }
    ensures made { IfOk result (λ next. Makes world step.by step.kind next) }
    ensures sound { IfOk result (λ next. IsSound world → IsSound next) }
    ensures reached { IfOk result (λ next. Reaches world → Reaches next) }
{
    steps_keep_sound();
    let mut world = world;
    step.apply_to(&mut world)?;
    Ok(world)
}
