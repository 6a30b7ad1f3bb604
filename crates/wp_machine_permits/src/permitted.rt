//! Whether a step may be made.
ghost use Rattle.std.specs.Prelude.{◌≡◌, ◌≢◌, ⊤, ℕ, true, false, [], Some, IfOk, MatchOption, option_map, slice_get};
ghost use Rattle.std.specs.FinMap as finite;
ghost use Rattle.wp_core.specs.Steps as step;
ghost use Rattle.wp_core.specs.World.{World, Actor};
ghost use Rattle.wp_machine.specs.Machine.{MayMake, step_of, own_step, tables_step, actors_step};
ghost use Rattle.wp_machine.specs.declared.step.ActorsStep.TheVariants.{Learn, JoinSeat};
ghost use Rattle.wp_machine_permits.specs.Offered.{IsOffered};

mod empty;
mod evicting;
mod history;
mod locks;
mod prepared;
mod publishing;
mod reader;
mod snapshots;
mod store;
mod turn;
mod word;
mod write;

use crate::needs::{may_halt, may_install, may_note, may_renew};
use std::alloc::AllocError;
use wp_machine::{Actor, ActorsStep, Kind, OwnStep, Step, TablesStep, Turn, World, actor_at};
use wp_model::{Batch, Name};

fn own(world: &World, by: usize, actor: &Actor, kind: &OwnStep) -> Result<bool, AllocError>
    ensures { IfOk result (λ yes. yes ≡ true → IsOffered world.now by actor.now (own_step actor.now.participant kind.now)) }
{
    match kind {
        OwnStep::Note(fact) => may_note(world, by, actor, fact),
        OwnStep::SetBatch(name, batch) => Ok(may_set_batch(actor, name, batch)),
        OwnStep::SetClient(_) => Ok(
            actor.live
                && actor.participant.transactions.is_empty()
                && actor.participant.direct.is_none(),
        ),
    }
}

fn may_set_batch(actor: &Actor, name: &Name, batch: &Batch) -> bool
    ensures { result ≡ true → (w : World) (by : ℕ) → IsOffered w by actor.now (option_map (λ t. step.set_batch name.now t batch.now) (finite.get actor.now.participant.transactions name.now)) }
{
    let _ = batch.changes();
    actor.participant.transaction(name).is_some()
}

fn tables(world: &World, by: usize, actor: &Actor, kind: &TablesStep) -> Result<bool, AllocError>
    ensures { IfOk result (λ yes. yes ≡ true → IsOffered world.now by actor.now (tables_step kind.now)) }
{
    match kind {
        TablesStep::Install(edit, compacts) => may_install(world, by, edit, *compacts),
        TablesStep::Renew(edit) => may_renew(world, by, edit),
        TablesStep::Halt(edit) => may_halt(world, by, edit),
        TablesStep::FindEdit => Ok(world.holders.holds(Turn::Tables, by)),
    }
}

/// The actor at that place, where it is another one.
fn other_at(world: &World, by: usize, place: usize) -> Option<&Actor>
    ensures apart { MatchOption result ⊤ (λ other. place ≢ by) }
    ensures there { MatchOption result ⊤ (λ other. slice_get world.now.actors place ≡ Some other.now) }
{
    if place == by {
        return None;
    }
    world.actors.get(place)
}

/// Whether it is a note, or was joined.
fn is_dead(actor: &Actor) -> bool
    ensures { result ≡ true → actor.now.live ≡ false }
{
    !actor.live
}

/// Whether it is a seat that holds no turn.
fn is_free_seat(actor: &Actor) -> bool
    ensures { result ≡ true → (actor.now.live ≡ true) × (actor.now.held ≡ []) }
{
    actor.live && actor.held.is_empty()
}

fn learns(world: &World, by: usize, place: usize) -> bool
    ensures { result ≡ true → (a : Actor) → IsOffered world.now by a (actors_step world.now (Learn place)) }
{
    match other_at(world, by, place) {
        Some(note) => is_dead(note),
        None => false,
    }
}

fn joins_seat(world: &World, by: usize, place: usize) -> bool
    ensures { result ≡ true → (a : Actor) → IsOffered world.now by a (actors_step world.now (JoinSeat place)) }
{
    if by != 0 {
        return false;
    }
    match other_at(world, by, place) {
        Some(seat) => is_free_seat(seat),
        None => false,
    }
}

fn actors(world: &World, by: usize, kind: &ActorsStep) -> bool
    ensures { result ≡ true → (a : Actor) → IsOffered world.now by a (actors_step world.now kind.now) }
{
    match kind {
        ActorsStep::MakeNote => true,
        ActorsStep::MakeSeat => by == 0,
        ActorsStep::Learn(other) => learns(world, by, *other),
        ActorsStep::JoinSeat(other) => joins_seat(world, by, *other),
    }
}

/// Whether the actor may make the step of this kind.
fn offers(world: &World, by: usize, actor: &Actor, kind: &Kind) -> Result<bool, AllocError>
    ensures { IfOk result (λ yes. yes ≡ true → IsOffered world.now by actor.now (step_of world.now actor.now.participant kind.now)) }
{
    match kind {
        Kind::Reader(kind) => Ok(reader::reader(world, by, actor, kind)),
        Kind::Word(kind) => word::word(world, by, actor, kind),
        Kind::Turn(kind) => Ok(turn::turn(world, by, actor, kind)),
        Kind::Write(kind) => write::write(world, by, kind),
        Kind::Prepared(kind) => prepared::prepared(world, by, kind),
        Kind::Snapshots(kind) => snapshots::snapshots(world, by, actor, kind),
        Kind::Store(kind) => store::store(world, by, actor, kind),
        Kind::Tables(kind) => tables(world, by, actor, kind),
        Kind::Locks(kind) => locks::locks(world, by, actor, kind),
        Kind::Own(kind) => own(world, by, actor, kind),
        Kind::Actors(kind) => Ok(actors(world, by, kind)),
    }
}

/// Whether the step may be made.
pub fn permits(world: &World, step: &Step) -> Result<bool, AllocError>
    ensures { IfOk result (λ yes. yes ≡ true → MayMake world.now step.now.by step.now.kind) }
{
    if step.by >= world.actors.len() {
        return Ok(false);
    }
    let actor = actor_at(world, step.by);
    let yes = offers(world, step.by, actor, &step.kind)?;
    Ok(yes)
}
