//! What the steps with the tables turn make of a world.
ghost use Rattle.std.specs.Prelude.{◌≡◌, ℕ, OnOk, Some};
ghost use Rattle.wp_core.specs.Steps as step;
ghost use Rattle.wp_core.specs.Views.{installed};
ghost use Rattle.wp_machine.specs.Machine.{tables_step};
ghost use Rattle.wp_machine.specs.Effect.{IsEffect};

use crate::actor::Actor;
use crate::due::tables_due;
use crate::effects::turn::hold;
use crate::step::TablesStep;
use crate::store::InstalledEdit;
use crate::views::{Event, Found};
use crate::world::World;
use std::alloc::AllocError;
use std::snapshot::Snapshot;
use wp_core::Turn;

fn installed(edit: &InstalledEdit, compacts: bool) -> Event
    ensures { result ≡ installed edit.now compacts }
{
    let snapshot = Snapshot::of(edit);
    if compacts {
        return Event::of(Found::Compacted(snapshot, edit.tables));
    }
    Event::of(Found::Flushed(snapshot))
}

fn find_edit(world: &mut World, actor: &mut Actor) -> Result<(), AllocError>
    ensures { OnOk result ((by : ℕ) → IsEffect by world.old actor.old step.find_edit world.new actor.new) }
{
    let due = tables_due(&world.first_edit, &actor.participant.past)?;
    let installed = &world.installed;
    let last = &installed.last;
    let found = Found::Edit(
        last.flushed,
        last.segment.base,
        last.tables,
        due,
        installed.halted,
    );
    actor.remember(Event::of(found))
}

pub(crate) fn tables(
    world: &mut World,
    actor: &mut Actor,
    kind: TablesStep,
) -> Result<(), AllocError>
    ensures { (s : step.Step) → tables_step kind ≡ Some s
        → OnOk result ((by : ℕ) → IsEffect by world.old actor.old s world.new actor.new) }
{
    match kind {
        TablesStep::Install(edit, compacts) => {
            actor.remember(installed(&edit, compacts))?;
            world.installed.last = edit;
        }
        TablesStep::Renew(edit) => {
            actor.remember(Event::of(Found::Renewed(Snapshot::of(&edit))))?;
            world.installed.last = edit;
        }
        TablesStep::Halt(edit) => {
            let last = Snapshot::of(&world.installed.last);
            let failed = Snapshot::of(&edit);
            actor.remember(Event::of(Found::TablesFailed(last, failed)))?;
            world.installed.halt(edit);
        }
        TablesStep::FindEdit => return find_edit(world, actor),
    }
    hold(world, actor, Turn::Tables);
    Ok(())
}
