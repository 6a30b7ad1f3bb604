//! An edit is installed, and its table is put where readers look.
ghost use Rattle.std.specs.Prelude.{◌≡◌, ◌<◌, false, length, map, vec_capacity, IfOk, IfSome, OnOk, OnErr};
ghost use Rattle.std.specs.Arc.{arc_value};
ghost use Rattle.std.specs.Option.{option_map};
ghost use Rattle.wp_tableset.specs.Changes.{one_part, parts_after};
ghost use Rattle.wp_tableset.specs.declared.gone.Gone.TheVariants.{Tables};
ghost use Rattle.wp_store.specs.Store.{with_newest};
ghost use Rattle.wp_core.specs.Effects.{with_failed};
ghost use Rattle.wp_core.specs.Views.{nothing_flushed};
ghost use Rattle.wp_rule.specs.Knows.{Noted, KnowsTables};
ghost use Rattle.wp_parts.specs.VersionSet.{IsEdits};
ghost use Rattle.wp_parts.specs.Installs.{HadCause, IsReadyFor, SurvivesInstall};
ghost use Rattle.wp_shared.specs.Notes.{GoesOn};
ghost use Rattle.wp_maint.specs.Flush.{MayPut};
ghost use Rattle.wp_maint.specs.Holding.{is_of_tables, HoldsEdits, HoldsTables};
ghost use Rattle.wp_maint.specs.Installs.{is_compaction, next_of, HasBroken, HasInstalled, MayInstall};

use crate::frozen::Frozen;
use crate::steps::{halt, move_versions, remember_install};
use std::sync::{Arc, Wait};
use wp_outside::{Disk, Failed};
use wp_shared::{ReadyInstall, Seat, Shared, Stock, VersionSet};
use wp_table::Table;

/// Writes the table of a ready edit, if it has one, and makes the edit the last one, with the log's segment as it is.
fn write_edit<D: Disk + Drop>(
    seat: &Seat<D>,
    edits: &mut VersionSet<D>,
    edit: ReadyInstall,
) -> Result<Option<Arc<Table>>, Failed>
    requires running { edits.old.state.halted ≡ false }
    requires edits { IsEdits edits.old }
    requires ready { IsReadyFor edits.old edit }
    ensures table { IfOk result (λ table. option_map arc_value table ≡ one_part edit.edit.asked.versions) }
    ensures installed { OnOk result (edits.new.state ≡ record edits.old.state { last = next_of edit.edit.asked edits.old.state.last }) }
    ensures parts { OnOk result (edits.new.parts ≡ parts_after edit.edit.asked edits.old.parts) }
    ensures refused { OnErr result ((edits.new.state ≡ with_failed edits.old.state edits.new.state.failed) × IfSome edits.new.state.failed (λ asked. asked ≡ next_of edit.edit.asked edits.old.state.last)) }
    ensures cause { OnErr result (HadCause edits.old.set edits.new.set) }
    ensures survives { SurvivesInstall edits.old edits.new (next_of edit.edit.asked edits.old.state.last) }
    ensures first { edits.new.first ≡ edits.old.first }
{
    let segment = edits.segment();
    let written = edits.write_table(edit, seat.words())?;
    edits.install(written, segment)
}

/// Installs a ready edit, with its table, where the seat holds the tables turn alone. It takes no memory.
pub fn install<D: Disk + Drop>(
    store: &Shared<D>,
    seat: &mut Seat<D>,
    edits: &mut VersionSet<D>,
    edit: ReadyInstall,
) -> Result<Option<Arc<Table>>, Failed>
    requires holds { HoldsEdits store.now seat.old edits.old }
    requires ready { IsReadyFor edits.old edit }
    requires may { MayInstall seat.old.knows edits.old.state edit.edit.asked }
    ensures table { IfOk result (λ table. option_map arc_value table ≡ one_part edit.edit.asked.versions) }
    ensures installed { OnOk result (HasInstalled store.now seat.old edits.old (next_of edit.edit.asked edits.old.state.last) (is_compaction edit.edit.asked.gone) seat.new edits.new) }
    ensures parts { OnOk result (edits.new.parts ≡ parts_after edit.edit.asked edits.old.parts) }
    ensures gone { OnOk result (edit.edit.asked.gone ≡ Tables → Noted seat.new.knows nothing_flushed) }
    ensures refused { OnErr result (HasBroken store.now seat.old edits.old (next_of edit.edit.asked edits.old.state.last) seat.new edits.new) }
{
    edits.devices_agree();
    let gone = edit.gone();
    match write_edit(seat, edits, edit) {
        Ok(table) => {
            edits.devices_agree();
            remember_install(store, seat, edits, gone);
            Ok(table)
        }
        Err(Failed) => {
            edits.devices_agree();
            halt(store, seat, edits);
            Err(Failed)
        }
    }
}

/// The tables with this one before them, if there is one.
pub fn with_first(mut tables: Vec<Arc<Table>>, table: Option<Arc<Table>>) -> Vec<Arc<Table>>
    requires { length tables.items < vec_capacity tables }
    ensures { map arc_value result.items ≡ with_newest (option_map arc_value table) (map arc_value tables.items) }
{
    if let Some(table) = table {
        tables.insert(0, table).unwrap();
    }
    tables
}

/// Puts the table, if there is one, in place of what is frozen, where readers look.
pub fn put_table<D: Disk + Drop, R: Wait>(
    store: &Shared<D>,
    rt: &R,
    seat: &mut Seat<D>,
    edits: &VersionSet<D>,
    frozen: Frozen,
    table: Option<Arc<Table>>,
)
    requires holds { HoldsTables store.now seat.old edits.now.state }
    requires may { MayPut seat.old.knows edits.now.state frozen (option_map arc_value table) }
    ensures goes { GoesOn is_of_tables seat.old.knows.held seat.old.turns seat.old seat.new }
    ensures in_step { KnowsTables seat.new.knows edits.now.state.last }
{
    let Frozen {
        at,
        parts: _parts,
        tables,
    } = frozen;
    let tables = with_first(tables, table);
    let mut stock = store.take_turn::<Stock, R>(rt, seat);
    stock.install_flushed(at, tables);
    move_versions(store, seat, edits, &stock);
    store.give_turn::<Stock>(seat, stock);
}
