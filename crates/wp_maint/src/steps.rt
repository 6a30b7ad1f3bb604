//! The steps of the machine that maintenance makes, each as what it leaves of the seat.
ghost use Rattle.std.specs.Prelude.{◌≡◌, ◌≤◌, ℕ, true, false, List, [], ◌∷◌, length, IfSome};
ghost use Rattle.wp_model.specs.Flushed.{IsEditCovered};
ghost use Rattle.wp_model.specs.Versions.{version_at};
ghost use Rattle.wp_core.specs.Effects.{with_failed};
ghost use Rattle.wp_core.specs.Lists.{IsIn};
ghost use Rattle.wp_core.specs.Sound.Store.{NoneFlushed};
ghost use Rattle.wp_core.specs.States.{Content, StoreState, Installed, installed};
ghost use Rattle.wp_core.specs.States as state;
ghost use Rattle.wp_core.specs.Views.{tables_failed, tables_stay, nothing_flushed, frozen_stay};
ghost use Rattle.wp_core.specs.Views as event;
ghost use Rattle.wp_core.specs.World.{World};
ghost use Rattle.wp_rule.specs.Knows.{Noted, KnowsMoved, KnowsInstalled, KnowsTables};
ghost use Rattle.wp_parts.specs.Stock.{store_state};
ghost use Rattle.wp_shared.specs.Calls.{with_events};
ghost use Rattle.wp_shared.specs.Notes.{no_fact, with_participant, noting, GoesOn};
ghost use Rattle.wp_shared.specs.Seats.{Stands};
ghost use Rattle.wp_maint.specs.Holding.{is_of_flushed, is_of_tables, HoldsEdits};
ghost use Rattle.wp_maint.specs.Flush.{versions_of};
ghost use Rattle.wp_maint.specs.Finding.{Changes, Remembers};
ghost use Rattle.wp_maint.specs.Installs.{is_compaction};
ghost use Rattle.wp_tableset.specs.declared.gone.Gone.TheVariants.{Tables};

use crate::frozen::Frozen;
use std::marker::Brand;
use wp_outside::Disk;
use wp_shared::{Seat, Shared, Stock, VersionSet};
use wp_tableset::Gone;

/// The seat remembers how it found the tables.
pub fn find_edits<D: Disk + Drop>(store: &Shared<D>, seat: &mut Seat<D>)
    requires seat { seat.old.table ≡ store.now.table }
    requires held { (t : Installed) × IsIn (installed t) seat.old.knows.held }
    ensures { (t : Installed) → IsIn (installed t) seat.old.knows.held → Remembers store.now seat.old t seat.new }
{
    store.make::<Brand>(seat);
}

/// The same, where the seat holds the tables turn alone, as it does behind it.
pub fn find_held<D: Disk + Drop>(store: &Shared<D>, seat: &mut Seat<D>, edits: &VersionSet<D>)
    requires holds { HoldsEdits store.now seat.old edits.now }
    requires in_step { KnowsTables seat.old.knows edits.now.state.last }
    ensures holds { HoldsEdits store.now seat.new edits.now }
    ensures in_step { KnowsTables seat.new.knows edits.now.state.last }
    ensures found { Remembers store.now seat.old edits.now.state seat.new }
{
    let _ = edits;
    find_edits(store, seat);
}

/// The edit of a flush was installed.
fn remember_flush<D: Disk + Drop>(store: &Shared<D>, seat: &mut Seat<D>, edits: &VersionSet<D>)
    requires seat { seat.old.table ≡ store.now.table }
    requires held { (t : Installed) × (seat.old.knows.held ≡ installed t ∷ []) × (edits.now.state ≡ record t { last = edits.now.state.last }) × KnowsInstalled seat.old.knows t edits.now.state.last false }
    ensures goes { GoesOn is_of_flushed (installed edits.now.state ∷ []) seat.old.turns (with_participant (with_events (event.installed edits.now.state.last false ∷ []) seat.old.knows.participant) seat.old) seat.new }
    ensures stands { (w : World) × Stands store.now seat.new w }
{
    store.make_about::<Brand, VersionSet<D>>(seat, edits);
}

/// A device of the tables failed.
fn remember_fault<D: Disk + Drop>(store: &Shared<D>, seat: &mut Seat<D>, edits: &VersionSet<D>)
    requires seat { seat.old.table ≡ store.now.table }
    requires held { (t : Installed) × (seat.old.knows.held ≡ installed t ∷ []) × (edits.now.state ≡ with_failed t edits.now.state.failed) × (t.halted ≡ false) }
    requires covered { IfSome edits.now.state.failed (IsEditCovered seat.old.knows.participant.seen) }
    requires segment { IfSome edits.now.state.failed (λ edit. edit.segment ≡ edits.now.state.last.segment) }
    ensures goes { GoesOn no_fact (installed edits.now.state ∷ []) seat.old.turns (with_participant (with_events (tables_failed edits.now.state.last edits.now.state.failed ∷ []) seat.old.knows.participant) seat.old) seat.new }
    ensures stands { (w : World) × Stands store.now seat.new w }
{
    store.make_about::<Brand, VersionSet<D>>(seat, edits);
}

/// The edit of a compaction was installed. No flushed version is in memory, as before.
fn remember_compaction<D: Disk + Drop>(store: &Shared<D>, seat: &mut Seat<D>, edits: &VersionSet<D>)
    requires seat { (seat.old.table ≡ store.now.table) × (seat.old.knows.live ≡ true) }
    requires held { (t : Installed) × (seat.old.knows.held ≡ installed t ∷ []) × (edits.now.state ≡ record t { last = edits.now.state.last }) × KnowsInstalled seat.old.knows t edits.now.state.last true }
    requires gone { Noted seat.old.knows nothing_flushed }
    ensures goes { GoesOn is_of_flushed (installed edits.now.state ∷ []) seat.old.turns (with_participant (with_events (event.installed edits.now.state.last true ∷ []) seat.old.knows.participant) seat.old) seat.new }
    ensures gone { Noted seat.new.knows nothing_flushed }
    ensures stands { (w : World) × Stands store.now seat.new w }
{
    store.make_about::<Brand, VersionSet<D>>(seat, edits);
}

/// An edit was installed whose table takes the place of what goes, where the tables were found so.
pub(crate) fn remember_install<D: Disk + Drop>(
    store: &Shared<D>,
    seat: &mut Seat<D>,
    edits: &VersionSet<D>,
    gone: Gone,
)
    requires seat { (seat.old.table ≡ store.now.table) × (seat.old.knows.live ≡ true) }
    requires held { (t : Installed) × (seat.old.knows.held ≡ installed t ∷ []) × (edits.now.state ≡ record t { last = edits.now.state.last }) × KnowsInstalled seat.old.knows t edits.now.state.last (is_compaction gone) }
    requires gone { gone ≡ Tables → Noted seat.old.knows nothing_flushed }
    ensures changes { (t : Installed) → seat.old.knows.held ≡ installed t ∷ [] → Changes store.now seat.old t edits.now.state (event.installed edits.now.state.last (is_compaction gone)) is_of_flushed seat.new }
    ensures gone { gone ≡ Tables → Noted seat.new.knows nothing_flushed }
    ensures stands { (w : World) × Stands store.now seat.new w }
{
    find_edits(store, seat);
    match gone {
        Gone::Frozen => remember_flush(store, seat, edits),
        Gone::Tables => remember_compaction(store, seat, edits),
    }
}

/// A device of the tables failed, where they were found so.
pub fn halt<D: Disk + Drop>(store: &Shared<D>, seat: &mut Seat<D>, edits: &VersionSet<D>)
    requires seat { seat.old.table ≡ store.now.table }
    requires held { (t : Installed) × (seat.old.knows.held ≡ installed t ∷ []) × (edits.now.state ≡ with_failed t edits.now.state.failed) × (t.halted ≡ false) }
    requires covered { IfSome edits.now.state.failed (IsEditCovered seat.old.knows.participant.seen) }
    requires segment { IfSome edits.now.state.failed (λ edit. edit.segment ≡ edits.now.state.last.segment) }
    ensures changes { (t : Installed) → seat.old.knows.held ≡ installed t ∷ [] → Changes store.now seat.old t edits.now.state (tables_failed edits.now.state.last edits.now.state.failed) no_fact seat.new }
    ensures stands { (w : World) × Stands store.now seat.new w }
{
    find_edits(store, seat);
    remember_fault(store, seat, edits);
}

/// Notes that what is frozen stays in memory.
pub fn note_frozen<D: Disk + Drop>(
    store: &Shared<D>,
    seat: &mut Seat<D>,
    edits: &VersionSet<D>,
    stock: &Stock,
    frozen: &Frozen,
)
    requires seat { (seat.old.table ≡ store.now.table) × (seat.old.knows.live ≡ true) }
    requires held { IsIn (installed edits.now.state) seat.old.knows.held × IsIn (state.store (store_state stock.now)) seat.old.knows.held }
    requires seen { frozen.now.at ≤ length seat.old.knows.participant.seen }
    requires are { (key : List ℕ) (q : ℕ) → q ≤ frozen.now.at → version_at (store_state stock.now).memory key q ≡ version_at (versions_of frozen.now) key q }
    ensures { seat.new ≡ noting (frozen_stay frozen.now.at (versions_of frozen.now)) seat.old }
{
    store.make_about::<Brand, Frozen>(seat, frozen);
}

/// The versions in memory and in tables became these.
pub fn move_versions<D: Disk + Drop>(
    store: &Shared<D>,
    seat: &mut Seat<D>,
    edits: &VersionSet<D>,
    stock: &Stock,
)
    requires seat { seat.old.table ≡ store.now.table }
    requires held { (t : StoreState) × (others : List Content) × (seat.old.knows.held ≡ state.store t ∷ others) × IsIn (installed edits.now.state) others × ((store_state stock.now).floor ≡ t.floor)
        × KnowsMoved t edits.now.state.last.flushed (store_state stock.now).memory (store_state stock.now).tables }
    requires gone { NoneFlushed (store_state stock.now).memory edits.now.state.last.flushed }
    ensures goes { (t : StoreState) (others : List Content) → seat.old.knows.held ≡ state.store t ∷ others
        → GoesOn is_of_tables (state.store (store_state stock.now) ∷ others) seat.old.turns seat.old seat.new }
    ensures flushed { Noted seat.new.knows nothing_flushed }
    ensures named { Noted seat.new.knows (tables_stay (store_state stock.now).tables (store_state stock.now).floor) }
{
    store.make_about::<Brand, Stock>(seat, stock);
}
