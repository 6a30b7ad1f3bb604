//! The step of the machine that a compaction makes alone, as what it leaves of the seat.
ghost use Rattle.std.specs.Prelude.{◌≡◌, ◌≤◌, [], ◌∷◌};
ghost use Rattle.wp_core.specs.Conditions.{KeepsStore};
ghost use Rattle.wp_core.specs.States.{StoreState, installed};
ghost use Rattle.wp_core.specs.States as state;
ghost use Rattle.wp_core.specs.Views.{tables_stay, nothing_flushed};
ghost use Rattle.wp_core.specs.World.{World};
ghost use Rattle.wp_rule.specs.Knows.{Noted};
ghost use Rattle.wp_parts.specs.Stock.{store_state};
ghost use Rattle.wp_shared.specs.Notes.{GoesOn};
ghost use Rattle.wp_shared.specs.Seats.{Stands};
ghost use Rattle.wp_maint.specs.Holding.{is_of_tables};

use std::marker::Brand;
use wp_outside::Disk;
use wp_shared::{Seat, Shared, Stock, VersionSet};

/// The versions in tables became these, which are enough for readers from the floor on, and at what else is live.
pub(crate) fn replace_versions<D: Disk + Drop>(
    store: &Shared<D>,
    seat: &mut Seat<D>,
    edits: &VersionSet<D>,
    stock: &Stock,
)
    requires seat { seat.old.table ≡ store.now.table }
    requires held { (t : StoreState) × (seat.old.knows.held ≡ state.store t ∷ installed edits.now.state ∷ []) × ((store_state stock.now).memory ≡ t.memory) }
    requires may { (w : World) → Stands store.now seat.old w → (w.store.floor ≤ (store_state stock.now).floor) × KeepsStore w (record w.store { tables = (store_state stock.now).tables; floor = (store_state stock.now).floor }) w.installed }
    ensures goes { GoesOn is_of_tables (state.store (store_state stock.now) ∷ installed edits.now.state ∷ []) seat.old.turns seat.old seat.new }
    ensures named { Noted seat.new.knows (tables_stay (store_state stock.now).tables (store_state stock.now).floor) }
    ensures gone { Noted seat.old.knows nothing_flushed → Noted seat.new.knows nothing_flushed }
{
    store.make_about::<Brand, Stock>(seat, stock);
}
