//! What stands in memory is frozen, for a flush or a renewal to write, and all memory is taken for the edit with it.
ghost use Rattle.std.specs.Prelude.{◌≡◌, [], ◌∷◌, IfOk};
ghost use Rattle.wp_core.specs.States.{installed, writes};
ghost use Rattle.wp_core.specs.States as state;
ghost use Rattle.wp_core.specs.World.{Actor, World};
ghost use Rattle.wp_rule.specs.Knows.{KnowsTables};
ghost use Rattle.wp_parts.specs.Stock.{store_state};
ghost use Rattle.wp_shared.specs.Calls.{GoesOnAs};
ghost use Rattle.wp_shared.specs.Notes.{no_fact, GoesOn};
ghost use Rattle.wp_shared.specs.Seats.{Stands};
ghost use Rattle.wp_shared.specs.Turns.{HoldsTurn};
ghost use Rattle.wp_maint.specs.Calls.{SawWhole};
ghost use Rattle.wp_maint.specs.Flush.{versions_of, Freezes, HasCopied, HasFrozen, HasReady};
ghost use Rattle.wp_maint.specs.Holding.{HoldsEdits};

use crate::steps::note_frozen;
use std::alloc::AllocError;
use std::sync::{Arc, Wait};
use wp_model::Seq;
use wp_outside::Disk;
use wp_shared::{Log, ReadyInstall, Seat, Shared, Stock, VersionSet};
use wp_store::FrozenParts;
use wp_table::Table;
use wp_tableset::Gone;

/// What a flush or a renewal writes. What was frozen is freed with it, once the store has let it go.
#[derive(Drop)]
pub struct Frozen {
    /// The published number.
    pub at: Seq,
    /// All that stood in memory.
    pub parts: FrozenParts,
    /// The tables, the newest first, with room for one more.
    pub tables: Vec<Arc<Table>>,
}

/// What is frozen, with all the memory that the install of an edit takes which puts it into tables.
#[derive(Drop)]
pub struct ReadyFlush {
    pub frozen: Frozen,
    /// How many versions are frozen.
    pub versions: u64,
    pub edit: ReadyInstall,
}

/// Freezes what stands in memory, also where nothing does.
fn freeze(stock: &mut Stock, at: Seq) -> Result<Frozen, AllocError>
    ensures copied { IfOk result (HasCopied (store_state stock.old) at) }
    ensures same { store_state stock.new ≡ store_state stock.old }
{
    let parts = stock.freeze()?;
    let tables = stock.copy_tables()?;
    Ok(Frozen { at, parts, tables })
}

/// Freezes what stands in memory, under the write turn and the store turn: that is all that the history has above the flushed number, up
/// to the published one.
pub fn freeze_in<D: Disk + Drop>(
    store: &Shared<D>,
    seat: &mut Seat<D>,
    edits: &VersionSet<D>,
    log: &Log<D>,
    stock: &mut Stock,
) -> Result<Frozen, AllocError>
    requires holds { HoldsTurn store.now seat.old (state.store (store_state stock.old)) (writes log.now.state ∷ installed edits.now.state ∷ []) (0 ∷ 5 ∷ []) }
    requires pending { log.now.state.pending ≡ [] }
    requires seen { seat.old.knows.participant.seen ≡ log.now.state.history }
    requires in_step { KnowsTables seat.old.knows edits.now.state.last }
    requires stands { (w : World) × Stands store.now seat.old w }
    ensures goes { GoesOn no_fact seat.old.knows.held seat.old.turns seat.old seat.new }
    ensures same { store_state stock.new ≡ store_state stock.old }
    ensures frozen { IfOk result (λ frozen. HasFrozen seat.new.knows edits.now.state frozen × (versions_of frozen ≡ (store_state stock.old).memory)) }
{
    let frozen = freeze(stock, log.published())?;
    note_frozen(store, seat, edits, stock, &frozen);
    Ok(frozen)
}

/// Freezes what stands in memory, if something does.
fn freeze_some<D: Disk + Drop>(
    store: &Shared<D>,
    seat: &mut Seat<D>,
    edits: &VersionSet<D>,
    log: &Log<D>,
    stock: &mut Stock,
) -> Result<Option<Frozen>, AllocError>
    requires holds { HoldsTurn store.now seat.old (state.store (store_state stock.old)) (writes log.now.state ∷ installed edits.now.state ∷ []) (0 ∷ 5 ∷ []) }
    requires pending { log.now.state.pending ≡ [] }
    requires seen { seat.old.knows.participant.seen ≡ log.now.state.history }
    requires in_step { KnowsTables seat.old.knows edits.now.state.last }
    requires stands { (w : World) × Stands store.now seat.old w }
    ensures goes { GoesOn no_fact seat.old.knows.held seat.old.turns seat.old seat.new }
    ensures same { store_state stock.new ≡ store_state stock.old }
    ensures frozen { IfOk result (Freezes seat.new.knows edits.now.state) }
{
    if stock.is_flushed() {
        return Ok(None);
    }
    let frozen = freeze_in(store, seat, edits, log, stock)?;
    Ok(Some(frozen))
}

/// Freezes what stands in memory, if something does, under the tables turn. The seat has seen so far.
pub(crate) fn freeze_all<D: Disk + Drop, R: Wait>(
    store: &Shared<D>,
    rt: &R,
    seat: &mut Seat<D>,
    edits: &VersionSet<D>,
) -> Result<Option<Frozen>, AllocError>
    requires holds { HoldsEdits store.now seat.old edits.now }
    requires in_step { KnowsTables seat.old.knows edits.now.state.last }
    ensures holds { HoldsEdits store.now seat.new edits.now }
    ensures in_step { KnowsTables seat.new.knows edits.now.state.last }
    ensures goes { GoesOnAs seat.old seat.new seat.old.knows.participant }
    ensures whole { SawWhole store.now seat.old seat.new.knows.participant.seen }
    ensures frozen { IfOk result (Freezes seat.new.knows edits.now.state) }
{
    let log = store.take_log(rt, seat);
    let mut stock = store.take_turn::<Stock, R>(rt, seat);
    let frozen = freeze_some(store, seat, edits, &log, &mut stock);
    store.give_turn::<Stock>(seat, stock);
    store.give_turn::<Log<D>>(seat, log);
    frozen
}

/// Takes all the memory of an edit with what is frozen.
pub fn make_ready<D: Disk>(edits: &VersionSet<D>, frozen: Frozen) -> Result<ReadyFlush, AllocError>
    requires { (a : Actor) × HasFrozen a edits.now.state frozen }
    ensures { IfOk result (λ ready. (a : Actor) → HasFrozen a edits.now.state frozen → HasReady a edits.now ready) }
{
    let versions = frozen.parts.merged()?;
    let edit = edits.ready(Gone::Frozen, &versions, frozen.at)?;
    Ok(ReadyFlush {
        frozen,
        versions: versions.as_slice().len() as u64,
        edit,
    })
}
