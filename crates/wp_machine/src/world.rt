ghost use Rattle.std.specs.Prelude.{◌≡◌, ◌≤◌, ◌^◌, true, false, [], ◌∷◌, None, replicate, IfOk};
ghost use Rattle.std.specs.FinSet as set;
ghost use Rattle.std.specs.FinMap as finite;
ghost use Rattle.wp_model.specs.History.{undecided};
ghost use Rattle.wp_model.specs.Flushed.{first_segment};
ghost use Rattle.wp_model.specs.Legal.{IsLegal, undone_last};
ghost use Rattle.wp_core.specs.Runs.{IsOpening};
ghost use Rattle.wp_core.specs.World.{new_actor};
ghost use Rattle.wp_core.proofs.Openings.{opened_world, flag_of, all_in_memory};
ghost use Rattle.wp_history_laws.proofs.Opened.{names_of, keys_of};

use crate::actor::Actor;
use crate::cache::Cache;
use crate::copies::copy_entries;
use crate::locks::LockState;
use crate::prepared::PreparedSets;
use crate::snapshots::Snapshots;
use crate::store::{Installed, InstalledEdit, StoreState};
use crate::turn::Holders;
use crate::writes::WriteState;
use std::alloc::{AllocError, Global};
use std::marker::Model;
use std::snapshot::Snapshot;
use wp_history::History;
use wp_model::{Entry, Name, Seq};

/// The words, the turns, the states that they guard, and the actors.
pub struct World {
    pub alloc: Global,
    /// The history that the world was opened on. No step reads it.
    pub opened: Snapshot<Vec<Entry>>,
    pub max_evicted: Seq,
    pub delayed_flag: u64,
    pub old_flag: u64,
    pub cache: Cache,
    pub holders: Holders,
    pub writes: WriteState,
    pub prepared: PreparedSets,
    pub snapshots: Snapshots,
    pub store: StoreState,
    pub locks: LockState,
    pub installed: Installed,
    pub first_edit: InstalledEdit,
    pub actors: Vec<Actor>,
}

impl Model for World {
    ghost use Rattle.std.specs.Coded.{codes};
    ghost use Rattle.wp_model.specs.PreparedSets.{prepared_sets_code};
    ghost use Rattle.wp_model.specs.Snapshots.{snapshots_code};
    ghost use Rattle.wp_model.specs.LockState.{lock_state_code};
    ghost use Rattle.wp_core.specs.World.{World};
    ghost use Rattle.wp_core.specs.Codes.{transactions_code};

    ghost Value = { World };

    ghost coded = { Prim.hlevel (codes, prepared_sets_code, snapshots_code, lock_state_code, transactions_code) };

    ghost view = { λ w. record { opened = w.opened.value.items; max_evicted = w.max_evicted; delayed_flag = w.delayed_flag; old_flag = w.old_flag; cache = w.cache; holders = w.holders; writes = w.writes; prepared = w.prepared; snapshots = w.snapshots; store = w.store; locks = w.locks; installed = w.installed; first_edit = w.first_edit; actors = w.actors.items } };
}

impl World {
    /// An opening on the history, which has no base: one client, a commit cache of so many bits with empty words, and all
    /// versions in memory.
    pub fn opened(
        alloc: Global,
        client: Name,
        history: &History,
        bits: u32,
    ) -> Result<World, AllocError>
        requires base { history.now.base ≡ 0 }
        requires closed { undone_last history.now.entries ≡ None }
        requires bits { bits ≤ 16 }
        ensures opening { IfOk result IsOpening }
        ensures history { IfOk result (λ world. world.opened ≡ history.now.entries) }
        ensures cache { IfOk result (λ world. world.cache ≡ replicate (2 ^ bits) 0) }
        ensures tables { IfOk result (λ world. world.store.tables ≡ []) }
        ensures seat { IfOk result (λ world. world.actors ≡ new_actor true client history.now.entries ∷ []) }
    {
        World::on(alloc, client, history, bits)
    }

    fn on(alloc: Global, client: Name, history: &History, bits: u32) -> Result<World, AllocError>
        requires base { history.now.base ≡ 0 }
        requires bits { bits ≤ 16 }
        ensures world { IfOk result (λ world. world ≡ opened_world history.now.entries (replicate (2 ^ bits) 0) client) }
        ensures legal { IsLegal history.now.entries }
    {
        let entries = history.later();
        let cache = Cache::empty(bits, alloc)?;
        let (writes, store) = stored(entries, alloc)?;
        let opened = Snapshot::of(&writes.history);
        let (prepared, locks) = left_undecided(history, alloc)?;
        let actors = first_seat(alloc, client, entries)?;
        Ok(World {
            alloc,
            opened,
            max_evicted: history.published(),
            delayed_flag: flag_of(history.undecided()),
            old_flag: 0,
            cache,
            holders: Holders::free(),
            writes,
            prepared,
            snapshots: Snapshots::new(alloc),
            store,
            locks,
            installed: Installed::new(alloc),
            first_edit: InstalledEdit::new(alloc),
            actors,
        })
    }
}

/// A seat of the client, which has seen the history.
fn first_seat(alloc: Global, client: Name, entries: &[Entry]) -> Result<Vec<Actor>, AllocError>
    ensures { IfOk result (λ actors. actors.items ≡ new_actor true client entries.now ∷ []) }
{
    let seen = copy_entries(entries, alloc)?;
    let mut actors = Vec::with_capacity(alloc, 1)?;
    actors.push(Actor::new(alloc, true, Some(client), seen))?;
    Ok(actors)
}

/// The history as it is logged and published, and its versions, all in memory.
fn stored(entries: &[Entry], alloc: Global) -> Result<(WriteState, StoreState), AllocError>
    ensures writes { IfOk result (λ t. t.0 ≡ record { history = entries.now; pending = []; logged = false; log = entries.now; closed = false; stopped = false; failed = []; segment = first_segment; next = None }) }
    ensures store { IfOk result (λ t. t.1 ≡ all_in_memory entries.now) }
{
    let writes = WriteState::of(entries, alloc)?;
    let store = StoreState::of(entries, alloc)?;
    Ok((writes, store))
}

/// The undecided prepares: they are delayed, their names had by nobody and their keys held.
fn left_undecided(history: &History, alloc: Global) -> Result<(PreparedSets, LockState), AllocError>
    ensures prepared { IfOk result (λ t. t.0 ≡ record { heap = set.empty; delayed = set.from_list (undecided history.now.entries); delayed_commits = finite.empty }) }
    ensures locks { IfOk result (λ t. t.1 ≡ record { names = finite.from_entries (names_of history.now.entries); keys = finite.from_entries (keys_of history.now.entries); labels = finite.empty }) }
{
    let prepared = PreparedSets::left_by(history, alloc)?;
    let locks = LockState::left_by(history, alloc)?;
    Ok((prepared, locks))
}

/// The delayed flag is up just where something is undecided.
fn flag_of(undecided: &[Seq]) -> u64
    ensures { result ≡ flag_of undecided.now }
{
    if undecided.is_empty() { 0 } else { 1 }
}

// Written out, so that no crate above proves anew how all that it holds is let go.
impl Drop for World {
    fn drop(self) {
        let Self {
            alloc: _alloc,
            opened: _opened,
            max_evicted: _max_evicted,
            delayed_flag: _delayed_flag,
            old_flag: _old_flag,
            cache: _cache,
            holders: _holders,
            writes: _writes,
            prepared: _prepared,
            snapshots: _snapshots,
            store: _store,
            locks: _locks,
            installed: _installed,
            first_edit: _first_edit,
            actors: _actors,
        } = self;
    }
}
