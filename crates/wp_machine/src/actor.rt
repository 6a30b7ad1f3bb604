ghost use Rattle.std.specs.Prelude.{◌≡◌, [], ◌∷◌, ◌++◌, None, Some, true, OnOk, IfOk, IfSome, ◌==◌, ◌<◌, length, slice_set};
ghost use Rattle.std.specs.Prelude.{List, take, drop, if◌then◌else◌};
ghost use Rattle.std.specs.List.{list_any};
ghost use Rattle.std.specs.Option.{option_copied};
ghost use Rattle.std.specs.FinSet as set;
ghost use Rattle.std.specs.FinMap as finite;
ghost use Rattle.wp_model.specs.Batch.{key_cmp};
ghost use Rattle.wp_core.specs.Reading.{snapshot_of};
ghost use Rattle.wp_core.specs.Changes.{reading_left, is_same_registration, sees, remembers, has_direct, held_with, held_without, registers, has_transaction, has_no_transaction, turn_index, made_one, informed, joins};
ghost use Rattle.wp_machine.specs.Effect.{has_published, released_number, has_released};
ghost use Rattle.wp_core.specs.States as tables;
ghost use Rattle.wp_core.specs.World.{new_participant, new_actor};
ghost use Rattle.wp_machine.specs.Client.{client_of};
ghost use Rattle.wp_core.specs.Turns.{turn_of};
ghost use Rattle.wp_machine.specs.HeldTables.{place_from};

use crate::content::Content;
use crate::copies::copy_entries;
use crate::lists::{add, add_first};
use crate::marks::Mark;
use crate::pairs::{newest_under, take_named};
use crate::step::Kind;
use crate::views::{Event, Fact};
use crate::world::World;
use std::alloc::{AllocError, Global};
use std::marker::Model;
use std::snapshot::Snapshot;
use wp_core::Turn;
use wp_judge::Observed;
use wp_model::{Batch, Entry, Key, Name, Seq};

/// A snapshot: its number, and its smallest. Each version below the smallest is decided, and visible at the snapshot.
#[derive(Clone, Copy)]
pub struct Registration {
    pub number: Seq,
    pub smallest: Seq,
}

impl Model for Registration {
    ghost use Rattle.wp_core.specs.Reading.{Registration};

    ghost Value = { Registration };

    ghost view = { λ r. record { number = r.number; smallest = r.smallest } };

    ghost inverse = { λ r. record { number = r.number; smallest = r.smallest } };
}

/// A transaction that an actor has: its batch, and the keys that it locked, which may be more.
pub struct Transaction {
    pub batch: Batch,
    /// The newest first.
    pub locked: Vec<Key>,
}

impl Model for Transaction {
    ghost use Rattle.std.specs.FinSet as set;
    ghost use Rattle.wp_core.specs.World.{Transaction};
    ghost use Rattle.wp_core.specs.Codes.{transaction_code};

    ghost Value = { Transaction };

    ghost coded = { transaction_code };

    ghost view = { λ t. record { batch = t.batch; locked = set.from_list t.locked.items } };
}

/// What is known of an actor to the end.
pub struct Participant {
    /// None once the actor was joined.
    pub client: Option<Name>,
    pub seen: Vec<Entry>,
    pub own: Vec<Seq>,
    pub past: Vec<Event>,
    pub registered: Vec<Registration>,
    /// The newest pair first: of two of one name the first counts.
    pub transactions: Vec<(Name, Transaction)>,
    pub direct: Option<Key>,
}

impl Model for Participant {
    ghost use Rattle.std.specs.Coded.{codes};
    ghost use Rattle.std.specs.FinMap as map;
    ghost use Rattle.wp_core.specs.World.{Participant};
    ghost use Rattle.wp_core.specs.Codes.{transactions_code};
    ghost use Rattle.wp_machine.specs.Client.{client_of};

    ghost Value = { Participant };

    ghost coded = { Prim.hlevel (codes, transactions_code) };

    ghost view = { λ p. record { client = client_of p.client; seen = p.seen.items; own = p.own.items; past = p.past.items; registered = p.registered.items; transactions = map.from_entries p.transactions.items; direct = p.direct } };
}

/// An actor: a client's seat, or a note.
pub struct Actor {
    pub participant: Participant,
    pub learned: Vec<Entry>,
    pub held: Vec<Content>,
    pub reading: Option<Observed>,
    /// The newest first.
    pub notes: Vec<Mark>,
    pub live: bool,
    pub made: u64,
    pub joined: Vec<Participant>,
}

impl Model for Actor {
    ghost use Rattle.std.specs.Coded.{codes};
    ghost use Rattle.wp_core.specs.World.{Actor};
    ghost use Rattle.wp_machine.specs.Marks.{notes_of};
    ghost use Rattle.wp_model.specs.PreparedSets.{prepared_sets_code};
    ghost use Rattle.wp_model.specs.Snapshots.{snapshots_code};
    ghost use Rattle.wp_model.specs.LockState.{lock_state_code};
    ghost use Rattle.wp_core.specs.Codes.{transactions_code};

    ghost Value = { Actor };

    ghost coded = { Prim.hlevel (codes, prepared_sets_code, snapshots_code, lock_state_code, transactions_code) };

    ghost view = { λ a. record { participant = a.participant; learned = a.learned.items; held = a.held.items; reading = a.reading; notes = notes_of a.notes.items; live = a.live; made = a.made; joined = a.joined.items } };
}

impl Participant {
    pub fn new(alloc: Global, client: Option<Name>, seen: Vec<Entry>) -> Participant
        ensures { result ≡ new_participant (client_of client) seen.items }
    {
        Participant {
            client,
            seen,
            own: Vec::new(alloc),
            past: Vec::new(alloc),
            registered: Vec::new(alloc),
            transactions: Vec::new(alloc),
            direct: None,
        }
    }
}

impl Participant {
    #[tactic(auto, using(crate::proofs::Maps::under_is_got))]
    pub fn transaction(&self, name: &Name) -> Option<&Transaction>
        ensures { option_copied result ≡ finite.get self.now.transactions name.now }
    {
        newest_under(&self.transactions, name)
    }

    /// Its client. One that was joined has none, and makes no step that asks for it: that too is answered as want of
    /// memory.
    pub fn client(&self, alloc: Global) -> Result<Name, AllocError>
        ensures { IfOk result (λ client. client ≡ self.now.client) }
    {
        match &self.client {
            Some(client) => client.copy(alloc),
            None => Err(AllocError),
        }
    }
}

fn copy_locked(locked: &[Key], alloc: Global) -> Result<Vec<Key>, AllocError>
    ensures { IfOk result (λ copy. copy.items ≡ locked.now) }
{
    let mut copy = Vec::with_capacity(alloc, locked.len())?;
    for key in locked {
        copy.push(key.copy(alloc)?)?;
    }
    Ok(copy)
}

fn take_locked(locked: &mut Vec<Key>, key: &Key)
    ensures { set.from_list {R = key_cmp} locked.new.items ≡ set.remove (set.from_list locked.old.items) key.now }
{
    locked.retain(|other| other != key);
}

impl Transaction {
    pub fn new(alloc: Global) -> Transaction
        ensures { result ≡ record { batch = []; locked = set.empty } }
    {
        Transaction {
            batch: Batch::new(alloc),
            locked: Vec::new(alloc),
        }
    }

    pub fn with(batch: Batch, locked: Vec<Key>) -> Transaction
        ensures { result ≡ record { batch = batch; locked = set.from_list locked.items } }
    {
        Transaction { batch, locked }
    }

    /// The same with one key more.
    pub fn with_key(&self, key: &Key, alloc: Global) -> Result<Transaction, AllocError>
        ensures { IfOk result (λ changed. changed ≡ record self.now { locked = set.insert self.now.locked key.now }) }
    {
        let mut locked = copy_locked(&self.locked, alloc)?;
        locked.insert(0, key.copy(alloc)?)?;
        Ok(Transaction {
            batch: self.batch.copy(alloc)?,
            locked,
        })
    }

    /// The same without the key.
    pub fn without_key(&self, key: &Key, alloc: Global) -> Result<Transaction, AllocError>
        ensures { IfOk result (λ changed. changed ≡ record self.now { locked = set.remove self.now.locked key.now }) }
    {
        let mut locked = copy_locked(&self.locked, alloc)?;
        take_locked(&mut locked, key);
        Ok(Transaction {
            batch: self.batch.copy(alloc)?,
            locked,
        })
    }

    /// The same with another batch.
    pub fn with_batch(&self, batch: Batch, alloc: Global) -> Result<Transaction, AllocError>
        ensures { IfOk result (λ changed. changed ≡ record self.now { batch = batch }) }
    {
        Ok(Transaction {
            batch,
            locked: copy_locked(&self.locked, alloc)?,
        })
    }
}

/// Whether the snapshot of what is read is registered, if something is read.
fn is_left(reading: Option<Observed>, registered: &[Registration]) -> bool
    ensures { reading_left reading registered.now ≡ (if result then reading else None) }
{
    let Some(seen) = reading else {
        return true;
    };
    has_snapshot(&seen, registered)
}

fn has_snapshot(seen: &Observed, registered: &[Registration]) -> bool
    ensures { result ≡ list_any (is_same_registration (snapshot_of seen.now)) registered.now }
{
    registered.iter().any(|r| seen.snapshot == r.number && seen.smallest == r.smallest)
}

/// Whether it is the state of that turn.
fn is_of(content: &Content, turn: Turn) -> bool
    ensures { result ≡ (turn_index (tables.turn_of content.now) == turn_index (turn_of turn)) }
{
    content.turn().index() == turn.index()
}

fn place_of(held: &[Content], turn: Turn) -> Option<usize>
    ensures { result ≡ place_from (turn_of turn) 0 held.now }
{
    for (i, content) in held.iter().enumerate() {
        if is_of(content, turn) {
            return Some(i);
        }
    }
    None
}

fn put(held: &mut Vec<Content>, place: usize, content: Content)
    requires { place < length held.old.items }
    ensures { held.new.items ≡ slice_set held.old.items place content }
{
    held[place] = content;
}

#[tactic(auto, using(crate::proofs::Held::places))]
fn hold(held: &mut Vec<Content>, content: Content)
    ensures { held.new.items ≡ held_with held.old.items content }
{
    if let Some(place) = place_of(held, content.turn()) {
        put(held, place, content);
    }
}

fn let_go(held: &mut Vec<Content>, turn: Turn)
    ensures { held.new.items ≡ held_without held.old.items (turn_of turn) }
{
    held.retain(|c| !is_of(c, turn));
}

impl Actor {
    ghost use Rattle.wp_machine.specs.Marks.{left_by, apart_step};

    pub fn new(alloc: Global, live: bool, client: Option<Name>, seen: Vec<Entry>) -> Actor
        ensures { result ≡ new_actor live (client_of client) seen.items }
    {
        Actor {
            participant: Participant::new(alloc, client, seen),
            learned: Vec::new(alloc),
            held: Vec::new(alloc),
            reading: None,
            notes: Vec::new(alloc),
            live,
            made: 0,
            joined: Vec::new(alloc),
        }
    }

    pub fn see(&mut self, history: &[Entry], alloc: Global) -> Result<(), AllocError>
        ensures { OnOk result (self.new ≡ sees history.now self.old) }
    {
        self.participant.seen = copy_entries(history, alloc)?;
        self.learned.clear();
        Ok(())
    }

    /// The state of a turn that it holds, as it leaves it.
    pub fn hold(&mut self, content: Content)
        ensures { self.new ≡ record self.old { held = held_with self.old.held content } }
    {
        hold(&mut self.held, content);
    }

    pub fn let_go(&mut self, turn: Turn)
        ensures { self.new ≡ record self.old { held = held_without self.old.held (turn_of turn) } }
    {
        let_go(&mut self.held, turn);
    }

    pub fn register(&mut self, registration: Registration) -> Result<(), AllocError>
        ensures { OnOk result (self.new ≡ registers self.old registration) }
    {
        add(&mut self.participant.registered, registration)
    }

    pub fn put_transaction(
        &mut self,
        name: &Name,
        transaction: Transaction,
        alloc: Global,
    ) -> Result<(), AllocError>
        ensures { OnOk result (self.new ≡ has_transaction self.old name.now transaction) }
    {
        let name = name.copy(alloc)?;
        add_first(&mut self.participant.transactions, (name, transaction))
    }

    /// What follows from a store of the published number: the history is one longer, by an entry of the actor's.
    pub fn publish(&mut self, history: &[Entry], alloc: Global) -> Result<(), AllocError>
        ensures { OnOk result (self.new ≡ has_published history.now self.old) }
    {
        self.see(history, alloc)?;
        add(&mut self.participant.own, history.len() as Seq)
    }

    /// Its registration at that place goes, with a reading of it. The number of the registration, if there is one.
    pub fn release(&mut self, place: usize) -> Option<Seq>
        ensures number { result ≡ released_number (drop place self.old.participant.registered) }
        ensures left { self.new ≡ has_released self.old (take place self.old.participant.registered) (drop place self.old.participant.registered) }
    {
        if place >= self.participant.registered.len() {
            return None;
        }
        let released = self.participant.registered.remove(place);
        if !is_left(self.reading, &self.participant.registered) {
            self.reading = None;
        }
        Some(released.number)
    }

    /// One more is made by it.
    pub fn count_one(&mut self) -> Result<(), AllocError>
        ensures { OnOk result (self.new ≡ made_one self.old) }
    {
        self.made = self.made.checked_add(1).ok_or(AllocError)?;
        Ok(())
    }

    /// What the note saw is learned.
    pub fn learn(&mut self, mut note: Actor)
        ensures { self.new ≡ informed self.old note }
    {
        std::mem::swap(&mut self.learned, &mut note.participant.seen);
    }

    pub fn join(&mut self, seat: Actor) -> Result<(), AllocError>
        ensures { OnOk result (self.new ≡ joins self.old seat) }
    {
        let Actor {
            participant,
            learned: _learned,
            held: _held,
            reading: _reading,
            notes: _notes,
            live: _live,
            made: _made,
            joined: _joined,
        } = seat;
        add_first(&mut self.joined, participant)
    }

    /// It makes a step of this kind, which may end what it noted.
    pub fn mark(&mut self, world: &World, kind: &Kind) -> Result<(), AllocError>
        ensures { OnOk result (self.new ≡ record self.old { notes = left_by (apart_step world.now.writes world.now.store world.now.locks self.old.participant kind.now) world.now.writes.history (length world.now.cache) self.old.notes }) }
    {
        let mark = Mark::of(world, &self.participant, kind);
        add_first(&mut self.notes, mark)
    }

    pub fn note(&mut self, fact: Fact) -> Result<(), AllocError>
        ensures { OnOk result (self.new ≡ record self.old { notes = fact ∷ self.old.notes }) }
    {
        add_first(&mut self.notes, Mark::Noted(Snapshot::of(&fact)))
    }

    pub fn take_transaction(&mut self, name: &Name)
        ensures { self.new ≡ has_no_transaction self.old name.now }
    {
        take_named(&mut self.participant.transactions, name);
    }

    pub fn set_direct(&mut self, key: Option<Key>)
        ensures { self.new ≡ has_direct self.old key }
    {
        self.participant.direct = key;
    }

    pub fn remember(&mut self, event: Event) -> Result<(), AllocError>
        ensures { OnOk result (self.new ≡ remembers self.old event) }
    {
        add(&mut self.participant.past, event)
    }
}

// Written out, so that no crate above proves anew how all that it holds is let go.
impl Drop for Transaction {
    fn drop(self) {
        let Self {
            batch: _batch,
            locked: _locked,
        } = self;
    }
}

impl Drop for Participant {
    fn drop(self) {
        let Self {
            client: _client,
            seen: _seen,
            own: _own,
            past: _past,
            registered: _registered,
            transactions: _transactions,
            direct: _direct,
        } = self;
    }
}

impl Drop for Actor {
    fn drop(self) {
        let Self {
            participant: _participant,
            learned: _learned,
            held: _held,
            reading: _reading,
            notes: _notes,
            live: _live,
            made: _made,
            joined: _joined,
        } = self;
    }
}
