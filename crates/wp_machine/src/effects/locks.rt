//! What the steps with the locks turn make of a world.
ghost use Rattle.std.specs.Prelude.{◌≡◌, ℕ, IfOk, OnOk, Some, None, option_map};
ghost use Rattle.std.specs.FinSet as set;
ghost use Rattle.std.specs.FinMap as finite;
ghost use Rattle.wp_model.specs.History.{batch_at};
ghost use Rattle.wp_model.specs.declared.holder.Holder.TheVariants as holder;
ghost use Rattle.wp_core.specs.States as tables;
ghost use Rattle.wp_core.specs.Views.{locked};
ghost use Rattle.wp_core.specs.Changes.{remembers, has_transaction, with_actor, change, with_name, with_key, without_key, keys_of_holder};
ghost use Rattle.wp_core.specs.Steps as step;
ghost use Rattle.wp_machine.specs.Parts.{account_of};
ghost use Rattle.wp_machine.specs.Machine.{locks_step};
ghost use Rattle.wp_machine.specs.Effect.{IsEffect};

use crate::actor::{Actor, Transaction};
use crate::effects::turn::hold;
use crate::locks::LockState;
use crate::step::LocksStep;
use crate::views::{Account, Event, Found};
use crate::world::World;
use std::alloc::{AllocError, Global};
use std::snapshot::Snapshot;
use wp_core::Turn;
use wp_model::{Holder, Key, Name, Seq};

/// The transaction is the actor's, and what made it so stays in its past.
fn have(
    actor: &mut Actor,
    name: &Name,
    transaction: Transaction,
    event: Event,
    alloc: Global,
) -> Result<(), AllocError>
    ensures { OnOk result (actor.new ≡ remembers (has_transaction actor.old name.now transaction) event) }
{
    actor.put_transaction(name, transaction, alloc)?;
    actor.remember(event)
}

/// The client of the actor has the name.
fn own_name(world: &mut World, actor: &mut Actor, name: &Name) -> Result<(), AllocError>
    ensures { OnOk result ((by : ℕ) → with_actor world.new by actor.new
        ≡ change world.old by actor.old (tables.locks (with_name world.old.locks name.now (Some actor.old.participant.client)))) }
{
    let alloc = world.alloc;
    let client = actor.participant.client(alloc)?;
    world.locks.put_name(name, Some(client), alloc)?;
    hold(world, actor, Turn::Locks);
    Ok(())
}

fn claim_name(world: &mut World, actor: &mut Actor, name: &Name) -> Result<(), AllocError>
    ensures { OnOk result ((by : ℕ) → IsEffect by world.old actor.old (step.claim_name name.now) world.new actor.new) }
{
    let alloc = world.alloc;
    let event = Event::of(Found::Claimed(Snapshot::of(name)));
    have(actor, name, Transaction::new(alloc), event, alloc)?;
    own_name(world, actor, name)
}

/// The keys that are held for the transaction.
fn keys_for(tables: &LockState, name: &Name, alloc: Global) -> Result<Vec<Key>, AllocError>
    ensures { IfOk result (λ keys. set.from_list keys.items ≡ keys_of_holder tables.now (holder.Txn name.now)) }
{
    let holder = Holder::Txn(name.copy(alloc)?);
    tables.keys_of(&holder, alloc)
}

/// What the undecided prepare with this name and number leaves to the actor that takes it.
fn left(world: &World, name: &Name, p: Seq) -> Result<Transaction, AllocError>
    ensures { IfOk result (λ t. t ≡ record { batch = batch_at world.now.writes.history p; locked = keys_of_holder world.now.locks (holder.Txn name.now) }) }
{
    let batch = world.writes.batch_at(p, world.alloc)?;
    let locked = keys_for(&world.locks, name, world.alloc)?;
    Ok(Transaction::with(batch, locked))
}

fn take_name(world: &mut World, actor: &mut Actor, name: &Name, p: Seq) -> Result<(), AllocError>
    ensures { OnOk result ((by : ℕ) → IsEffect by world.old actor.old (step.take_name name.now p) world.new actor.new) }
{
    let transaction = left(world, name, p)?;
    let event = Event::of(Found::Took(Snapshot::of(name)));
    have(actor, name, transaction, event, world.alloc)?;
    own_name(world, actor, name)
}

fn leave_name(world: &mut World, actor: &mut Actor, name: &Name) -> Result<(), AllocError>
    ensures { OnOk result ((by : ℕ) → IsEffect by world.old actor.old (step.leave_name name.now) world.new actor.new) }
{
    let alloc = world.alloc;
    actor.take_transaction(name);
    world.locks.put_name(name, None, alloc)?;
    hold(world, actor, Turn::Locks);
    Ok(())
}

fn free_transaction(world: &mut World, actor: &mut Actor, name: &Name) -> Result<(), AllocError>
    ensures { OnOk result ((by : ℕ) → IsEffect by world.old actor.old (step.free_transaction name.now) world.new actor.new) }
{
    let alloc = world.alloc;
    actor.take_transaction(name);
    world.locks.free_transaction(name, alloc)?;
    hold(world, actor, Turn::Locks);
    Ok(())
}

fn locked(key: &Key, holder: &Holder, alloc: Global) -> Result<Event, AllocError>
    ensures { IfOk result (λ event. event ≡ locked key.now holder.now) }
{
    let (key, holder) = (key.copy(alloc)?, holder.copy(alloc)?);
    Ok(Event::of(Found::Locked(key, holder)))
}

/// The holder has the key.
fn put_key(
    world: &mut World,
    actor: &mut Actor,
    key: &Key,
    holder: Holder,
) -> Result<(), AllocError>
    ensures { OnOk result ((by : ℕ) → with_actor world.new by actor.new
        ≡ change world.old by actor.old (tables.locks (with_key world.old.locks key.now holder))) }
{
    let alloc = world.alloc;
    world.locks.put_key(key, holder, alloc)?;
    hold(world, actor, Turn::Locks);
    Ok(())
}

fn lock_key(world: &mut World, actor: &mut Actor, name: &Name, key: &Key) -> Result<(), AllocError>
    ensures { (s : step.Step) → option_map (λ t. step.lock_key name.now t key.now) (finite.get actor.old.participant.transactions name.now) ≡ Some s
        → OnOk result ((by : ℕ) → IsEffect by world.old actor.old s world.new actor.new) }
{
    let alloc = world.alloc;
    let Some(transaction) = actor.participant.transaction(name) else {
        return Ok(());
    };
    let changed = transaction.with_key(key, alloc)?;
    let holder = Holder::Txn(name.copy(alloc)?);
    let event = locked(key, &holder, alloc)?;
    have(actor, name, changed, event, alloc)?;
    put_key(world, actor, key, holder)
}

/// Nobody has the key.
fn take_key(world: &mut World, actor: &mut Actor, key: &Key)
    ensures { (by : ℕ) → with_actor world.new by actor.new
        ≡ change world.old by actor.old (tables.locks (without_key world.old.locks key.now)) }
{
    world.locks.take_key(key);
    hold(world, actor, Turn::Locks);
}

fn free_key(world: &mut World, actor: &mut Actor, name: &Name, key: &Key) -> Result<(), AllocError>
    ensures { (s : step.Step) → option_map (λ t. step.free_key name.now t key.now) (finite.get actor.old.participant.transactions name.now) ≡ Some s
        → OnOk result ((by : ℕ) → IsEffect by world.old actor.old s world.new actor.new) }
{
    let alloc = world.alloc;
    let Some(transaction) = actor.participant.transaction(name) else {
        return Ok(());
    };
    let changed = transaction.without_key(key, alloc)?;
    actor.put_transaction(name, changed, alloc)?;
    take_key(world, actor, key);
    Ok(())
}

fn lock_direct(world: &mut World, actor: &mut Actor, key: &Key) -> Result<(), AllocError>
    ensures { OnOk result ((by : ℕ) → IsEffect by world.old actor.old (step.lock_direct key.now) world.new actor.new) }
{
    let alloc = world.alloc;
    actor.set_direct(Some(key.copy(alloc)?));
    let holder = Holder::Client(actor.participant.client(alloc)?);
    let event = locked(key, &holder, alloc)?;
    actor.remember(event)?;
    put_key(world, actor, key, holder)
}

fn free_direct(world: &mut World, actor: &mut Actor, key: &Key)
    ensures { (by : ℕ) → IsEffect by world.old actor.old (step.free_direct key.now) world.new actor.new }
{
    actor.set_direct(None);
    take_key(world, actor, key);
}

fn find_holder(
    world: &mut World,
    actor: &mut Actor,
    key: &Option<Key>,
    holder: &Holder,
    account: Account,
) -> Result<(), AllocError>
    ensures { OnOk result ((by : ℕ) → IsEffect by world.old actor.old (step.find_holder key.now holder.now (account_of account)) world.new actor.new) }
{
    let seen = actor.participant.seen.len() as Seq;
    let (key, holder) = (Snapshot::of(key), Snapshot::of(holder));
    actor.remember(Event::of(Found::Holder(key, holder, seen, account)))
}

fn tell(world: &mut World, actor: &mut Actor, label: &Name) -> Result<(), AllocError>
    ensures { OnOk result ((by : ℕ) → IsEffect by world.old actor.old (step.tell label.now) world.new actor.new) }
{
    let alloc = world.alloc;
    let seen = actor.participant.seen.len() as Seq;
    actor.remember(Event::of(Found::Told(Snapshot::of(label), seen)))?;
    world.locks.put_label(label, seen, alloc)?;
    hold(world, actor, Turn::Locks);
    Ok(())
}

fn hear(world: &mut World, actor: &mut Actor, label: &Name) -> Result<(), AllocError>
    ensures { (s : step.Step) → option_map (step.hear label.now) (finite.get world.old.locks.labels label.now) ≡ Some s
        → OnOk result ((by : ℕ) → IsEffect by world.old actor.old s world.new actor.new) }
{
    match world.locks.told(label) {
        Some(n) => actor.remember(Event::of(Found::Heard(Snapshot::of(label), n))),
        None => Ok(()),
    }
}

pub(crate) fn locks(
    world: &mut World,
    actor: &mut Actor,
    kind: &LocksStep,
) -> Result<(), AllocError>
    ensures { (s : step.Step) → locks_step world.old.locks actor.old.participant kind.now ≡ Some s
        → OnOk result ((by : ℕ) → IsEffect by world.old actor.old s world.new actor.new) }
{
    match kind {
        LocksStep::ClaimName(name) => claim_name(world, actor, name),
        LocksStep::TakeName(name, p) => take_name(world, actor, name, *p),
        LocksStep::LeaveName(name) => leave_name(world, actor, name),
        LocksStep::FreeTransaction(name) => free_transaction(world, actor, name),
        LocksStep::LockKey(name, key) => lock_key(world, actor, name, key),
        LocksStep::FreeKey(name, key) => free_key(world, actor, name, key),
        LocksStep::LockDirect(key) => lock_direct(world, actor, key),
        LocksStep::FreeDirect(key) => {
            free_direct(world, actor, key);
            Ok(())
        }
        LocksStep::FindHolder(key, holder, account) => {
            find_holder(world, actor, key, holder, *account)
        }
        LocksStep::Tell(label) => tell(world, actor, label),
        LocksStep::Hear(label) => hear(world, actor, label),
    }
}
