//! Whether a holder that an actor found is there, and accounted for.
ghost use Rattle.std.specs.Prelude.{◌≡◌, ◌≢◌, ◌↔◌, ◌⊎◌, ℕ, List, Option, Some, None, true, map, IfSome};
ghost use Rattle.wp_model.specs.declared.holder.Holder.TheVariants.{Client};
ghost use Rattle.wp_core.specs.World.{Actor};
ghost use Rattle.wp_core.specs.Views.{prepare_at};
ghost use mathlib.Core.Option.{some};
ghost use lib.ListN.{get_elem?};
ghost use Rattle.wp_core.specs.Steps as step;
ghost use Rattle.wp_core.specs.Needs.{Needs};
ghost use Rattle.wp_core.specs.Conditions.{IsHolder, IsSelf, IsOther, Accounts};
ghost use Rattle.wp_core.specs.Sound.Actors.{participants_of};
ghost use Rattle.wp_core.specs.Sound.Locks.{Owner, owner_of};
ghost use Rattle.wp_machine.specs.Parts.{account_of};

use crate::needs::transactions::owns;
use wp_machine::{Account, Actor, Participant, Turn, World};
use wp_model::{Holder, Key, Name, Seq};

fn is_holder_of(world: &World, key: &Key, holder: &Holder) -> bool
    ensures { (result ≡ true) ↔ IsHolder world.now (Some key.now) holder.now }
{
    match world.locks.holder(key) {
        Some(other) => other.is_same(holder),
        None => false,
    }
}

fn is_live_name(world: &World, holder: &Holder) -> bool
    ensures { (result ≡ true) ↔ IsHolder world.now None holder.now }
{
    match holder {
        Holder::Txn(name) => world.locks.name(name).is_some(),
        Holder::Client(_) => false,
    }
}

/// Whether the holder is that of the key, or else a live name.
fn is_holder(world: &World, key: &Option<Key>, holder: &Holder) -> bool
    ensures { (result ≡ true) ↔ IsHolder world.now key.now holder.now }
{
    match key {
        Some(key) => is_holder_of(world, key, holder),
        None => is_live_name(world, holder),
    }
}

fn has_direct(participant: &Participant, key: &Option<Key>, client: &Name) -> bool
    ensures { result ≡ true → IsSelf (owner_of participant.now) key.now (Client client.now) }
{
    match (key, &participant.direct, &participant.client) {
        (Some(key), Some(direct), Some(own)) => key == direct && own == client,
        _ => false,
    }
}

/// Whether the participant is that holder: it has the transaction, or the direct write of the key.
fn is_self(participant: &Participant, key: &Option<Key>, holder: &Holder) -> bool
    ensures { result ≡ true → IsSelf (owner_of participant.now) key.now holder.now }
{
    match holder {
        Holder::Txn(name) => owns(participant, name),
        Holder::Client(client) => has_direct(participant, key, client),
    }
}

fn self_among(participants: &[Participant], key: &Option<Key>, holder: &Holder) -> Option<usize>
    ensures { IfSome result (λ i. (o : Owner) × (get_elem? (map owner_of participants.now) i ≡ some o) × IsSelf o key.now holder.now) }
{
    for (i, participant) in participants.iter().enumerate() {
        if is_self(participant, key, holder) {
            return Some(i);
        }
    }
    None
}

/// Whether one of the actor's participants is that holder, but for its own where it is not apart.
fn has_self(actor: &Actor, is_apart: bool, key: &Option<Key>, holder: &Holder) -> bool
    ensures { result ≡ true → (i : ℕ) × (o : Owner) × (get_elem? (participants_of owner_of actor.now) i ≡ some o) × ((is_apart ≡ true) ⊎ (i ≢ 0)) × IsSelf o key.now holder.now }
{
    if is_apart && is_self(&actor.participant, key, holder) {
        return true;
    }
    match self_among(&actor.joined, key, holder) {
        Some(_) => true,
        None => false,
    }
}

/// Whether a participant other than the actor's own is that holder.
fn is_other(world: &World, by: usize, key: &Option<Key>, holder: &Holder) -> bool
    ensures { result ≡ true → IsOther world.now by key.now holder.now }
{
    for (at, actor) in world.actors.iter().enumerate() {
        if has_self(actor, at != by, key, holder) {
            return true;
        }
    }
    false
}

/// Whether the holder is a transaction that nobody has, and so many entries are all.
fn is_left(world: &World, holder: &Holder, n: Seq) -> bool
    ensures { (by : ℕ) (a : Actor) (key : Option (List ℕ)) → result ≡ true → Accounts world.now by a key holder.now (prepare_at n) }
{
    match holder {
        Holder::Txn(name) => world.writes.published() == n && world.locks.is_left(name),
        Holder::Client(_) => false,
    }
}

fn accounts(
    world: &World,
    by: usize,
    actor: &Actor,
    key: &Option<Key>,
    holder: &Holder,
    account: Account,
) -> bool
    ensures { result ≡ true → Accounts world.now by actor.now key.now holder.now (account_of account) }
{
    match account {
        Account::Own => is_self(&actor.participant, key, holder),
        Account::Another => is_other(world, by, key, holder),
        Account::PrepareAt(n) => is_left(world, holder, n),
    }
}

/// Whether the actor may say that it found the holder, and how it is accounted for.
pub(crate) fn may_find(
    world: &World,
    by: usize,
    actor: &Actor,
    key: &Option<Key>,
    holder: &Holder,
    account: Account,
) -> bool
    ensures { result ≡ true → Needs world.now by actor.now (step.find_holder key.now holder.now (account_of account)) }
{
    if world.holders.of(Turn::Locks) != Some(by) || !is_holder(world, key, holder) {
        return false;
    }
    accounts(world, by, actor, key, holder, account)
}
