//! The rule: the words, the home slots and the views show a world that steps of the machine reach.
ghost use Rattle.std.specs.Prelude.{true};
ghost use Rattle.wp_core.specs.World.{new_actor};
ghost use Rattle.wp_rule.specs.Shows.{Shows};

use crate::opening::Opening;
use crate::part::HoldsPart;
use atomic_table::TableRule;
use std::marker::PhantomData;
use wp_core::Actor;

pub struct Rule<S> {
    of: PhantomData<S>,
}

impl<S: HoldsPart> TableRule<S, Actor, Opening<S>> for Rule<S> {
    ghost holds = { λ key. Shows S.content (S.tells key.first.value.items) key.first.value.items key.entries.value.entries key.cells };

    ghost first = { λ key. new_actor true key.client.value key.entries.value.entries };
}
