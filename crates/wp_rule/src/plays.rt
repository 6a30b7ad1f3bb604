//! What each atomic step tells its seat.
ghost use Rattle.std.specs.Prelude.{List, [], None, false};
ghost use Rattle.wp_core.specs.Turns.{Turn, write_turn};
ghost use Rattle.wp_core.specs.World.{World, new_actor};
ghost use Rattle.wp_core.specs.Steps.{Step};
ghost use Rattle.wp_core.specs.Changes.{made_one, informed, joins, joined_actor};
ghost use Rattle.wp_rule.specs.Words.{Place};
ghost use Rattle.wp_rule.specs.Plays.{loads, stores, unclaims, claims};

use crate::part::HoldsPart;
use atomic_table::{Join, Play, Split};
use std::marker::{Brand, PhantomData};
use wp_core::Actor;

/// For the proof alone: a seat, and the steps of the machine that its actor makes at an atomic step of the table. Which they
/// are may depend on the world that the table then shows. A caller picks them, by `Brand`.
pub trait Moves {
    ghost place: { Place };

    ghost steps: { World → List Step };
}

impl Moves for Brand {
    ghost place = { record { opened = []; cells = 0; first_edit = None; by = 0 } };

    ghost steps = { λ w. [] };
}

/// For the proof alone: a seat, the turn that it takes or gives, and the values behind the turns as the table was made.
pub(crate) trait OfTurn<S> {
    ghost place: { Place };

    ghost turn: { Turn };

    ghost first: { List S };
}

impl<S> OfTurn<S> for Brand {
    ghost place = { record { opened = []; cells = 0; first_edit = None; by = 0 } };

    ghost turn = { write_turn };

    ghost first = { [] };
}

pub(crate) struct LoadPlay<J> {
    of: PhantomData<J>,
}

impl<S, J: Moves> Play<S, Actor> for LoadPlay<J> {
    ghost then = { loads J.place J.steps };
}

pub(crate) struct StorePlay<J> {
    of: PhantomData<J>,
}

impl<S, J: Moves> Play<S, Actor> for StorePlay<J> {
    ghost then = { stores J.place J.steps };
}

pub(crate) struct UnclaimPlay<J> {
    of: PhantomData<J>,
}

impl<S, J: OfTurn<S>> Play<S, Actor> for UnclaimPlay<J> {
    ghost then = { unclaims J.place J.turn };
}

pub(crate) struct ClaimPlay<S, J> {
    of: PhantomData<(S, J)>,
}

impl<S: HoldsPart, J: OfTurn<S>> Play<S, Actor> for ClaimPlay<S, J> {
    ghost then = { claims S.content (S.tells J.first) J.place J.turn };
}

pub(crate) struct NoteSplit;

impl Split<Actor> for NoteSplit {
    ghost left = { λ a. a };

    ghost right = { λ a. new_actor false a.participant.client a.participant.seen };
}

pub(crate) struct SeatSplit;

impl Split<Actor> for SeatSplit {
    ghost use Rattle.std.specs.Prelude.{true};

    ghost left = { made_one };

    ghost right = { λ a. new_actor true a.participant.client a.participant.seen };
}

pub(crate) struct LearnJoin;

impl Join<Actor> for LearnJoin {
    ghost both = { informed };

    ghost spent = { joined_actor };
}

pub(crate) struct SeatJoin;

impl Join<Actor> for SeatJoin {
    ghost both = { joins };

    ghost spent = { joined_actor };
}
