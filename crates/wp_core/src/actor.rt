use std::marker::Model;

/// The state of an actor of the machine, as what a seat knows. It stands in types and clauses alone: nothing makes one.
pub struct Actor;

impl Model for Actor {
    ghost use Rattle.std.specs.Coded.{codes};
    ghost use Rattle.std.specs.Prelude.{[], false};
    ghost use Rattle.wp_core.specs.World.{Actor, new_actor};
    ghost use Rattle.wp_model.specs.PreparedSets.{prepared_sets_code};
    ghost use Rattle.wp_model.specs.Snapshots.{snapshots_code};
    ghost use Rattle.wp_model.specs.LockState.{lock_state_code};
    ghost use Rattle.wp_core.specs.Codes.{transactions_code};

    ghost Value = { Actor };

    ghost coded = { Prim.hlevel (codes, prepared_sets_code, snapshots_code, lock_state_code, transactions_code) };

    ghost view = { λ _. new_actor false [] [] };
}
