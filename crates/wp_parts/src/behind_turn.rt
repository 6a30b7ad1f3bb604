//! The values behind the turns, each by the turn that guards it.
ghost use Rattle.std.specs.Prelude.{◌≡◌, List, Some};
ghost use Rattle.wp_core.specs.States.{Content, writes, prepared, snapshots, store, locks, installed};
ghost use Rattle.wp_core.specs.States as tables;
ghost use Rattle.wp_core.specs.Turns.{Turn, write_turn, prepared_turn, snapshots_turn, store_turn, locks_turn, tables_turn, turn_of};
ghost use Rattle.wp_parts.specs.Parts.{content, tells, log_first, set_first, IsGuardedBy};
ghost use Rattle.wp_parts.specs.Stock.{store_state};
ghost use Rattle.wp_parts.specs.declared.turn_value.TurnValue.{TurnValue};
ghost use Rattle.wp_parts.specs.declared.turn_value.TurnValue.TheVariants as variant;

use crate::edits::VersionSet;
use crate::log::Log;
use crate::stock::Stock;
use crate::turn_value::TurnValue;
use wp_locks::Locks;
use wp_outside::Disk;
use wp_prepared::Prepared;
use wp_rule as rule;
use wp_rule::HoldsPart;
use wp_snaps::Snaps;

/// A value that lies behind a turn, in a slot as wide as any.
pub trait BehindTurn<S: HoldsPart>: Sized {
    /// The turn that guards it.
    ghost turn: { Turn };

    /// The state of the machine that it is.
    ghost state: { Self → Content };

    /// Its devices were opened as those of the values behind the turns, of which the list has each as the table of the words was made.
    ghost is_of: { List S → Self → Type 0 };

    /// Its state is that of the turn.
    ghost of_turn: { (x : Self) → tables.turn_of (state x) ≡ turn };

    /// The turn that guards it.
    fn turn() -> rule::Turn
        ensures { turn_of result ≡ turn };

    /// The value of its turn's slot.
    fn out_of(part: S) -> Box<Self>
        requires { (c : Content) × (S.content part ≡ Some c) × (tables.turn_of c ≡ turn) }
        ensures table { S.content part ≡ Some (state result.value) }
        ensures of { (first : List S) → S.tells first part → is_of first result.value };

    /// The value, for its turn's slot. What a crash leaves of its devices is as its state says.
    fn into_part(value: Box<Self>) -> S
        ensures table { S.content result ≡ Some (state value.value) }
        ensures tells { (first : List S) → is_of first value.value → S.tells first result };
}

impl<D: Disk> BehindTurn<TurnValue<D>> for Log<D> {
    ghost turn = { write_turn };

    ghost state = { λ x. writes x.state };

    ghost is_of = { λ first x. log_first first ≡ Some x.first };

    ghost of_turn = { λ x i. write_turn };

    fn turn() -> rule::Turn {
        rule::Turn::Write
    }

    fn out_of(part: TurnValue<D>) -> Box<Log<D>>
        requires { IsGuardedBy write_turn part }
        ensures table { content part ≡ Some (writes result.value.state) }
        ensures of { (first : List (TurnValue D)) → tells first part → log_first first ≡ Some result.value.first }
        ensures exact { part ≡ variant.Write result }
    {
        match part {
            TurnValue::Write(value) => value,
            _ => unreachable!(),
        }
    }

    fn into_part(value: Box<Log<D>>) -> TurnValue<D>
        ensures table { content result ≡ Some (writes value.value.state) }
        ensures tells { (first : List (TurnValue D)) → log_first first ≡ Some value.value.first → tells first result }
    {
        value.devices_agree();
        TurnValue::Write(value)
    }
}

impl<D: Disk> BehindTurn<TurnValue<D>> for Prepared {
    ghost turn = { prepared_turn };

    ghost state = { λ x. prepared x };

    ghost is_of = { λ first x. Unit {0} };

    ghost of_turn = { λ x i. prepared_turn };

    fn turn() -> rule::Turn {
        rule::Turn::Prepared
    }

    fn out_of(part: TurnValue<D>) -> Box<Prepared>
        requires { IsGuardedBy prepared_turn part }
        ensures table { content part ≡ Some (prepared result.value) }
        ensures of { (first : List (TurnValue D)) → tells first part → Unit {0} }
    {
        match part {
            TurnValue::Prepared(value) => value,
            _ => unreachable!(),
        }
    }

    fn into_part(value: Box<Prepared>) -> TurnValue<D>
        ensures table { content result ≡ Some (prepared value.value) }
        ensures tells { (first : List (TurnValue D)) → Unit {0} → tells first result }
    {
        TurnValue::Prepared(value)
    }
}

impl<D: Disk> BehindTurn<TurnValue<D>> for Snaps {
    ghost turn = { snapshots_turn };

    ghost state = { λ x. snapshots x };

    ghost is_of = { λ first x. Unit {0} };

    ghost of_turn = { λ x i. snapshots_turn };

    fn turn() -> rule::Turn {
        rule::Turn::Snapshots
    }

    fn out_of(part: TurnValue<D>) -> Box<Snaps>
        requires { IsGuardedBy snapshots_turn part }
        ensures table { content part ≡ Some (snapshots result.value) }
        ensures of { (first : List (TurnValue D)) → tells first part → Unit {0} }
    {
        match part {
            TurnValue::Snapshots(value) => value,
            _ => unreachable!(),
        }
    }

    fn into_part(value: Box<Snaps>) -> TurnValue<D>
        ensures table { content result ≡ Some (snapshots value.value) }
        ensures tells { (first : List (TurnValue D)) → Unit {0} → tells first result }
    {
        TurnValue::Snapshots(value)
    }
}

impl<D: Disk> BehindTurn<TurnValue<D>> for Stock {
    ghost turn = { store_turn };

    ghost state = { λ x. store (store_state x) };

    ghost is_of = { λ first x. Unit {0} };

    ghost of_turn = { λ x i. store_turn };

    fn turn() -> rule::Turn {
        rule::Turn::Store
    }

    fn out_of(part: TurnValue<D>) -> Box<Stock>
        requires { IsGuardedBy store_turn part }
        ensures table { content part ≡ Some (store (store_state result.value)) }
        ensures of { (first : List (TurnValue D)) → tells first part → Unit {0} }
    {
        match part {
            TurnValue::Store(value) => value,
            _ => unreachable!(),
        }
    }

    fn into_part(value: Box<Stock>) -> TurnValue<D>
        ensures table { content result ≡ Some (store (store_state value.value)) }
        ensures tells { (first : List (TurnValue D)) → Unit {0} → tells first result }
    {
        TurnValue::Store(value)
    }
}

impl<D: Disk> BehindTurn<TurnValue<D>> for Locks {
    ghost turn = { locks_turn };

    ghost state = { λ x. locks x };

    ghost is_of = { λ first x. Unit {0} };

    ghost of_turn = { λ x i. locks_turn };

    fn turn() -> rule::Turn {
        rule::Turn::Locks
    }

    fn out_of(part: TurnValue<D>) -> Box<Locks>
        requires { IsGuardedBy locks_turn part }
        ensures table { content part ≡ Some (locks result.value) }
        ensures of { (first : List (TurnValue D)) → tells first part → Unit {0} }
    {
        match part {
            TurnValue::Locks(value) => value,
            _ => unreachable!(),
        }
    }

    fn into_part(value: Box<Locks>) -> TurnValue<D>
        ensures table { content result ≡ Some (locks value.value) }
        ensures tells { (first : List (TurnValue D)) → Unit {0} → tells first result }
    {
        TurnValue::Locks(value)
    }
}

impl<D: Disk> BehindTurn<TurnValue<D>> for VersionSet<D> {
    ghost turn = { tables_turn };

    ghost state = { λ x. installed x.state };

    ghost is_of = { λ first x. set_first first ≡ Some x.first };

    ghost of_turn = { λ x i. tables_turn };

    fn turn() -> rule::Turn {
        rule::Turn::Tables
    }

    fn out_of(part: TurnValue<D>) -> Box<VersionSet<D>>
        requires { IsGuardedBy tables_turn part }
        ensures table { content part ≡ Some (installed result.value.state) }
        ensures of { (first : List (TurnValue D)) → tells first part → set_first first ≡ Some result.value.first }
        ensures exact { part ≡ variant.Tables result }
    {
        match part {
            TurnValue::Tables(value) => value,
            _ => unreachable!(),
        }
    }

    fn into_part(value: Box<VersionSet<D>>) -> TurnValue<D>
        ensures table { content result ≡ Some (installed value.value.state) }
        ensures tells { (first : List (TurnValue D)) → set_first first ≡ Some value.value.first → tells first result }
    {
        value.devices_agree();
        TurnValue::Tables(value)
    }
}
