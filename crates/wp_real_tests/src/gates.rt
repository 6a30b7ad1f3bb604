//! What a gate in memory says of the lines that it holds back.

use std::alloc::{AllocError, Global};
use wp_memory::{Hold, HoldGate, Until};
use wp_outside::Gate;

/// How often a held line asks whether its hold is over.
const TURNS: u64 = 3;

/// The first line of client 1 waits until that of client 2 is answered.
fn gate(alloc: Global) -> Result<HoldGate, AllocError> {
    let hold = Hold {
        client: 1,
        line: 1,
        until: Until::Answered(2, 1),
    };
    HoldGate::new(alloc, vec![in alloc; hold]?, TURNS)
}

/// The held line goes on before the other came, so the gate was late. It is whole once that has come and is answered.
fn is_late(gate: &HoldGate) -> bool {
    gate.pass(1, 1);
    gate.done(1, 1);
    let without = (gate.late(), gate.whole());
    gate.pass(2, 1);
    let unanswered = (gate.late(), gate.whole());
    gate.done(2, 1);
    without == (true, false) && unanswered == (true, false) && gate.late() && gate.whole()
}

/// The other line comes first. The gate is whole once both are answered, and was not late.
fn is_in_time(gate: &HoldGate) -> bool {
    let at_first = (gate.late(), gate.whole());
    gate.pass(2, 1);
    gate.done(2, 1);
    gate.pass(1, 1);
    let unanswered = (gate.late(), gate.whole());
    gate.done(1, 1);
    at_first == (false, false) && unanswered == (false, false) && !gate.late() && gate.whole()
}

/// Whether gates say so of both orders.
pub(crate) fn tell(alloc: Global) -> Result<bool, AllocError> {
    Ok(is_late(&gate(alloc)?) && is_in_time(&gate(alloc)?))
}
