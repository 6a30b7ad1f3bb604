//! Whether no prepared number waits to be taken out.
ghost use Rattle.std.specs.Prelude.{◌≡◌, ◌≤◌, true, Some, IfOk};
ghost use Rattle.wp_core.specs.Sound.Views.{NoneWaits};
ghost use Rattle.wp_machine_permits.specs.Each.{Each};
ghost use Rattle.wp_machine_permits.specs.Waiting.{IsInWord};

use crate::needs::clearing::cached;
use crate::needs::decided::decision_of;
use crate::needs::read::history_of;
use std::alloc::AllocError;
use wp_history::History;
use wp_machine::World;
use wp_model::Seq;

/// Whether the pair of the number, if that is decided at the bound or before, is in its word.
fn is_in_word(world: &World, history: &History, p: Seq) -> bool
    requires { history.now.base ≡ 0 }
    ensures { result ≡ true → IsInWord history.now.entries world.now.cache world.now.max_evicted p }
{
    match decision_of(history, p) {
        Some(c) => world.max_evicted < c || cached(&world.cache, p) == Some(c),
        None => true,
    }
}

fn are_in_words(world: &World, history: &History, numbers: &[Seq]) -> bool
    requires { history.now.base ≡ 0 }
    ensures { result ≡ true → Each (IsInWord history.now.entries world.now.cache world.now.max_evicted) numbers.now }
{
    for p in numbers {
        if !is_in_word(world, history, *p) {
            return false;
        }
    }
    true
}

/// Whether that is so of each prepared number.
pub(crate) fn none_waits(world: &World) -> Result<bool, AllocError>
    ensures { IfOk result (λ yes. yes ≡ true → NoneWaits world.now.writes.history world.now.prepared world.now.cache world.now.max_evicted) }
{
    let Some(history) = history_of(world.writes.entries(), world.alloc)? else {
        return Ok(false);
    };
    if !are_in_words(world, &history, &world.prepared.heap) {
        return Ok(false);
    }
    Ok(are_in_words(world, &history, &world.prepared.delayed))
}
