//! What is said of a world.
use crate::step::{first_word, step_of};
use crate::trouble::{Tried, Trouble, number};
use wp_judge::{Asked, ask};
use wp_machine::World;
use wp_machine_permits::permits;

/// The most bits that the place of a word has.
const MOST_BITS: u32 = 16;

/// Reads `0 STEP`: whether the step is permitted to the actor at that place.
fn is_permitted(world: &World, words: &str) -> Tried<bool> {
    let (by, line) = first_word(words);
    let step = step_of(world.alloc, number(by)? as usize, line)?;
    Ok(permits(world, &step)?)
}

/// The client's answer as a reader, where it has one.
fn answer(world: &World) -> &'static str {
    let Some(client) = world.actors.first() else {
        return "none";
    };
    let Some(seen) = client.reading else {
        return "none";
    };
    if seen.bits > MOST_BITS {
        return "none";
    }
    match ask(&seen) {
        Asked::Answer(true) => "visible",
        Asked::Answer(false) => "hidden",
        Asked::Load(_) => "none",
    }
}

fn number_of(world: &World, what: &str) -> Tried<u64> {
    match what {
        "published" => Ok(world.writes.history.len() as u64),
        "pending" => Ok(world.writes.pending.len() as u64),
        "delayed-flag" => Ok(world.delayed_flag),
        _ => Err(Trouble::Unclear),
    }
}

/// Whether it is so.
pub(crate) fn is_so(world: &World, what: &str) -> Tried<bool> {
    let (verb, rest) = first_word(what);
    match verb {
        "permitted" => is_permitted(world, rest),
        "refused" => Ok(!is_permitted(world, rest)?),
        "answer" => Ok(answer(world) == rest),
        _ => Ok(number_of(world, verb)? == number(rest)?),
    }
}
