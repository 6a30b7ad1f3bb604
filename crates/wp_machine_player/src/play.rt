//! The steps of the client.
use crate::so::is_so;
use crate::step::step_of;
use crate::trouble::{Tried, Trouble};
use wp_machine::{World, apply};
use wp_machine_permits::permits;

/// The one client, which writes and reads.
const SEAT: usize = 0;

/// The world after the step of the line, which has to be permitted.
fn stepped(world: World, line: &str) -> Tried<World> {
    let step = step_of(world.alloc, SEAT, line)?;
    if !permits(&world, &step)? {
        return Err(Trouble::Wrong);
    }
    Ok(apply(world, step)?)
}

/// The world after the line, which says what is so or is a step.
fn after(world: World, line: &str) -> Tried<World> {
    let Some(what) = line.strip_prefix("expect ") else {
        return stepped(world, line);
    };
    if is_so(&world, what)? {
        Ok(world)
    } else {
        Err(Trouble::Wrong)
    }
}

/// The world after the lines.
pub(crate) fn played(mut world: World, lines: &str) -> Tried<World> {
    for line in lines.lines() {
        world = after(world, line)?;
    }
    Ok(world)
}
