//! Plays the machine as code, step by step: `wp_machine_permits` has to permit a step, and `wp_machine` makes it. What is played is
//! text in files.
//!
//! It stands apart from the program `wp_machine_tests`, which only calls it, as `wp_case_player` does from `wp_cases`.
#![tactic(auto)]

mod entry;
mod group;
mod play;
mod player;
mod so;
mod step;
mod trouble;

use crate::player::Player;
use std::alloc::AllocGlobal;
use std::env::{self, Env};
use std::rt::Files;
use std::{fs, io};

/// Plays the lines of one file.
fn play_lines<R: AllocGlobal + Eprint>(
    rt: &R,
    (file, text): (&str, &str),
    player: &mut Player,
) -> io::Result<()> {
    for (place, line) in text.lines().enumerate() {
        if let Err(trouble) = player.play(rt.alloc(), line) {
            player.fail();
            eprintln!(rt;
                "{file}, line {}: {}",
                place.saturating_add(1),
                trouble.why()
            )?;
        }
    }
    Ok(())
}

/// Plays one file.
fn play_file<R: AllocGlobal + Files + Eprint>(
    rt: &R,
    file: &str,
    player: &mut Player,
) -> io::Result<()> {
    let text = fs::read_to_string(rt, file)?;
    play_lines(rt, (file, &text), player)
}

/// Plays all files that are named on the command line. Of a case that comes out otherwise the first such line is told on standard
/// error; what is printed counts the cases. Answers whether all came out as they say.
pub fn play_files<R: AllocGlobal + Env + Files + Print + Eprint>(rt: &R) -> io::Result<bool> {
    let mut player = Player::new(rt.alloc());
    for file in env::args(rt)?.skip(1) {
        play_file(rt, &file, &mut player)?;
    }
    println!(rt; "cases {} failed {}", player.cases, player.failed)?;
    Ok(player.failed == 0)
}
