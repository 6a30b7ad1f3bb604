//! Plays cases: scripts over stores in memory, with what they are answered and what they leave, as text in files.
//!
//! What finds something wrong, want of memory too, notes it in the report of its case and goes on; whether all is well is asked
//! before each run. So few functions have ways out on which they let go what they own, each of which would be proved.
//!
//! It stands apart from the program `wp_cases`, which only calls it: a function of a library is proved with its own code in sight, and
//! one of a program with all that the program links.
#![tactic(auto)]

mod bytes;
mod case;
mod counts;
mod crash;
mod device;
mod holds;
mod judge;
mod play;
mod report;
mod run;
mod stage;
mod sweep;

use crate::case::Cases;
use crate::counts::Counts;
use std::alloc::AllocGlobal;
use std::env::{self, Env};
use std::rt::Files;
use std::sync::Wait;
use std::thread::Threads;
use std::{fs, io};

/// Plays the cases of a file's text, counts them, and tells of each that does not come out as it says.
fn play_text<R: Threads + Wait + Sync + AllocGlobal + Eprint>(
    rt: &R,
    file: &str,
    text: &str,
) -> Counts {
    let mut cases = Cases::new(rt.alloc());
    let mut number = 0usize;
    for line in text.lines() {
        number = number.saturating_add(1);
        if !line.is_empty() && !line.starts_with('#') {
            cases.step(rt, file, number, line);
        }
    }
    cases.end_run(rt, file);
    cases.report.counts
}

/// Plays the cases of a file, and counts them.
fn play_file<R: Threads + Wait + Sync + AllocGlobal + Files + Eprint>(
    rt: &R,
    file: &str,
) -> io::Result<Counts> {
    let text = fs::read_to_string(rt, file)?;
    Ok(play_text(rt, file, &text))
}

/// Plays the cases of all files that are named on the command line, tells of each on standard error that does not come out as it
/// says, and prints how many there were, and how much was tried in their sweeps. Answers whether all came out as they say.
pub fn play_files<R: Threads + Wait + Sync + AllocGlobal + Env + Files + Print + Eprint>(
    rt: &R,
) -> io::Result<bool> {
    let mut counts = Counts::none();
    for file in env::args(rt)?.skip(1) {
        counts = counts.with(play_file(rt, &file)?);
    }
    println!(rt; "cases {} failed {}", counts.cases, counts.failed)?;
    println!(rt;
        "sweeps: calls {} pairs {} images {}",
        counts.calls, counts.pairs, counts.images
    )?;
    Ok(counts.failed == 0)
}
