//! Runs the cases of the files that are named on the command line. The status is 0 where all come out as they say.
#![tactic(auto)]

use std::io;
use std::process::ExitCode;
use wp_case_player::play_files;

fn main(rt: HostRuntime) -> io::Result<ExitCode> {
    let is_right = play_files(&rt)?;
    Ok(ExitCode::from(u8::from(!is_right)))
}
