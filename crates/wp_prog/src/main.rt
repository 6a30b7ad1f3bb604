//! The program `wp`: a script's clients run over the store in the current folder, or the store is copied there.
#![tactic(auto)]

use std::env::{self, Env};
use std::io::{self, Write};
use std::process::ExitCode;
use wp_outside::{Disks, OpenGate};
use wp_real::{FileDisk, StdinSource, StdoutSink};
use wp_run::{Status, run};
use wp_run_copy::run_copy;

/// The command line, the program's name first.
fn words<R: Env + AllocGlobal>(rt: &R) -> Result<Vec<String>, Status> {
    match env::args(rt) {
        Ok(words) => words.collect(rt.alloc()).map_err(|_| Status::Memory),
        Err(error) if error.kind() == io::ErrorKind::OutOfMemory => Err(Status::Memory),
        Err(_) => Err(Status::Words),
    }
}

/// The second word says which of the top calls takes them. Each refuses the commands of the other.
fn asks_for_copy(words: &[String]) -> bool {
    matches!(words.get(1), Some(word) if word.as_str() == "copy")
}

/// The files of this store, or of a copy.
fn files<'a>(
    rt: &'a HostRuntime,
    log: &'a str,
    manifest: &'a str,
    tables: &'a str,
) -> Disks<FileDisk<'a, &'a HostRuntime>> {
    Disks {
        log: FileDisk::new(rt, log),
        manifest: FileDisk::new(rt, manifest),
        tables: FileDisk::new(rt, tables),
    }
}

fn report(rt: &HostRuntime, status: &Status) -> io::Result<()> {
    let mut line = status.line(rt.alloc())?;
    line.push(b'\n')?;
    rt.stderr().write_all(&line)
}

fn main(rt: HostRuntime) -> ExitCode {
    let alloc = rt.alloc();
    let status = match words(&rt) {
        Ok(words) => {
            let disks = files(&rt, "wp.log", "wp.manifest", "wp.tables");
            let mut sink = StdoutSink::new(&rt);
            if asks_for_copy(&words) {
                let target = files(&rt, "copy.log", "copy.manifest", "copy.tables");
                run_copy(&rt, alloc, &words, disks, target, &mut sink)
                    .0
                    .status
            } else {
                let mut source = StdinSource::new(&rt);
                run(&rt, alloc, &words, disks, &mut source, &mut sink, &OpenGate).status
            }
        }
        Err(status) => status,
    };
    if !matches!(status, Status::Ok) {
        // Where not even this can be said, the exit status still does.
        let _ = report(&rt, &status);
    }
    ExitCode::from(status.code())
}
