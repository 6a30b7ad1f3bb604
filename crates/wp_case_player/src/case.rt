//! The runs of a file's cases, one after the other.

use crate::bytes::{Named, bytes_of};
use crate::counts::{Counts, raise};
use crate::device::Device;
use crate::judge::{check_end, check_opened};
use crate::play::{Outcome, Stored, makes_copy, play};
use crate::report::{Report, text_of};
use crate::run::Run;
use crate::sweep::make_sweep;
use std::alloc::Global;
use std::sync::Wait;
use std::thread::Threads;

/// How far the cases of a file are played.
#[derive(Drop)]
pub(crate) struct Cases<'a> {
    pub(crate) report: Report,
    names: Vec<Named<'a>>,
    /// The devices as the runs of the case so far left them, and the history then.
    log: Vec<u8>,
    manifest: Vec<u8>,
    tables: Vec<u8>,
    history: Vec<u8>,
    /// The run whose lines are read; none before the case's first one.
    run: Option<Run<'a>>,
    /// Whether it was told that the case is wrong.
    is_told: bool,
}

/// Gives bytes a name.
fn name_bytes<'a>(
    report: &mut Report,
    names: &mut Vec<Named<'a>>,
    name: &'a str,
    device: &'static str,
    bytes: &[u8],
) {
    let mut kept = Vec::new(report.alloc);
    report.push(&mut kept, bytes);
    let named = Named {
        name,
        device,
        bytes: kept,
    };
    report.keep(names, named);
}

/// Keeps what is left of a device, and names it where the case does.
fn keep<'a>(
    report: &mut Report,
    names: &mut Vec<Named<'a>>,
    (name, device): (&'a str, &'static str),
    kept: &mut Vec<u8>,
    left: &[u8],
) {
    kept.clear();
    report.push(kept, left);
    if !name.is_empty() {
        name_bytes(report, names, name, device, left);
    }
}

/// The bytes that the device begins with that time, where the run before left these. A copy is made to new devices.
fn begun(report: &mut Report, run: &Run<'_>, device: &Device, left: &[u8], time: usize) -> Vec<u8> {
    if makes_copy(run.words) {
        device.begun(report, b"", time)
    } else {
        device.begun(report, left, time)
    }
}

/// Makes a run on devices that begin with these bytes that time, and judges it. Where it makes a copy, that is of what was left.
fn play_on<R: Threads + Wait + Sync>(
    rt: &R,
    report: &mut Report,
    run: &Run<'_>,
    left: &Stored<'_>,
    begun: &Stored<'_>,
    time: usize,
) -> Option<Outcome> {
    let outcome = play(rt, report, &run.call(), left, begun, &run.faults(time))?;
    check_end(report, run, begun, &outcome);
    check_opened(rt, report, run, &outcome);
    make_sweep(rt, report, run, left, begun, &outcome);
    Some(outcome)
}

impl<'a> Cases<'a> {
    pub(crate) fn new(alloc: Global) -> Cases<'a> {
        Cases {
            report: Report {
                alloc,
                line: 0,
                why: "",
                text: Vec::new(alloc),
                counts: Counts::none(),
            },
            names: Vec::new(alloc),
            log: Vec::new(alloc),
            manifest: Vec::new(alloc),
            tables: Vec::new(alloc),
            history: Vec::new(alloc),
            run: None,
            is_told: false,
        }
    }

    /// A case begins, on new devices.
    fn begin(&mut self) {
        self.report.why = "";
        self.report.text.clear();
        self.log.clear();
        self.manifest.clear();
        self.tables.clear();
        self.history.clear();
        self.is_told = false;
        raise(&mut self.report.counts.cases);
    }

    /// Reads a line that stands before the first run of a case, or before the first case: `bytes NAME BYTES`.
    fn read_front(&mut self, line: &'a str) {
        let words = line.strip_prefix("bytes ").unwrap_or("");
        let Some((name, words)) = words.split_once(' ') else {
            self.report.understands_not();
            return;
        };
        let bytes = bytes_of(&mut self.report, &self.names, words);
        name_bytes(&mut self.report, &mut self.names, name, "", &bytes);
    }

    /// Makes a run with what it has that time, and keeps what it leaves. Answers whether it is to be made once more.
    fn play_once<R: Threads + Wait + Sync>(&mut self, rt: &R, run: &Run<'a>, time: usize) -> bool {
        let begun_log = begun(&mut self.report, run, &run.log, &self.log, time);
        let begun_manifest = begun(&mut self.report, run, &run.manifest, &self.manifest, time);
        let begun_tables = begun(&mut self.report, run, &run.tables, &self.tables, time);
        let stored: Stored<'_> = [&begun_log, &begun_manifest, &begun_tables];
        let left: Stored<'_> = [&self.log, &self.manifest, &self.tables];
        let Some(outcome) = play_on(rt, &mut self.report, run, &left, &stored, time) else {
            return false;
        };
        if !run.is_last(time) {
            return true;
        }
        keep(
            &mut self.report,
            &mut self.names,
            (run.kept, "log"),
            &mut self.log,
            &outcome.log.bytes,
        );
        keep(
            &mut self.report,
            &mut self.names,
            (run.kept, "manifest"),
            &mut self.manifest,
            &outcome.manifest.bytes,
        );
        keep(
            &mut self.report,
            &mut self.names,
            (run.kept, "tables"),
            &mut self.tables,
            &outcome.tables.bytes,
        );
        self.history.clear();
        self.report.push(&mut self.history, &run.history);
        false
    }

    /// Makes the run as often as its devices differ.
    fn play_run<R: Threads + Wait + Sync>(&mut self, rt: &R, run: &Run<'a>) {
        if self.report.is_good() {
            self.report.line = run.line;
        }
        for time in 0..usize::MAX {
            if !self.report.is_good() || !self.play_once(rt, run, time) {
                break;
            }
        }
    }

    /// Reads a line that begins a run, or stands in one or before the first.
    fn read(&mut self, number: usize, line: &'a str, is_run: bool) {
        self.report.line = number;
        if is_run {
            self.run = Some(Run::new(&self.report, number, line));
        } else if let Some(run) = &mut self.run {
            run.read(&mut self.report, &self.names, &self.history, line);
        } else {
            self.read_front(line);
        }
    }

    /// Tells of the case once something is wrong with it.
    fn tell<R: Eprint>(&mut self, rt: &R, file: &str) {
        let Report {
            line,
            why,
            text,
            ..
        } = &self.report;
        if !why.is_empty() && !self.is_told {
            // Where it can't be told, the number of these cases still is.
            let _ = eprintln!(rt; "{file}, line {line}: {why}{}", text_of(text));
            self.is_told = true;
            raise(&mut self.report.counts.failed);
        }
    }

    /// Makes the run whose lines were read, if there is one.
    pub(crate) fn end_run<R: Threads + Wait + Sync + Eprint>(&mut self, rt: &R, file: &str) {
        if let Some(run) = self.run.take() {
            self.play_run(rt, &run);
            drop(run);
        }
        self.tell(rt, file);
    }

    /// Does what the line says. What is left of a case in which something is wrong is passed over.
    pub(crate) fn step<R: Threads + Wait + Sync + Eprint>(
        &mut self,
        rt: &R,
        file: &str,
        number: usize,
        line: &'a str,
    ) {
        let is_run = line == "wp" || line.starts_with("wp ");
        let is_case = line.starts_with("case ");
        if is_run || is_case {
            self.end_run(rt, file);
        }
        if is_case {
            self.begin();
        } else if self.report.is_good() {
            self.read(number, line, is_run);
            self.tell(rt, file);
        }
    }
}
