//! One run of the program.

use crate::report::{Report, text_of};
use std::alloc::{AllocError, Global};
use std::sync::Wait;
use std::sync::atomic::AtomicU64;
use std::thread::Threads;
use wp_memory::{GateDisk, Hold, HoldGate, MemDisk, MemSink, MemSource};
use wp_outside::Disks;
use wp_run::{Ended, Status, run};
use wp_run_copy::run_copy;

/// Room for what a device has, and for all that is written to it. Clients side by side compact at moments of their own, and so write
/// more or less: 200 compactions of 5,000 versions have room.
const ROOM: u64 = 1 << 25;

/// More calls than a device has in any case.
const CALLS: u64 = 20_000;

/// More bytes than any case's text has.
pub(crate) const AMPLE_ROOM: usize = 1 << 16;

/// More turns than a line has to wait while the others go on.
const AMPLE_TURNS: u64 = 50_000_000;

/// How a device goes wrong, its calls counted from 1.
#[derive(Clone, Copy)]
pub(crate) struct Faults {
    /// The call that fails; 0 for none.
    pub(crate) fails: u64,
    /// How many calls are answered.
    pub(crate) answered: u64,
    /// The call before which the device comes to the gate; 0 for none.
    pub(crate) comes: u64,
}

/// The device answers all calls.
pub(crate) const SOUND: Faults = Faults {
    fails: 0,
    answered: CALLS,
    comes: 0,
};

/// The bytes of the devices.
pub(crate) type Stored<'a> = [&'a [u8]; 3];

/// What the program is called with, beside its devices.
#[derive(Clone, Copy)]
pub(crate) struct Call<'a> {
    /// The command line.
    pub(crate) words: &'a str,
    pub(crate) script: &'a [u8],
    /// The call of the source that fails; 0 for none.
    pub(crate) source_fails: u64,
    /// How many bytes the sink takes.
    pub(crate) room: usize,
    /// Which lines are held back.
    pub(crate) holds: &'a [Hold],
}

/// Whether this command line makes a copy.
pub(crate) fn makes_copy(words: &str) -> bool {
    words == "wp copy" || words.starts_with("wp copy ")
}

/// What a run leaves of a device.
#[derive(Drop)]
pub(crate) struct Left {
    pub(crate) bytes: Vec<u8>,
    /// What it read when it was last synced.
    pub(crate) synced: Vec<u8>,
    /// When it was called.
    pub(crate) calls: Vec<u64>,
}

/// How a run ended, and what it left.
pub(crate) struct Outcome {
    /// The number of the status and its line.
    pub(crate) end: Vec<u8>,
    pub(crate) text: Vec<u8>,
    pub(crate) log: Left,
    pub(crate) manifest: Left,
    pub(crate) tables: Left,
    /// Whether each hold ended because what it waited for came, and each line that a hold names came and was answered.
    pub(crate) is_held: bool,
    /// Whether the devices of the store that was copied, if one was, have the bytes that they had.
    pub(crate) is_kept: bool,
}

// Written out: else each function that lets an outcome go proves anew how all that it holds is let go.
impl Drop for Outcome {
    fn drop(self) {
        let Self {
            end: _end,
            text: _text,
            log: _log,
            manifest: _manifest,
            tables: _tables,
            is_held: _is_held,
            is_kept: _is_kept,
        } = self;
    }
}

impl Outcome {
    pub(crate) fn stored(&self) -> Stored<'_> {
        [&self.log.bytes, &self.manifest.bytes, &self.tables.bytes]
    }
}

type CaseDisk<'a> = GateDisk<'a, HoldGate>;

/// The words of a command line, the program's name first.
fn words_of(report: &mut Report, line: &str) -> Vec<String> {
    let alloc = report.alloc;
    let mut words = Vec::new(alloc);
    for word in line.split_whitespace() {
        if let Some(word) = report.made(word.to_string(alloc)) {
            report.keep(&mut words, word);
        }
    }
    words
}

/// A device with these bytes, which goes wrong so.
fn disk_of<'a>(
    alloc: Global,
    bytes: &[u8],
    faults: &Faults,
    gate: &'a HoldGate,
    clock: &'a AtomicU64,
) -> Result<CaseDisk<'a>, AllocError> {
    let fails = vec![in alloc; faults.fails]?;
    let disk = MemDisk::new(alloc, bytes.to_vec(alloc)?, ROOM, faults.answered, fails)?;
    GateDisk::new(disk, faults.comes, gate, clock, alloc)
}

// Without memory the devices are let go by calls: else all that they hold is proved anew here.
fn disks_of<'a>(
    alloc: Global,
    stored: &Stored<'_>,
    faults: &[Faults; 3],
    gate: &'a HoldGate,
    clock: &'a AtomicU64,
) -> Result<Disks<CaseDisk<'a>>, AllocError> {
    let log = disk_of(alloc, stored[0], &faults[0], gate, clock)?;
    let Ok(manifest) = disk_of(alloc, stored[1], &faults[1], gate, clock) else {
        drop(log);
        return Err(AllocError);
    };
    let Ok(tables) = disk_of(alloc, stored[2], &faults[2], gate, clock) else {
        drop(manifest);
        drop(log);
        return Err(AllocError);
    };
    Ok(Disks {
        log,
        manifest,
        tables,
    })
}

/// The number of the status and its line, as cases write them.
fn end_of(report: &mut Report, status: &Status) -> Vec<u8> {
    let alloc = report.alloc;
    let line = status.line(alloc).unwrap_or(Vec::new(alloc));
    let why = text_of(&line).strip_prefix("wp: ").unwrap_or("");
    report.spelled(format!(in alloc; "{} {why}", status.code()))
}

fn left_of(report: &mut Report, disk: &CaseDisk<'_>) -> Left {
    let alloc = report.alloc;
    let (mut bytes, mut synced, mut calls) = (Vec::new(alloc), Vec::new(alloc), Vec::new(alloc));
    report.push(&mut bytes, disk.bytes());
    report.push(&mut synced, disk.synced());
    for call in disk.calls() {
        report.keep(&mut calls, *call);
    }
    Left {
        bytes,
        synced,
        calls,
    }
}

fn outcome_of(
    report: &mut Report,
    ended: &Ended<CaseDisk<'_>>,
    sink: &MemSink,
    gate: &HoldGate,
    is_kept: bool,
) -> Outcome {
    let mut text = Vec::new(report.alloc);
    report.push(&mut text, sink.bytes());
    Outcome {
        end: end_of(report, &ended.status),
        text,
        log: left_of(report, &ended.disks.log),
        manifest: left_of(report, &ended.disks.manifest),
        tables: left_of(report, &ended.disks.tables),
        is_held: !gate.late() && gate.whole(),
        is_kept,
    }
}

/// Runs the program on these devices and with this gate.
fn play_on<R: Threads + Wait + Sync>(
    rt: &R,
    report: &mut Report,
    call: &Call<'_>,
    disks: Disks<CaseDisk<'_>>,
    gate: &HoldGate,
    sink: &mut MemSink,
) -> Outcome {
    let alloc = report.alloc;
    let words = words_of(report, call.words);
    let (mut script, mut fails) = (Vec::new(alloc), Vec::new(alloc));
    report.push(&mut script, call.script);
    report.keep(&mut fails, call.source_fails);
    let mut source = MemSource::new(script, fails);
    let ended = run(rt, alloc, &words, disks, &mut source, sink, gate);
    let outcome = outcome_of(report, &ended, sink, gate, true);
    drop(ended);
    outcome
}

/// Copies the store with the first bytes to these devices; nothing where memory is wanting.
fn play_copy<R: Wait>(
    rt: &R,
    report: &mut Report,
    call: &Call<'_>,
    copied: &Stored<'_>,
    target: Disks<CaseDisk<'_>>,
    gate: &HoldGate,
    clock: &AtomicU64,
    sink: &mut MemSink,
) -> Option<Outcome> {
    let alloc = report.alloc;
    let words = words_of(report, call.words);
    let disks = disks_of(alloc, copied, &[SOUND; 3], gate, clock);
    let Some(disks) = report.made(disks) else {
        drop(target);
        return None;
    };
    let (Ended { status, disks }, target) = run_copy(rt, alloc, &words, disks, target, sink);
    let is_kept = disks.log.bytes() == copied[0]
        && disks.manifest.bytes() == copied[1]
        && disks.tables.bytes() == copied[2];
    drop(disks);
    let made = Ended {
        status,
        disks: target,
    };
    let outcome = outcome_of(report, &made, sink, gate, is_kept);
    drop(made);
    Some(outcome)
}

/// Runs the program behind this gate.
fn play_behind<R: Threads + Wait + Sync>(
    rt: &R,
    report: &mut Report,
    call: &Call<'_>,
    copied: &Stored<'_>,
    stored: &Stored<'_>,
    faults: &[Faults; 3],
    gate: &HoldGate,
) -> Option<Outcome> {
    let alloc = report.alloc;
    let clock = AtomicU64::new(0);
    let disks = report.made(disks_of(alloc, stored, faults, gate, &clock))?;
    let sink = MemSink::new(alloc, call.room as u64, Vec::new(alloc));
    let Some(mut sink) = report.made(sink) else {
        drop(disks);
        return None;
    };
    let outcome = if makes_copy(call.words) {
        play_copy(rt, report, call, copied, disks, gate, &clock, &mut sink)
    } else {
        Some(play_on(rt, report, call, disks, gate, &mut sink))
    };
    drop(sink);
    outcome
}

/// Runs the program on devices with these bytes, which go wrong so; nothing where memory is wanting. A copy is made to these devices,
/// of the store with the bytes before, whose devices answer all calls.
pub(crate) fn play<R: Threads + Wait + Sync>(
    rt: &R,
    report: &mut Report,
    call: &Call<'_>,
    copied: &Stored<'_>,
    stored: &Stored<'_>,
    faults: &[Faults; 3],
) -> Option<Outcome> {
    let alloc = report.alloc;
    let holds = report.made(call.holds.to_vec(alloc))?;
    let gate = report.made(HoldGate::new(alloc, holds, AMPLE_TURNS))?;
    let outcome = play_behind(rt, report, call, copied, stored, faults, &gate);
    drop(gate);
    outcome
}

/// Shows the store of these devices.
pub(crate) fn show<R: Threads + Wait + Sync>(
    rt: &R,
    report: &mut Report,
    stored: &Stored<'_>,
) -> Option<Outcome> {
    // The source fails, so that it is not called.
    let call = Call {
        words: "wp show --bits 0",
        script: b"",
        source_fails: 1,
        room: AMPLE_ROOM,
        holds: &[],
    };
    play(rt, report, &call, &[b""; 3], stored, &[SOUND; 3])
}
