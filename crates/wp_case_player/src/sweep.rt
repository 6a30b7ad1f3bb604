//! A run made again and again, each time with devices that go wrong at other calls. What is left, as it is and as a crash may leave
//! it, opens to what was acknowledged, and works on; or what a copy left, to all of it or to nothing.

use crate::counts::raise;
use crate::crash::push_images;
use crate::play::{AMPLE_ROOM, Call, Faults, Left, Outcome, SOUND, Stored, play, show};
use crate::report::Report;
use crate::run::Run;
use crate::stage::{Stage, is_any_shown, is_whole, stages_after};
use std::sync::Wait;
use std::thread::Threads;

/// How many bytes are between the places at which a crash tears what was not synced.
const APART: usize = 9;

/// The status where the log is the first to go wrong once it is opened, and its line; and where another device is.
const LOG_FAULT: &str = "7 log fault";

const TABLE_FAULT: &str = "8 table fault";

/// What shows an empty store.
const EMPTY: &[u8] = b"history\nend 0 0\n";

/// How the devices go wrong, and how the run has to end then.
#[derive(Clone, Copy)]
struct Trial {
    faults: [Faults; 3],
    due: &'static str,
}

/// A device, when it is called where none goes wrong, and how the run has to end where it is the first to go wrong: in so many calls
/// of it, which open it, or later.
#[derive(Clone, Copy)]
struct Swept<'a> {
    place: usize,
    calls: &'a [u64],
    opening: usize,
    ends: [&'static str; 2],
}

/// What the devices have to open to: to one of the stages, and they work on with this script; or to the copy that this text shows, or
/// to an empty store, where they are not refused because only the log was made.
#[derive(Clone, Copy)]
enum Expected<'a> {
    Worked(&'a [u8], &'a [Stage]),
    Copied(&'a [u8]),
}

fn stops_at(call: usize) -> Faults {
    let answered = call.saturating_sub(1) as u64;
    Faults { answered, ..SOUND }
}

/// A device with these calls answers those before that moment.
fn stops_from(calls: &[u64], moment: u64) -> Faults {
    let mut answered = 0u64;
    for call in calls {
        if *call < moment {
            answered = answered.saturating_add(1);
        }
    }
    Faults { answered, ..SOUND }
}

/// The device at that place goes wrong so, and no other.
fn alone(place: usize, faults: Faults) -> [Faults; 3] {
    match place {
        0 => [faults, SOUND, SOUND],
        1 => [SOUND, faults, SOUND],
        _ => [SOUND, SOUND, faults],
    }
}

/// The device goes wrong at each of its calls: it fails there; or it is the first that is not answered while the other devices go
/// on; or no device answers from there on. Where the log has calls left then, it fails too.
fn push_alone(report: &mut Report, trials: &mut Vec<Trial>, swept: &Swept<'_>, whole: &Outcome) {
    for (call, moment) in swept.calls.iter().enumerate() {
        raise(&mut report.counts.calls);
        let is_open = call >= swept.opening;
        let due = if is_open {
            swept.ends[1]
        } else {
            swept.ends[0]
        };
        let call = call.saturating_add(1);
        let fails = call as u64;
        let faults = alone(swept.place, Faults { fails, ..SOUND });
        report.keep(trials, Trial { faults, due });
        let faults = alone(swept.place, stops_at(call));
        report.keep(trials, Trial { faults, due });
        let faults = [
            stops_from(&whole.log.calls, *moment),
            stops_from(&whole.manifest.calls, *moment),
            stops_from(&whole.tables.calls, *moment),
        ];
        let log_goes_on = faults[0].answered < whole.log.calls.len() as u64;
        let due = if is_open && log_goes_on {
            LOG_FAULT
        } else {
            due
        };
        report.keep(trials, Trial { faults, due });
    }
}

/// After the opening the log stops at each of its calls, and the other device at each of its own.
fn push_pairs(report: &mut Report, trials: &mut Vec<Trial>, log: &Swept<'_>, other: &Swept<'_>) {
    for call in log.opening..log.calls.len() {
        for also in other.opening..other.calls.len() {
            raise(&mut report.counts.pairs);
            let mut faults = alone(other.place, stops_at(also.saturating_add(1)));
            faults[0] = stops_at(call.saturating_add(1));
            let due = LOG_FAULT;
            report.keep(trials, Trial { faults, due });
        }
    }
}

/// All trials of a run that left this where no device went wrong. The opening of its store left the other, when it was shown.
fn trials_of(report: &mut Report, whole: &Outcome, shown: &Outcome) -> Vec<Trial> {
    let log = Swept {
        place: 0,
        calls: &whole.log.calls,
        opening: shown.log.calls.len(),
        ends: ["10 opening failed: log", LOG_FAULT],
    };
    let manifest = Swept {
        place: 1,
        calls: &whole.manifest.calls,
        opening: shown.manifest.calls.len(),
        ends: ["10 opening failed: manifest", TABLE_FAULT],
    };
    let tables = Swept {
        place: 2,
        calls: &whole.tables.calls,
        opening: shown.tables.calls.len(),
        ends: ["10 opening failed: tables", TABLE_FAULT],
    };
    let mut trials = Vec::new(report.alloc);
    push_alone(report, &mut trials, &log, whole);
    push_alone(report, &mut trials, &manifest, whole);
    push_alone(report, &mut trials, &tables, whole);
    push_pairs(report, &mut trials, &log, &manifest);
    push_pairs(report, &mut trials, &log, &tables);
    trials
}

/// All trials of a copy that left this where no device went wrong.
fn copy_trials_of(report: &mut Report, whole: &Outcome) -> Vec<Trial> {
    let log = Swept {
        place: 0,
        calls: &whole.log.calls,
        opening: whole.log.calls.len(),
        ends: ["11 copy failed: log", ""],
    };
    let manifest = Swept {
        place: 1,
        calls: &whole.manifest.calls,
        opening: whole.manifest.calls.len(),
        ends: ["11 copy failed: manifest", ""],
    };
    let tables = Swept {
        place: 2,
        calls: &whole.tables.calls,
        opening: whole.tables.calls.len(),
        ends: ["11 copy failed: tables", ""],
    };
    let mut trials = Vec::new(report.alloc);
    push_alone(report, &mut trials, &log, whole);
    push_alone(report, &mut trials, &manifest, whole);
    push_alone(report, &mut trials, &tables, whole);
    trials
}

/// How the run has to end. Where a renewal found the tables' devices failed it stopped the log, which is called at all calls that it
/// has where no device fails.
fn due(run: &Run<'_>, trial: &Trial, outcome: &Outcome) -> &'static str {
    let log = trial.faults[0];
    let made = outcome.log.calls.len() as u64;
    let failed = log.answered < made || (0 < log.fails && log.fails <= made);
    if !run.cuts.is_empty() && trial.due == LOG_FAULT && !failed {
        TABLE_FAULT
    } else {
        trial.due
    }
}

/// Devices with these bytes have to open to one of the stages, work on, and open to what they then have.
fn works<R: Threads + Wait + Sync>(
    rt: &R,
    report: &mut Report,
    work: &[u8],
    stages: &[Stage],
    stored: &Stored<'_>,
) {
    let call = Call {
        words: "wp run --bits 0",
        script: work,
        source_fails: 0,
        room: AMPLE_ROOM,
        holds: &[],
    };
    let Some(next) = play(rt, report, &call, &[b""; 3], stored, &[SOUND; 3]) else {
        return;
    };
    let Some(again) = show(rt, report, &next.stored()) else {
        return;
    };
    if !is_any_shown(stages, &next.text, &again.text) {
        report.tell("what a crash may leave opens to no such store", b"");
    }
}

/// Devices with these bytes have to show the copy or an empty store; or to be refused, since the manifest was not made yet.
fn shows_copy<R: Threads + Wait + Sync>(
    rt: &R,
    report: &mut Report,
    copy: &[u8],
    stored: &Stored<'_>,
) {
    let Some(shown) = show(rt, report, stored) else {
        return;
    };
    let is_ahead = shown.end.starts_with(b"9 contents: base ahead ") && shown.end.ends_with(b" 0");
    if shown.text.as_slice() != copy && shown.text.as_slice() != EMPTY && !is_ahead {
        report.tell("what a crash may leave of a copy shows\n", &shown.text);
    }
}

/// Devices with these bytes open to what they have to.
fn opens<R: Threads + Wait + Sync>(
    rt: &R,
    report: &mut Report,
    expected: &Expected<'_>,
    stored: &Stored<'_>,
) {
    raise(&mut report.counts.images);
    match expected {
        Expected::Worked(work, stages) => works(rt, report, work, stages, stored),
        Expected::Copied(copy) => shows_copy(rt, report, copy, stored),
    }
}

/// What a crash may leave of the device.
fn images_of(report: &mut Report, left: &Left) -> Vec<Vec<u8>> {
    let mut images = Vec::new(report.alloc);
    push_images(report, &mut images, (&left.synced, &left.bytes), APART);
    images
}

/// So has whatever a crash may leave of the devices.
fn images_open<R: Threads + Wait + Sync>(
    rt: &R,
    report: &mut Report,
    expected: &Expected<'_>,
    outcome: &Outcome,
) {
    let logs = images_of(report, &outcome.log);
    let manifests = images_of(report, &outcome.manifest);
    let all_tables = images_of(report, &outcome.tables);
    for log in &logs {
        for manifest in &manifests {
            for tables in &all_tables {
                if report.is_good() {
                    opens(rt, report, expected, &[log, manifest, tables]);
                }
            }
        }
    }
}

/// Tells of a run that did not end so, with its whole text, or none where the opening or the copy failed.
fn check(report: &mut Report, stages: &[Stage], outcome: &Outcome, due: &str) {
    if outcome.end.as_slice() != due.as_bytes() {
        report.tell("the status is ", &outcome.end);
    }
    if !is_whole(stages, &outcome.text, due.starts_with('1')) {
        report.tell("the text is\n", &outcome.text);
    }
}

/// Adds to what is told, where something is wrong now, how the devices went wrong.
fn add_faults(report: &mut Report, faults: &[Faults; 3]) {
    if report.is_good() {
        return;
    }
    let [log, manifest, tables] = faults;
    let alloc = report.alloc;
    let calls = report.spelled(format!(in alloc;
        "; calls that fail: {}, {}, {}; that are answered: {}, {}, {}",
        log.fails, manifest.fails, tables.fails, log.answered, manifest.answered, tables.answered
    ));
    let _ = report.text.extend_from_slice(&calls);
}

/// Makes the run with these faults. It has to end so, and what it leaves opens.
fn make_trial<R: Threads + Wait + Sync>(
    rt: &R,
    report: &mut Report,
    run: &Run<'_>,
    stored: &Stored<'_>,
    trial: &Trial,
) {
    if let Some(outcome) = play(rt, report, &run.call(), &[b""; 3], stored, &trial.faults) {
        let due = due(run, trial, &outcome);
        let stages = stages_after(&run.stages, &outcome.text, due.starts_with("7 "));
        check(report, stages, &outcome, due);
        images_open(rt, report, &Expected::Worked(&run.work, stages), &outcome);
    }
}

/// Makes the copy with these faults. It has to end so, and what it leaves is all of it or nothing. This text shows all of it.
fn make_copy_trial<R: Threads + Wait + Sync>(
    rt: &R,
    report: &mut Report,
    run: &Run<'_>,
    copy: &[u8],
    copied: &Stored<'_>,
    stored: &Stored<'_>,
    trial: &Trial,
) {
    if let Some(outcome) = play(rt, report, &run.call(), copied, stored, &trial.faults) {
        check(report, &[], &outcome, trial.due);
        images_open(rt, report, &Expected::Copied(copy), &outcome);
    }
}

/// Lets the devices of a copy go wrong at each call that is made of them. `whole` is what it leaves where none does.
fn sweep_copy<R: Threads + Wait + Sync>(
    rt: &R,
    report: &mut Report,
    run: &Run<'_>,
    copied: &Stored<'_>,
    stored: &Stored<'_>,
    whole: &Outcome,
) {
    let Some(copy) = show(rt, report, &whole.stored()) else {
        return;
    };
    for trial in &copy_trials_of(report, whole) {
        if report.is_good() {
            make_copy_trial(rt, report, run, &copy.text, copied, stored, trial);
            add_faults(report, &trial.faults);
        }
    }
}

/// Lets devices go wrong at each call that the run makes of them, where it is a run to be swept. `whole` is what it leaves where
/// none does.
pub(crate) fn make_sweep<R: Threads + Wait + Sync>(
    rt: &R,
    report: &mut Report,
    run: &Run<'_>,
    copied: &Stored<'_>,
    stored: &Stored<'_>,
    whole: &Outcome,
) {
    if run.is_swept_copy {
        sweep_copy(rt, report, run, copied, stored, whole);
    }
    if run.stages.is_empty() || !report.is_good() {
        return;
    }
    let Some(shown) = show(rt, report, stored) else {
        return;
    };
    for trial in &trials_of(report, whole, &shown) {
        if report.is_good() {
            make_trial(rt, report, run, stored, trial);
            add_faults(report, &trial.faults);
        }
    }
}
