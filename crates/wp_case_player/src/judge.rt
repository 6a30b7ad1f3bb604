//! Whether a run ended as its case says.

use crate::play::{Outcome, Stored, show};
use crate::report::Report;
use crate::run::Run;
use std::sync::Wait;
use std::thread::Threads;

/// The text that is due: none where the run is refused, and else what is told of a copy, or the replies and the history, as far as
/// there is room.
fn text_due(report: &mut Report, run: &Run<'_>) -> Vec<u8> {
    let mut text = Vec::new(report.alloc);
    let (code, _) = run.status.split_once(' ').unwrap_or(("", ""));
    if matches!(code, "0" | "5" | "7" | "8") {
        if run.copied.is_empty() {
            report.push(&mut text, &run.replies);
            report.push_line(&mut text, "history");
            report.push(&mut text, &run.history);
        } else {
            text = report.joined(&["copied ", run.copied, "\n"]);
        }
        text.truncate(run.room);
    }
    text
}

fn is_one_of(texts: &[Vec<u8>], text: &[u8]) -> bool {
    let mut is_one = false;
    for other in texts {
        is_one |= other.as_slice() == text;
    }
    is_one
}

/// The holds, the status, the text, and the bytes of the devices, which began with these.
pub(crate) fn check_end(report: &mut Report, run: &Run<'_>, begun: &Stored<'_>, outcome: &Outcome) {
    if !outcome.is_held {
        report.tell("a hold ended otherwise", b"");
    }
    if outcome.end.as_slice() != run.status.as_bytes() {
        report.tell("the status is ", &outcome.end);
    }
    if run.source_stays && !outcome.is_kept {
        report.tell("the copied devices have other bytes", b"");
    }
    let due = text_due(report, run);
    if due != outcome.text && !is_one_of(&run.others, &outcome.text) {
        report.tell("the text is\n", &outcome.text);
    }
    run.log
        .check(report, run.stays, begun[0], &outcome.log.bytes);
    run.manifest
        .check(report, run.stays, begun[1], &outcome.manifest.bytes);
    run.tables
        .check(report, run.stays, begun[2], &outcome.tables.bytes);
}

/// The text that shows what the devices open to.
pub(crate) fn check_opened<R: Threads + Wait + Sync>(
    rt: &R,
    report: &mut Report,
    run: &Run<'_>,
    outcome: &Outcome,
) {
    if run.opens.is_empty() {
        return;
    }
    let Some(shown) = show(rt, report, &outcome.stored()) else {
        return;
    };
    if !is_one_of(&run.opens, &shown.text) {
        report.tell("opened again, the text is\n", &shown.text);
    }
}
