//! Which lines are held back until which.

use crate::report::Report;
use wp_memory::{Hold, Until};

/// The client as which a device comes to the gate, with its line 1.
const DEVICE: usize = 17;

/// Reads `2 1`, a client and a line of it, or `device 1`.
fn place_of(report: &mut Report, words: &str) -> (usize, usize) {
    let (client, line) = words.split_once(' ').unwrap_or((words, ""));
    let client = if client == "device" {
        DEVICE
    } else {
        report.number(client)
    };
    (client, report.number(line))
}

/// Reads `1 3 comes` or `1 3 is answered`.
fn until_of(report: &mut Report, words: &str) -> Until {
    if let Some(place) = words.strip_suffix(" comes") {
        let (client, line) = place_of(report, place);
        return Until::Arrived(client, line);
    }
    let place = words.strip_suffix(" is answered").unwrap_or("");
    let (client, line) = place_of(report, place);
    Until::Answered(client, line)
}

/// Reads `2 1 until 1 3 comes` or `2 1 until 1 3 is answered`.
pub(crate) fn push_hold(report: &mut Report, holds: &mut Vec<Hold>, words: &str) {
    let (held, other) = words.split_once(" until ").unwrap_or((words, ""));
    let (client, line) = place_of(report, held);
    let until = until_of(report, other);
    report.keep(
        holds,
        Hold {
            client,
            line,
            until,
        },
    );
}

/// Reads `1 2 1`: line 1 of client 1, then line 1 of client 2, then line 2 of client 1. Each is held until the one before it is
/// answered.
pub(crate) fn push_order(report: &mut Report, holds: &mut Vec<Hold>, words: &str) {
    // The last line of each client that came; and the client and the line before, none at first.
    let mut lines = [0usize; DEVICE];
    let mut before = (0, 0);
    for word in words.split_whitespace() {
        let client = report.number(word);
        let Some(last) = lines.get_mut(client) else {
            report.understands_not();
            return;
        };
        let line = last.saturating_add(1);
        *last = line;
        if before.1 > 0 {
            let until = Until::Answered(before.0, before.1);
            report.keep(
                holds,
                Hold {
                    client,
                    line,
                    until,
                },
            );
        }
        before = (client, line);
    }
}
