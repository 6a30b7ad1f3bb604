//! What a store is once so many of a script's records are in its log.

use crate::report::{Report, text_of};
use crate::run::entries_of;

/// What an opening shows in place of the first entries of a history, where the log is cut behind so many.
#[derive(Drop)]
pub(crate) struct Cut {
    pub(crate) count: usize,
    pub(crate) lines: Vec<u8>,
}

/// How a run ends that works on, and what shows the store afterwards.
#[derive(Drop)]
struct Worked {
    end: Vec<u8>,
    shown: Vec<u8>,
}

/// The texts that show a store once so many of a script's records are in its log.
#[derive(Drop)]
pub(crate) struct Stage {
    /// How the script's own run ends.
    shown: Vec<u8>,
    /// What a run begins with that works on.
    front: Vec<u8>,
    /// The store as that run leaves it, with the log as the script found it or cut anew.
    worked: Vec<Worked>,
}

/// The entries of a history, which may begin in place of the first ones with what an opening shows of them.
#[derive(Drop)]
struct Entries<'a> {
    /// How many these are, and what is shown of them.
    before: usize,
    front: &'a [u8],
    /// The lines of those behind.
    lines: &'a str,
}

impl<'a> Entries<'a> {
    fn of(history: &'a [u8], cuts: &'a [Cut]) -> Entries<'a> {
        let entries = entries_of(history);
        for cut in cuts {
            if let Some(lines) = entries.strip_prefix(cut.lines.as_slice()) {
                return Entries {
                    before: cut.count,
                    front: &cut.lines,
                    lines: text_of(lines),
                };
            }
        }
        Entries {
            before: 0,
            front: b"",
            lines: text_of(entries),
        }
    }

    /// Shows so many of them, where the log is cut behind the first ones.
    fn shown(&self, report: &mut Report, (cut, front): (usize, &[u8]), count: usize) -> Vec<u8> {
        let mut shown = Vec::new(report.alloc);
        report.push_line(&mut shown, "history");
        report.push(&mut shown, front);
        let mut number = self.before;
        for line in self.lines.lines() {
            if cut <= number && number < count {
                report.push_line(&mut shown, line);
            }
            number = number.saturating_add(1);
        }
        shown
    }
}

/// What a line under a sweep says, `end 2 1 get 1`: how many of the entries are there, how many are undecided then, and what the
/// sweep's command is answered, without the number.
#[derive(Drop)]
struct Said<'a> {
    count: &'a str,
    undecided: &'a str,
    reply: &'a str,
}

impl<'a> Said<'a> {
    fn of(line: &'a str) -> Said<'a> {
        let words = line.strip_prefix("end ").unwrap_or("");
        let (count, words) = words.split_once(' ').unwrap_or(("", ""));
        let (undecided, reply) = words.split_once(' ').unwrap_or(("", ""));
        Said {
            count,
            undecided,
            reply,
        }
    }
}

/// The store that these entries show, once the nth one is there too.
fn push_worked(
    report: &mut Report,
    worked: &mut Vec<Worked>,
    entries: &[u8],
    n: &str,
    said: &Said<'_>,
) {
    let entries = text_of(entries);
    let shown = report.joined(&[
        entries,
        n,
        " write put z 9\nend ",
        n,
        " ",
        said.undecided,
        "\n",
    ]);
    let end = report.joined(&[
        "\nget 9 @",
        n,
        "\n",
        said.reply,
        " @",
        n,
        "\n",
        text_of(&shown),
    ]);
    report.keep(worked, Worked { end, shown });
}

impl Stage {
    /// The texts of a stage with so many of the entries, of which these are shown. The log may be cut so, where as many are there.
    fn new(
        report: &mut Report,
        entries: &Entries<'_>,
        cuts: &[Cut],
        number: usize,
        said: &Said<'_>,
    ) -> Stage {
        let alloc = report.alloc;
        let n = report.spelled(format!(in alloc; "{}", number.saturating_add(1)));
        let n = text_of(&n);
        let found = entries.shown(report, (entries.before, entries.front), number);
        let mut worked = Vec::new(alloc);
        push_worked(report, &mut worked, &found, n, said);
        for cut in cuts {
            if entries.before < cut.count && cut.count <= number {
                let left = entries.shown(report, (cut.count, &cut.lines), number);
                push_worked(report, &mut worked, &left, n, said);
            }
        }
        Stage {
            shown: report.joined(&[
                text_of(&found),
                "end ",
                said.count,
                " ",
                said.undecided,
                "\n",
            ]),
            front: report.joined(&["client c\nput @", n, "\nflushed @", n, " "]),
            worked,
        }
    }

    /// Reads a line under a sweep.
    pub(crate) fn read(report: &mut Report, history: &[u8], cuts: &[Cut], line: &str) -> Stage {
        let said = Said::of(line);
        let number = report.number(said.count);
        Stage::new(report, &Entries::of(history, cuts), cuts, number, &said)
    }

    /// Whether a run that works on, and then shows its store, wrote these texts.
    fn is_shown(&self, text: &[u8], again: &[u8]) -> bool {
        let mut is_shown = false;
        for worked in &self.worked {
            is_shown |= text.ends_with(&worked.end) && again == worked.shown.as_slice();
        }
        is_shown && text.starts_with(&self.front)
    }
}

/// Whether these texts show one of the stages.
pub(crate) fn is_any_shown(stages: &[Stage], worked: &[u8], again: &[u8]) -> bool {
    let mut is_shown = false;
    for stage in stages {
        is_shown |= stage.is_shown(worked, again);
    }
    is_shown
}

/// Whether the text of a run is whole, with the history of the first of these stages; or whether there is none where there has to be
/// none.
pub(crate) fn is_whole(stages: &[Stage], text: &[u8], is_none: bool) -> bool {
    match stages.first() {
        _ if is_none => text.is_empty(),
        Some(stage) => text.ends_with(&stage.shown),
        None => false,
    }
}

/// Whether the reply acknowledges a record.
fn acknowledges(reply: &str) -> bool {
    match reply.split_once(" @") {
        Some((verb, _)) => matches!(
            verb,
            "put" | "del" | "prepare" | "commit" | "rollback" | "settled"
        ),
        None => false,
    }
}

/// Those to which the devices may open after a run with this text: that of the acknowledged records, and where the log failed also
/// that of one record more.
pub(crate) fn stages_after<'a>(stages: &'a [Stage], text: &[u8], is_logs: bool) -> &'a [Stage] {
    let mut count = 0usize;
    for line in text_of(text).lines() {
        if acknowledges(line) {
            count = count.saturating_add(1);
        }
    }
    let (_, from) = stages.split_at(count.min(stages.len()));
    let more = if is_logs { 2 } else { 1 };
    from.split_at(from.len().min(more)).0
}
