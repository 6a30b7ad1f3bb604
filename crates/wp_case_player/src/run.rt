//! What a case says of one run, line by line.

use crate::bytes::{Named, bytes_of};
use crate::device::Device;
use crate::holds::{push_hold, push_order};
use crate::play::{AMPLE_ROOM, Call, Faults};
use crate::report::{Report, text_of};
use crate::stage::{Cut, Stage};
use wp_memory::Hold;

/// The clause that the lines set in by two spaces belong to.
#[derive(Clone, Copy)]
enum Block {
    None,
    Script,
    History,
    Other,
    Opens,
    Cut,
    Sweep,
}

/// What a case says of one run.
#[derive(Drop)]
pub(crate) struct Run<'a> {
    /// The line that begins it.
    pub(crate) line: usize,
    /// What the program is called with.
    pub(crate) words: &'a str,
    script: Vec<u8>,
    source_fails: u64,
    pub(crate) room: usize,
    /// Which lines are held back.
    pub(crate) holds: Vec<Hold>,
    pub(crate) log: Device,
    pub(crate) manifest: Device,
    pub(crate) tables: Device,
    /// Whether the devices have to end with the bytes that they began with.
    pub(crate) stays: bool,
    /// The status, and its line on standard error.
    pub(crate) status: &'a str,
    /// What is told of a copy, behind the word `copied`; empty where the run makes none.
    pub(crate) copied: &'a str,
    /// Whether the devices that are copied have to end with the bytes that they began with.
    pub(crate) source_stays: bool,
    /// Whether it is a copy to be swept.
    pub(crate) is_swept_copy: bool,
    /// The replies, with the lines that begin each client's.
    pub(crate) replies: Vec<u8>,
    /// A line for each entry of the history, and the line that ends it.
    pub(crate) history: Vec<u8>,
    /// Other texts that are as good.
    pub(crate) others: Vec<Vec<u8>>,
    /// The texts that may show the store afterwards; any may where there are none.
    pub(crate) opens: Vec<Vec<u8>>,
    /// The name under which the bytes of the devices are kept; none where it is empty.
    pub(crate) kept: &'a str,
    /// Behind how many entries the log may be cut, and what is shown of them then.
    pub(crate) cuts: Vec<Cut>,
    /// The script of a run that works on once the devices opened, and that shows how far the swept one came.
    pub(crate) work: Vec<u8>,
    /// What the store is before the swept script's first record and after each; without these there is no sweep.
    pub(crate) stages: Vec<Stage>,
    /// The clause that was read last.
    block: Block,
}

/// The entries of a history, without the line that ends it.
pub(crate) fn entries_of(history: &[u8]) -> &[u8] {
    match text_of(history).rsplit_once("end ") {
        Some((entries, _)) => entries.as_bytes(),
        None => history,
    }
}

/// Reads a line such as `put k 1 -> put @1`. One that begins a client stands among the replies too; one without a reply has none.
fn push_command(report: &mut Report, script: &mut Vec<u8>, replies: &mut Vec<u8>, line: &str) {
    let (command, reply) = line.split_once(" -> ").unwrap_or((line, ""));
    report.push_line(script, command);
    if !reply.is_empty() {
        report.push_line(replies, reply);
    } else if line.starts_with("client ") {
        report.push_line(replies, line);
    }
}

/// Adds a line to the last of the texts.
fn push_to_last(report: &mut Report, texts: &mut [Vec<u8>], line: &str) {
    if let Some(text) = texts.last_mut() {
        report.push_line(text, line);
    }
}

impl<'a> Run<'a> {
    /// A run of which only its command line is known.
    pub(crate) fn new(report: &Report, line: usize, words: &'a str) -> Run<'a> {
        let alloc = report.alloc;
        Run {
            line,
            words,
            script: Vec::new(alloc),
            source_fails: 0,
            room: AMPLE_ROOM,
            holds: Vec::new(alloc),
            log: Device::new(report, "log"),
            manifest: Device::new(report, "manifest"),
            tables: Device::new(report, "tables"),
            stays: false,
            status: "0 ok",
            copied: "",
            source_stays: false,
            is_swept_copy: false,
            replies: Vec::new(alloc),
            history: Vec::new(alloc),
            others: Vec::new(alloc),
            opens: Vec::new(alloc),
            kept: "",
            cuts: Vec::new(alloc),
            work: Vec::new(alloc),
            stages: Vec::new(alloc),
            block: Block::None,
        }
    }

    pub(crate) fn call(&self) -> Call<'_> {
        Call {
            words: self.words,
            script: &self.script,
            source_fails: self.source_fails,
            room: self.room,
            holds: &self.holds,
        }
    }

    pub(crate) fn faults(&self, time: usize) -> [Faults; 3] {
        [
            self.log.faults(time),
            self.manifest.faults(time),
            self.tables.faults(time),
        ]
    }

    /// Whether it is not to be made once more.
    pub(crate) fn is_last(&self, time: usize) -> bool {
        self.log.is_last(time) && self.manifest.is_last(time) && self.tables.is_last(time)
    }

    /// Reads a line that is set in.
    fn read_under(&mut self, report: &mut Report, line: &str) {
        match self.block {
            Block::Script => push_command(report, &mut self.script, &mut self.replies, line),
            Block::History => report.push_line(&mut self.history, line),
            Block::Other => push_to_last(report, &mut self.others, line),
            Block::Opens => push_to_last(report, &mut self.opens, line),
            Block::Cut => {
                if let Some(cut) = self.cuts.last_mut() {
                    report.push_line(&mut cut.lines, line);
                }
            }
            Block::Sweep => {
                let stage = Stage::read(report, &self.history, &self.cuts, line);
                report.keep(&mut self.stages, stage);
            }
            Block::None => report.understands_not(),
        }
    }

    /// Reads a history that the devices may open to: its entries beside those that the lines under the clause name.
    fn read_opens(&mut self, report: &mut Report, words: &str) {
        let mut text = Vec::new(report.alloc);
        report.push_line(&mut text, "history");
        match words {
            "to" => {}
            "to it" => report.push(&mut text, &self.history),
            "to more" => report.push(&mut text, entries_of(&self.history)),
            _ => report.understands_not(),
        }
        report.keep(&mut self.opens, text);
        self.block = Block::Opens;
    }

    /// Reads a clause with words of the case's own.
    fn read_words(&mut self, report: &mut Report, verb: &str, words: &'a str) {
        match verb {
            "room" => self.room = report.number(words),
            "hold" => push_hold(report, &mut self.holds, words),
            "order" => push_order(report, &mut self.holds, words),
            "status" => self.status = words,
            "keep" => self.kept = words,
            "copied" => self.copied = words,
            "cut" => {
                let count = report.number(words);
                let lines = Vec::new(report.alloc);
                report.keep(&mut self.cuts, Cut { count, lines });
                self.block = Block::Cut;
            }
            _ => {
                self.work = report.joined(&["client c\nput z 9\nflush\nget z\n", words, "\n"]);
                self.block = Block::Sweep;
            }
        }
    }

    /// Reads a clause with no words of the case's own. `before` has the history of the run before.
    fn read_whole(&mut self, report: &mut Report, before: &[u8], clause: &str) {
        match clause {
            "script" => self.block = Block::Script,
            "history" => self.block = Block::History,
            "more history" => {
                report.push(&mut self.history, entries_of(before));
                self.block = Block::History;
            }
            "or text" => {
                let text = Vec::new(report.alloc);
                report.keep(&mut self.others, text);
                self.block = Block::Other;
            }
            "source fails" => self.source_fails = 1,
            "devices stay" => self.stays = true,
            "source stays" => self.source_stays = true,
            "sweep" => self.is_swept_copy = true,
            _ => report.understands_not(),
        }
    }

    fn read_clause(
        &mut self,
        report: &mut Report,
        names: &[Named<'_>],
        before: &[u8],
        clause: &'a str,
    ) {
        self.block = Block::None;
        let (verb, words) = clause.split_once(' ').unwrap_or((clause, ""));
        match verb {
            "log" => self.log.read(report, names, words),
            "manifest" => self.manifest.read(report, names, words),
            "tables" => self.tables.read(report, names, words),
            "opens" => self.read_opens(report, words),
            "room" | "hold" | "order" | "status" | "keep" | "copied" | "cut" => self.read_words(
                report, verb, words,
            ),
            "sweep" if !words.is_empty() => self.read_words(report, verb, words),
            "script" if !words.is_empty() => self.script = bytes_of(report, names, words),
            _ => self.read_whole(report, before, clause),
        }
    }

    /// Reads a line of the case, with the bytes that the file named so far. `before` has the history of the run before.
    pub(crate) fn read(
        &mut self,
        report: &mut Report,
        names: &[Named<'_>],
        before: &[u8],
        line: &'a str,
    ) {
        match line.strip_prefix("  ") {
            Some(under) => self.read_under(report, under),
            None => self.read_clause(report, names, before, line),
        }
    }
}
