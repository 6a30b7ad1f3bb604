//! What is played, and what a line of a file does.
use crate::entry::entry_of;
use crate::group::{Group, lines_of, push_under};
use crate::play::played;
use crate::step::first_word;
use crate::trouble::{Tried, Trouble, number};
use std::alloc::Global;
use wp_history::History;
use wp_machine::World;
use wp_model::{Entry, Name};

/// The greatest number of an entry: 2^56 - 1.
const MOST_ENTRIES: u64 = 72057594037927935;

/// The name of the client.
const CLIENT: &[u8] = b"a";

/// The groups, which serve the files behind theirs too, the case, and how many cases there were and came out otherwise.
#[derive(Drop)]
pub(crate) struct Player {
    groups: Vec<Group>,
    /// What an opening finds.
    found: History,
    /// None where there is no case. So the other lines of one that ended are passed over.
    world: Option<World>,
    pub(crate) cases: usize,
    pub(crate) failed: usize,
}

fn add(history: &mut History, entry: Entry) -> Tried<()> {
    if history.published() == MOST_ENTRIES || !history.is_legal_next(&entry) {
        return Err(Trouble::Wrong);
    }
    history.reserve(1)?;
    history.push(entry);
    Ok(())
}

/// The world that is opened on the history, which has no base, with a commit cache of one word.
fn opened(alloc: Global, history: &History) -> Tried<World> {
    if history.base() != 0 || history.undone_last().is_some() {
        return Err(Trouble::Wrong);
    }
    match Name::read(alloc, CLIENT) {
        Ok(client) => Ok(World::opened(alloc, client, history, 0)?),
        Err(_) => Err(Trouble::Memory),
    }
}

impl Player {
    pub(crate) fn new(alloc: Global) -> Player {
        Player {
            groups: Vec::new(alloc),
            found: History::new(alloc),
            world: None,
            cases: 0,
            failed: 0,
        }
    }

    /// The case came out otherwise: its other lines are passed over.
    pub(crate) fn fail(&mut self) {
        self.world = None;
        self.failed = self.failed.saturating_add(1);
    }

    /// Begins a case, on the empty history.
    fn begin(&mut self, alloc: Global) -> Tried<()> {
        self.cases = self.cases.saturating_add(1);
        self.found = History::new(alloc);
        self.world = Some(opened(alloc, &self.found)?);
        Ok(())
    }

    /// Reads `2 ENTRY`: twice this entry is found, and the world is opened on that.
    fn find(&mut self, alloc: Global, words: &str) -> Tried<()> {
        if self.world.is_none() {
            return Ok(());
        }
        let (times, words) = first_word(words);
        for _ in 0..number(times)? {
            add(&mut self.found, entry_of(alloc, words)?)?;
        }
        self.world = Some(opened(alloc, &self.found)?);
        Ok(())
    }

    fn play_case_line(&mut self, alloc: Global, line: &str) -> Tried<()> {
        let (verb, rest) = first_word(line);
        match verb {
            "case" => self.begin(alloc),
            "found" => self.find(alloc, rest),
            _ => {
                if let Some(world) = self.world.take() {
                    self.world = Some(played(world, lines_of(&self.groups, line))?);
                }
                Ok(())
            }
        }
    }

    /// Plays a line. One that is empty or begins with `#` is passed over.
    pub(crate) fn play(&mut self, alloc: Global, line: &str) -> Tried<()> {
        if line.is_empty() || line.starts_with('#') {
            return Ok(());
        }
        if let Some(under) = line.strip_prefix("  ") {
            return push_under(alloc, &mut self.groups, under);
        }
        if let Some(name) = line.strip_prefix("group ") {
            self.groups.push(Group::new(alloc, name)?)?;
            return Ok(());
        }
        self.play_case_line(alloc, line)
    }
}
