ghost use Rattle.std.specs.Prelude.{◌≡◌};

use crate::store::InstalledEdit;
use std::marker::Model;
use std::snapshot::Snapshot;
use wp_core::Turn;
use wp_model::{Batch, Entry, Holder, Key, Name, Seq, Version};

/// How a holder that was found is accounted for: the finder's own, another actor's, or a prepare undecided after so many
/// entries.
#[derive(Clone, Copy)]
pub enum Account {
    Own,
    Another,
    PrepareAt(Seq),
}

/// What an actor did or found. Of what stays in a past steps read how many tables an edit has and who locked a key, so the rest has no
/// bytes.
#[derive(Drop)]
pub enum Found {
    Claimed(Snapshot<Name>),
    Took(Snapshot<Name>),
    Locked(Key, Holder),
    Told(Snapshot<Name>, Seq),
    Heard(Snapshot<Name>, Seq),
    /// An edit that a flush made.
    Flushed(Snapshot<InstalledEdit>),
    /// An edit that a compaction made, with so many tables.
    Compacted(Snapshot<InstalledEdit>, u64),
    /// This edit, which names another segment of the log.
    Renewed(Snapshot<InstalledEdit>),
    /// The append of this record failed, or the write of a segment, which has no record.
    LogFailed(Snapshot<Vec<Entry>>),
    /// The log was closed behind a failure of the tables' devices.
    LogStopped,
    /// The devices failed, where the first was the last edit, in the install of the second, if of one.
    TablesFailed(Snapshot<InstalledEdit>, Snapshot<Option<InstalledEdit>>),
    /// The log was found closed at this published number.
    Stopped(Seq),
    /// At this published number the log was found with this base.
    Base(Seq, Seq),
    /// The last edit, with this flushed number, this base of the log and so many tables, by one who knew of so many; true
    /// where the devices had failed.
    Edit(Seq, Seq, u64, u64, bool),
    /// This holder, of a key or else of a live name, by one who had seen so many entries.
    Holder(Snapshot<Option<Key>>, Snapshot<Holder>, Seq, Account),
}

/// What stays in an actor's past.
pub struct Event {
    pub what: Found,
}

impl Model for Event {
    ghost use Rattle.wp_core.specs.Views.{Event};

    ghost Value = { Event };

    ghost use Rattle.wp_machine.specs.Parts.{event_of};

    ghost view = { λ e. event_of e.what };
}

impl Event {
    ghost use Rattle.wp_machine.specs.Parts.{event_of};

    pub fn of(what: Found) -> Event
        ensures { result ≡ event_of what }
    {
        Event { what }
    }
}

/// What an actor may note.
#[derive(Drop)]
pub enum Noted {
    /// The pair of the word at this place may be evicted: its decision is at most the bound.
    Passed(usize, Seq, Seq),
    /// The old commit map has it under each live snapshot that it overlaps.
    InOldCommits(usize, Seq, Seq),
    /// It is of no prepared transaction, or a delayed commit.
    Apart(usize, Seq, Seq),
    /// Nobody else changes the bound or a word.
    WordsStay(Seq, Vec<u64>),
    /// This number is decided, and in neither the heap nor the delayed set.
    HasLeft(Seq),
    VersionsInMemory,
    VersionsNowhere,
    NumberInHeap,
    NumberNotInHeap,
    /// The pending entry's pair is a delayed commit.
    PairDelayed,
    /// It is none.
    PairNotDelayed,
    /// Each prepared number that is decided at the bound or before has its pair in its word.
    NoneWaits,
    UndecidedAt(Name, Seq),
    PriorValues(Name, Seq, Batch),
    Unprepared(Name),
    DirectFree(Key),
    Unchanged(Name, Key, Seq),
    LocksStay(Name, Seq, Vec<Key>),
    TablesStay(Vec<Version>, Seq),
    LiveListed(Seq, Vec<Seq>),
    NothingFlushed,
    FrozenStay(Seq, Vec<Version>),
    DelayedFlagStays(u64),
    OldFlagStays(u64),
}

/// A fact that an actor noted.
pub struct Fact {
    pub says: Noted,
}

impl Model for Fact {
    ghost use Rattle.wp_core.specs.Views.{Fact};

    ghost Value = { Fact };

    ghost use Rattle.wp_machine.specs.Parts.{fact_of};

    ghost view = { λ f. fact_of f.says };
}

impl Fact {
    ghost use Rattle.std.specs.Prelude.{option_map};
    ghost use Rattle.wp_core.specs.Sound.Views.{guarded_by};
    ghost use Rattle.wp_core.specs.Turns.{turn_of};
    ghost use Rattle.wp_machine.specs.Parts.{fact_of};

    pub fn of(says: Noted) -> Fact
        ensures { result ≡ fact_of says }
    {
        Fact { says }
    }

    /// The turn under which it stays so; none: without a turn.
    pub fn guard(&self) -> Option<Turn>
        ensures { option_map turn_of result ≡ guarded_by self.now }
    {
        match &self.says {
            Noted::HasLeft(_)
            | Noted::UndecidedAt(_, _)
            | Noted::PriorValues(_, _, _)
            | Noted::Unprepared(_)
            | Noted::DirectFree(_)
            | Noted::Unchanged(_, _, _)
            | Noted::LocksStay(_, _, _)
            | Noted::LiveListed(_, _) => None,
            Noted::TablesStay(_, _) | Noted::NothingFlushed | Noted::FrozenStay(_, _) => {
                Some(Turn::Tables)
            }
            Noted::DelayedFlagStays(_) => Some(Turn::Prepared),
            Noted::OldFlagStays(_) => Some(Turn::Snapshots),
            Noted::Passed(_, _, _)
            | Noted::InOldCommits(_, _, _)
            | Noted::Apart(_, _, _)
            | Noted::WordsStay(_, _)
            | Noted::VersionsInMemory
            | Noted::VersionsNowhere
            | Noted::NumberInHeap
            | Noted::NumberNotInHeap
            | Noted::PairDelayed
            | Noted::PairNotDelayed
            | Noted::NoneWaits => Some(Turn::Write),
        }
    }
}

// Written out, so that no crate above proves anew how all that it holds is let go.
impl Drop for Event {
    fn drop(self) {
        let Self { what: _what } = self;
    }
}

impl Drop for Fact {
    fn drop(self) {
        let Self { says: _says } = self;
    }
}
