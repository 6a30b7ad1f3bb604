ghost use Rattle.std.specs.Prelude.{OnOk};
ghost use Rattle.wp_machine.specs.Machine.{MayMake, Makes};

use crate::applied::make;
use crate::store::InstalledEdit;
use crate::views::{Account, Fact};
use crate::world::World;
use std::alloc::AllocError;
use wp_core::Turn;
use wp_judge::Load;
use wp_model::{Batch, Entry, Holder, Key, Name, Seq, Version};

/// A step of an actor, given by its place among the actors.
pub struct Step {
    pub by: usize,
    pub kind: Kind,
}

impl Step {
    pub(crate) fn apply_to(self, world: &mut World) -> Result<(), AllocError>
        requires { MayMake world.old self.by self.kind }
        ensures { OnOk result (Makes world.old self.by self.kind world.new) }
    {
        let Step { by, kind } = self;
        make(world, by, kind)
    }
}

/// What a step is. What the world has already is named by a number, a name or a place alone.
#[derive(Drop)]
pub enum Kind {
    Reader(ReaderStep),
    Word(WordStep),
    Turn(TurnStep),
    Write(WriteStep),
    Prepared(PreparedStep),
    Snapshots(SnapshotsStep),
    Store(StoreStep),
    Tables(TablesStep),
    Locks(LocksStep),
    Own(OwnStep),
    Actors(ActorsStep),
}

/// What a reader loads.
#[derive(Drop)]
pub enum ReaderStep {
    /// The published number: the actor sees the history.
    LoadPublished,
    /// The published number is loaded and registered at once, with this smallest.
    Register(Seq),
    /// From now on the actor reads this version, at the snapshot at this place of its registrations, in a cache of so many bits.
    BeginReading(u32, Seq, usize),
    Load(Load),
    EndReading,
}

/// A store of a word.
#[derive(Drop)]
pub enum WordStep {
    /// The published number: the first of the pending entries joins the history.
    StorePublished,
    /// The bound, and each number of the prepared heap up to it moves to the delayed set.
    StoreMaxEvicted(Seq),
    /// The pending entry's pair comes into its word of the cache.
    StoreWord,
    StoreDelayedFlag(u64),
    StoreOldFlag(u64),
}

#[derive(Drop)]
pub enum TurnStep {
    Take(Turn),
    Give(Turn),
}

/// A step with the write turn.
#[derive(Drop)]
pub enum WriteStep {
    /// The entries of one record, to be logged and published.
    MakePending(Vec<Entry>),
    LogPending,
    /// The append failed, or the write of a segment.
    CloseLog,
    FindLogClosed,
    /// The published number and the log's base, while no segment waits.
    FindBase,
    DropPending,
    /// A segment of the log, at this place of its device, of the history up to the published number.
    WriteSegment(u64),
    /// The last edit names the next segment, which comes into use.
    UseSegment,
    /// No entry is taken any more, since the devices of the tables failed.
    StopLog,
}

/// A step with the prepared turn.
#[derive(Drop)]
pub enum PreparedStep {
    /// The number of the pending Prepare, into the heap.
    Add,
    /// The number of the pending Prepare, out of the heap.
    TakePending,
    /// A version, and the number that decides it.
    AddDelayedCommit(Seq, Seq),
    /// The number of the pending entry's pair, which fits no word, and the number that decides it.
    DelayPending(Seq, Seq),
    /// A decided number leaves heap, delayed set and delayed commits.
    TakeOut(Seq),
}

/// A step with the snapshots turn.
#[derive(Drop)]
pub enum SnapshotsStep {
    /// A live number once more, with the smallest 1.
    RegisterAgain(Seq),
    /// The registration at this place of the actor's goes.
    Release(usize),
    /// Under a live number, a version that overlaps it.
    AddOldCommit(Seq, Seq),
}

/// A step with the store turn.
#[derive(Drop)]
pub enum StoreStep {
    /// The versions of the pending entry, into memory.
    AddVersions,
    /// What memory has of the number of the pending entry, out of it.
    TakeVersions,
    /// A flush: memory and tables as they become.
    MoveVersions(Vec<Version>, Vec<Version>),
    /// A compaction: tables and floor as they become.
    ReplaceVersions(Vec<Version>, Seq),
}

/// A step with the tables turn.
#[derive(Drop)]
pub enum TablesStep {
    /// An edit; true where a compaction made it.
    Install(InstalledEdit, bool),
    /// An edit that names the log's next segment.
    Renew(InstalledEdit),
    /// The devices failed, in the install of this edit or before one.
    Halt(Option<InstalledEdit>),
    FindEdit,
}

/// A step with the locks turn.
#[derive(Drop)]
pub enum LocksStep {
    ClaimName(Name),
    /// The undecided prepare with this name and number, which no actor has.
    TakeName(Name, Seq),
    LeaveName(Name),
    FreeTransaction(Name),
    /// A key for the actor's transaction of this name.
    LockKey(Name, Key),
    FreeKey(Name, Key),
    LockDirect(Key),
    FreeDirect(Key),
    /// Of a key, or else of a live name.
    FindHolder(Option<Key>, Holder, Account),
    /// The label gets the length of what the actor saw.
    Tell(Name),
    Hear(Name),
}

/// A step that the actor makes without a turn.
#[derive(Drop)]
pub enum OwnStep {
    SetBatch(Name, Batch),
    Note(Fact),
    SetClient(Name),
}

/// A step that makes an actor, or joins one.
#[derive(Drop)]
pub enum ActorsStep {
    MakeNote,
    MakeSeat,
    /// What the note at this place saw is learned.
    Learn(usize),
    /// The seat at this place is joined.
    JoinSeat(usize),
}

// Written out, so that no crate above proves anew how all that it holds is let go.
impl Drop for Step {
    fn drop(self) {
        let Self {
            by: _by,
            kind: _kind,
        } = self;
    }
}
