//! Steps as lines: the step's word, and what that needs.
use crate::entry::{batch_of, entry_of, word_of};
use crate::trouble::{Tried, Trouble, number};
use std::alloc::Global;
use wp_judge::Load;
use wp_machine::{
    Account, ActorsStep, Fact, InstalledEdit, Kind, LocksStep, Noted, OwnStep, PreparedStep,
    ReaderStep, SnapshotsStep, Step, StoreStep, TablesStep, Turn, TurnStep, WordStep, WriteStep,
};
use wp_model::{Holder, Key, Name, Segment, Seq};

/// The first word of a line, and what is after it.
pub(crate) fn first_word(line: &str) -> (&str, &str) {
    line.split_once(' ').unwrap_or((line, ""))
}

/// Reads the turn of `take TURN` or `give TURN`.
fn turn_step(by: usize, verb: &str, word: &str) -> Tried<Step> {
    let turn = match word {
        "write" => Turn::Write,
        "prepared" => Turn::Prepared,
        "snapshots" => Turn::Snapshots,
        "store" => Turn::Store,
        "locks" => Turn::Locks,
        "tables" => Turn::Tables,
        _ => return Err(Trouble::Unclear),
    };
    let step = if verb == "take" {
        TurnStep::Take(turn)
    } else {
        TurnStep::Give(turn)
    };
    let kind = Kind::Turn(step);
    Ok(Step { by, kind })
}

/// Reads what `load` loads.
fn load_step(by: usize, word: &str) -> Tried<Step> {
    let load = match word {
        "first-word" => Load::FirstWord,
        "first-max" => Load::FirstMax,
        "delayed-flag" => Load::DelayedFlag,
        "in-prepared" => Load::InPrepared,
        "second-word" => Load::SecondWord,
        "second-max" => Load::SecondMax,
        "old-flag" => Load::OldFlag,
        "is-old-commit" => Load::IsOldCommit,
        _ => return Err(Trouble::Unclear),
    };
    let kind = Kind::Reader(ReaderStep::Load(load));
    Ok(Step { by, kind })
}

/// Steps with words, the prepared turn or the snapshots turn, of up to two numbers.
fn shared_step(by: usize, verb: &str, first: Seq, second: Seq) -> Option<Step> {
    let kind = match verb {
        "word-store" => Kind::Word(WordStep::StoreWord),
        "word-publish" => Kind::Word(WordStep::StorePublished),
        "word-raise" => Kind::Word(WordStep::StoreMaxEvicted(first)),
        "word-delayed-flag" => Kind::Word(WordStep::StoreDelayedFlag(first)),
        "word-old-flag" => Kind::Word(WordStep::StoreOldFlag(first)),
        "prepared-add" => Kind::Prepared(PreparedStep::Add),
        "prepared-take" => Kind::Prepared(PreparedStep::TakePending),
        "prepared-commit" => Kind::Prepared(PreparedStep::AddDelayedCommit(first, second)),
        "prepared-delay" => Kind::Prepared(PreparedStep::DelayPending(first, second)),
        "prepared-take-out" => Kind::Prepared(PreparedStep::TakeOut(first)),
        "snapshots-keep" => Kind::Snapshots(SnapshotsStep::AddOldCommit(first, second)),
        "snapshots-register" => Kind::Snapshots(SnapshotsStep::RegisterAgain(first)),
        "snapshots-release" => Kind::Snapshots(SnapshotsStep::Release(first as usize)),
        _ => return None,
    };
    Some(Step { by, kind })
}

/// An edit of the empty history, with the segment at that place.
fn edit_at(alloc: Global, place: u64) -> InstalledEdit {
    InstalledEdit {
        segment: Segment { place, base: 0 },
        flushed: 0,
        versions: Vec::new(alloc),
        tables: 0,
    }
}

/// Steps of actors, of a reader, with the store turn, the tables turn or the write turn, and notes, of up to one number. A version is
/// read at the first snapshot, in a cache of one word.
fn other_step(alloc: Global, by: usize, verb: &str, n: Seq) -> Tried<Step> {
    let kind = match verb {
        "actors-note" => Kind::Actors(ActorsStep::MakeNote),
        "actors-seat" => Kind::Actors(ActorsStep::MakeSeat),
        "actors-learn" => Kind::Actors(ActorsStep::Learn(n as usize)),
        "actors-join" => Kind::Actors(ActorsStep::JoinSeat(n as usize)),
        "reader-load-published" => Kind::Reader(ReaderStep::LoadPublished),
        "reader-register" => Kind::Reader(ReaderStep::Register(n)),
        "reader-read" => Kind::Reader(ReaderStep::BeginReading(0, n, 0)),
        "store-add" => Kind::Store(StoreStep::AddVersions),
        "store-take" => Kind::Store(StoreStep::TakeVersions),
        "write-log" => Kind::Write(WriteStep::LogPending),
        "write-drop" => Kind::Write(WriteStep::DropPending),
        "write-close" => Kind::Write(WriteStep::CloseLog),
        "write-base" => Kind::Write(WriteStep::FindBase),
        "write-segment" => Kind::Write(WriteStep::WriteSegment(n)),
        "write-use" => Kind::Write(WriteStep::UseSegment),
        "write-stop" => Kind::Write(WriteStep::StopLog),
        "tables-renew" => Kind::Tables(TablesStep::Renew(edit_at(alloc, n))),
        "tables-halt" => Kind::Tables(TablesStep::Halt(None)),
        "note-left" => Kind::Own(OwnStep::Note(Fact::of(Noted::HasLeft(n)))),
        _ => return Err(Trouble::Unclear),
    };
    Ok(Step { by, kind })
}

/// A number that a step lacks is 0.
fn number_or_none(word: &str) -> Tried<Seq> {
    if word.is_empty() { Ok(0) } else { number(word) }
}

/// A step that is of numbers alone.
fn step_of_numbers(alloc: Global, by: usize, verb: &str, rest: &str) -> Tried<Step> {
    let (first, second) = first_word(rest);
    let (first, second) = (number_or_none(first)?, number_or_none(second)?);
    match shared_step(by, verb, first, second) {
        Some(step) => Ok(step),
        None => other_step(alloc, by, verb, first),
    }
}

/// A step with a name, and with the number or the key that is last.
fn name_step(alloc: Global, by: usize, verb: &str, name: Name, last: &str) -> Tried<Step> {
    let step = match verb {
        "locks-claim" => LocksStep::ClaimName(name),
        "locks-leave" => LocksStep::LeaveName(name),
        "locks-free" => LocksStep::FreeTransaction(name),
        "locks-take" => LocksStep::TakeName(name, number(last)?),
        "locks-lock-key" => LocksStep::LockKey(name, word_of(alloc, last)?),
        "locks-free-key" => LocksStep::FreeKey(name, word_of(alloc, last)?),
        _ => return Err(Trouble::Unclear),
    };
    let kind = Kind::Locks(step);
    Ok(Step { by, kind })
}

/// Reads `locks-lock-key NAME KEY`, `locks-claim NAME` or the like.
fn locks_step(alloc: Global, by: usize, verb: &str, rest: &str) -> Tried<Step> {
    let (name, last) = first_word(rest);
    let step = match verb {
        "locks-lock-direct" => LocksStep::LockDirect(word_of(alloc, name)?),
        "locks-free-direct" => LocksStep::FreeDirect(word_of(alloc, name)?),
        _ => return name_step(alloc, by, verb, word_of(alloc, name)?, last),
    };
    let kind = Kind::Locks(step);
    Ok(Step { by, kind })
}

/// Reads whom a finder accounts for: `own`, `another`, or after how many entries a prepare was undecided.
fn account_of(word: &str) -> Tried<Account> {
    match word {
        "own" => Ok(Account::Own),
        "another" => Ok(Account::Another),
        _ => Ok(Account::PrepareAt(number(word)?)),
    }
}

/// Reads `locks-find NAME KEY ACCOUNT`.
fn find_step(alloc: Global, by: usize, rest: &str) -> Tried<Step> {
    let (name, rest) = first_word(rest);
    let (key, account) = first_word(rest);
    let holder = Holder::Txn(word_of(alloc, name)?);
    let key = Some(word_of(alloc, key)?);
    let step = LocksStep::FindHolder(key, holder, account_of(account)?);
    let kind = Kind::Locks(step);
    Ok(Step { by, kind })
}

/// Reads keys with a space between each two.
fn keys_of(alloc: Global, words: &str) -> Tried<Vec<Key>> {
    let mut keys = Vec::new(alloc);
    for word in words.split(' ') {
        keys.push(word_of(alloc, word)?)?;
    }
    Ok(keys)
}

/// Reads `note-unchanged NAME KEY NUMBER` or `note-locks NAME NUMBER KEY..`.
fn note_step(alloc: Global, by: usize, verb: &str, rest: &str) -> Tried<Step> {
    let (name, rest) = first_word(rest);
    let name = word_of(alloc, name)?;
    let (first, last) = first_word(rest);
    let fact = match verb {
        "note-unchanged" => Noted::Unchanged(name, word_of(alloc, first)?, number(last)?),
        _ => Noted::LocksStay(name, number(first)?, keys_of(alloc, last)?),
    };
    let kind = Kind::Own(OwnStep::Note(Fact::of(fact)));
    Ok(Step { by, kind })
}

/// Reads `set-batch NAME KEY VALUE`.
fn batch_step(alloc: Global, by: usize, rest: &str) -> Tried<Step> {
    let (name, change) = first_word(rest);
    let batch = batch_of(alloc, change)?;
    let kind = Kind::Own(OwnStep::SetBatch(word_of(alloc, name)?, batch));
    Ok(Step { by, kind })
}

/// Reads `write-pend ENTRY`, or several entries with ` + ` between each two.
fn pending_step(alloc: Global, by: usize, rest: &str) -> Tried<Step> {
    let mut entries = Vec::new(alloc);
    for entry in rest.split(" + ") {
        entries.push(entry_of(alloc, entry)?)?;
    }
    let kind = Kind::Write(WriteStep::MakePending(entries));
    Ok(Step { by, kind })
}

/// The step that the line says, of the actor at that place.
pub(crate) fn step_of(alloc: Global, by: usize, line: &str) -> Tried<Step> {
    let (verb, rest) = first_word(line);
    match verb {
        "take" | "give" => turn_step(by, verb, rest),
        "load" => load_step(by, rest),
        "write-pend" => pending_step(alloc, by, rest),
        "set-batch" => batch_step(alloc, by, rest),
        "note-unchanged" | "note-locks" => note_step(alloc, by, verb, rest),
        "locks-find" => find_step(alloc, by, rest),
        _ if verb.starts_with("locks-") => locks_step(alloc, by, verb, rest),
        _ => step_of_numbers(alloc, by, verb, rest),
    }
}
