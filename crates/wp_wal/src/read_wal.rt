//! A log that was read and judged.
ghost use Rattle.std.specs.Prelude.{◌≡◌, ◌≤◌, ℕ, List, IfOk, IfErr, MatchResult};
ghost use Rattle.wp_outside.specs.Disk.{Moment};
ghost use Rattle.wp_outside.specs.Faults.{Rose};
ghost use Rattle.wp_history.specs.Outline.{cut_in};
ghost use Rattle.wp_wal.specs.Opening.{IsOpenedLog, IsReadWal, IsUnopenedLog, KeepsWal};

use crate::base::{begin_log, first_record};
use crate::error::WalError;
use crate::read::outline_of;
use crate::wal::{LOG_MAGIC, Wal};
use std::alloc::Global;
use std::marker::Model;
use wp_fields::Format;
use wp_gatelog::{DiskRefused, Frame, ReadLog};
use wp_history::Outline;
use wp_outside::{Disk, Failed};

/// A log that was read and judged as far as it tells, and of which nothing was written yet: whoever opens a store compares ids before it is
/// repaired. Clauses see what was read of its disk, and the outline.
pub struct ReadWal<D: Disk> {
    alloc: Global,
    log: ReadLog<D>,
    outline: Outline,
    first: Option<Frame>,
}

impl<D: Disk> Model for ReadWal<D> {
    ghost use Rattle.wp_wal.specs.Opening.{IsJudgedLog, ReadWalState};

    ghost Value = { ReadWalState };

    ghost view = { λ w. record { log = w.log; outline = w.outline } };

    ghost invariant = { λ w. IsJudgedLog w.log w.outline w.first };
}

impl<D: Disk> ReadWal<D> {
    /// Syncs the disk, reads the log at `place`, and judges what it spells. Where none was made at place 0, one is to be made with this id.
    /// All memory is taken that its repair needs.
    pub fn read(
        alloc: Global,
        disk: D,
        place: u64,
        id: u32,
    ) -> Result<ReadWal<D>, DiskRefused<D, WalError>>
        ensures read { IfOk result (IsReadWal id place (D.moments disk)) }
        ensures refused { IfErr result (λ refused. IsUnopenedLog place
            (D.moments disk) (D.moments refused.disk) (D.faults disk) (D.faults refused.disk) refused.why) }
        ensures faults { MatchResult result (λ read. read.log.faults ≡ D.faults disk) (λ refused. D.faults disk ≤ D.faults refused.disk) }
    {
        let log = match ReadLog::read(alloc, disk, place, LOG_MAGIC, Format::Two, id) {
            Ok(log) => log,
            Err(DiskRefused { disk, why }) => {
                let why = WalError::from(why);
                return Err(DiskRefused { disk, why });
            }
        };
        let outline = match outline_of(alloc, log.format(), place, log.records()) {
            Ok(outline) => outline,
            Err(why) => {
                let disk = log.into_disk();
                return Err(DiskRefused { disk, why });
            }
        };
        match first_record(alloc, log.format(), log.records().len()) {
            Ok(first) => Ok(ReadWal {
                alloc,
                log,
                outline,
                first,
            }),
            Err(_refused) => {
                let why = WalError::Memory;
                let disk = log.into_disk();
                Err(DiskRefused { disk, why })
            }
        }
    }

    /// The id in the log's head, or the one that it is to be made with.
    pub fn id(&self) -> u32
        ensures { result ≡ self.now.log.id }
    {
        self.log.id()
    }

    /// Repairs what a crash left of the log, or makes it where none was made. A log of the second version gets its base record, where it has
    /// none: a fault of that is one of the opening. It takes no memory.
    pub fn repair(self) -> Result<(Wal<D>, Outline), DiskRefused<D, Failed>>
        ensures opened { (asked place : ℕ) (old : List Moment) → IsReadWal asked place old self
            → IfOk result (λ opened. IsOpenedLog asked place old opened.0 (cut_in self.outline)) }
        ensures same { IfOk result (λ opened. (opened.0.id ≡ self.log.id) × (opened.1 ≡ self.outline)) }
        ensures kept { (asked place : ℕ) (old : List Moment) → IsReadWal asked place old self → MatchResult result
            (λ opened. KeepsWal place asked old opened.0.moments self.log.faults opened.0.faults)
            (λ refused. KeepsWal place asked old (D.moments refused.disk) self.log.faults (D.faults refused.disk)) }
        ensures failed { IfErr result (λ refused. Rose self.log.faults (D.faults refused.disk)) }
        ensures unfailed { IfOk result (λ opened. opened.0.faults ≡ self.log.faults) }
    {
        let ReadWal {
            alloc,
            log,
            outline,
            first,
        } = self;
        let place = log.place();
        let mut log = match log.repair() {
            Ok((log, _records)) => log,
            Err(refused) => return Err(refused),
        };
        match begin_log(&mut log, &first) {
            Ok(()) => Ok((Wal::of(alloc, log, place, &outline), outline)),
            Err(why) => {
                let disk = log.into_disk();
                Err(DiskRefused { disk, why })
            }
        }
    }

    /// Gives the disk back, as it was found.
    pub fn into_disk(self) -> D
        ensures moments { D.moments result ≡ self.log.moments }
        ensures faults { D.faults result ≡ self.log.faults }
    {
        let ReadWal {
            log,
            alloc: _alloc,
            outline: _outline,
            first: _first,
        } = self;
        log.into_disk()
    }
}

// Written out, so that no crate above proves anew how all that it holds is let go.
impl<D: Disk + Drop> Drop for ReadWal<D> {
    fn drop(self) {
        let Self {
            alloc: _alloc,
            log: _log,
            outline: _outline,
            first: _first,
        } = self;
    }
}
