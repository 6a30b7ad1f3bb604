//! What the next append writes.
ghost use Rattle.std.specs.Prelude.{◌≡◌, IfOk};
ghost use Rattle.wp_entry.specs.Record.{FormRecord, IsRecord};
ghost use Rattle.wp_wal.specs.Wal.{reserved_of};

use std::alloc::{AllocError, Global};
use std::marker::Model;
use wp_entry::push_record;
use wp_fields::Format;
use wp_gatelog::Frame;
use wp_model::{Entry, Seq};

/// The frame of a record, and how many entries the record has. Clauses see the record's bytes and that count.
#[derive(Drop)]
pub(crate) struct Reserved {
    frame: Frame,
    count: u64,
}

impl Model for Reserved {
    ghost use Rattle.wp_wal.specs.Wal.{Reserved};

    ghost Value = { Reserved };

    ghost view = { λ r. record { bytes = r.frame; count = r.count } };
}

impl Reserved {
    /// The record of this version of the entries, where the first of them has the number `due`. Its bytes are written once,
    /// into its frame.
    pub(crate) fn of(
        alloc: Global,
        format: Format,
        due: Seq,
        entries: &[Entry],
    ) -> Result<Reserved, AllocError>
        requires { FormRecord format due entries.now }
        ensures reserved { IfOk result (λ reserved. reserved ≡ reserved_of format due entries.now) }
        ensures record { IfOk result (λ _. IsRecord format due entries.now) }
    {
        let mut room = Frame::room(alloc)?;
        push_record(&mut room, format, due, entries)?;
        Ok(Reserved {
            frame: Frame::of(room)?,
            count: entries.len() as u64,
        })
    }

    /// What is written for the record.
    pub(crate) fn frame(&self) -> &Frame
        ensures { result.now ≡ self.now.bytes }
    {
        &self.frame
    }

    /// How many entries the record has.
    pub(crate) fn count(&self) -> u64
        ensures { result ≡ self.now.count }
    {
        self.count
    }
}
