ghost use Rattle.std.specs.Prelude.{◌≡◌, ◌-◌, Some, [], min, length, is_err, IfOk};
ghost use Rattle.wp_memory.specs.Counter.{no_calls, counted};
ghost use Rattle.wp_outside.specs.Faults.{HasCause};
ghost use Rattle.wp_memory.specs.MemSink.{refuses_write};
ghost use Rattle.wp_outside.specs.Sink.{Writes};

use crate::counter::Counter;
use std::alloc::{AllocError, Global};
use std::marker::Model;
use wp_outside::{Failed, Sink};

/// Bytes in memory, written one after the other. It fails at exactly the listed calls and where its room is used up.
#[derive(Drop)]
pub struct MemSink {
    bytes: Vec<u8>,
    room: usize,
    counter: Counter,
}

impl Model for MemSink {
    ghost use Rattle.std.specs.Prelude.{◌≤◌, vec_capacity};
    ghost use Rattle.wp_memory.specs.MemSink.{SinkState};

    ghost Value = { SinkState };

    ghost view = { λ s. record { contents = s.bytes.items; room = s.room; calls = s.counter } };

    ghost invariant = { λ s. s.room ≤ vec_capacity s.bytes };
}

impl MemSink {
    /// An empty sink for `room` bytes, which takes all its memory here. `fails` lists the calls that are to fail,
    /// counted from 1.
    pub fn new(alloc: Global, room: u64, fails: Vec<u64>) -> Result<MemSink, AllocError>
        ensures contents { IfOk result (λ s. s.contents ≡ []) }
        ensures room { IfOk result (λ s. s.room ≡ room) }
        ensures calls { IfOk result (λ s. s.calls ≡ no_calls fails.items) }
    {
        let room = room as usize;
        Ok(MemSink {
            bytes: Vec::with_capacity(alloc, room)?,
            room,
            counter: Counter::new(fails),
        })
    }

    /// The bytes that it has taken.
    pub fn bytes(&self) -> &[u8]
        ensures { result.now ≡ self.now.contents }
    {
        &self.bytes
    }
}

impl Sink for MemSink {
    ghost contents = { λ s. Some s.contents };

    ghost faults = { λ s. s.calls.faults };

    /// Takes as many bytes as still fit in the room.
    fn write(&mut self, piece: &[u8]) -> Result<usize, Failed>
        ensures takes { Writes (Some self.old.contents) (Some self.new.contents) piece.now result }
        ensures cause { HasCause self.old.calls.faults self.new.calls.faults result }
        ensures exact { is_err result ≡ refuses_write self.old piece.now }
        ensures count { IfOk result (λ n. n ≡ min (length piece.now) (self.old.room - length self.old.contents)) }
        ensures room { self.new.room ≡ self.old.room }
        ensures calls { self.new.calls ≡ counted result self.old.calls }
    {
        let count = piece.len().min(self.room.saturating_sub(self.bytes.len()));
        self.counter.admit(piece.is_empty() || count > 0)?;
        self.bytes.extend_from_slice(&piece[..count]).unwrap();
        Ok(count)
    }
}
