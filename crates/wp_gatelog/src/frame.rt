//! What is written for a new record.

ghost use Rattle.std.specs.Prelude.{◌≡◌, ◌+◌, ◌≤◌, ◌++◌, List, length, take, drop, IfOk};
ghost use Rattle.std.specs.Int.{w64, to_be_bytes};
ghost use Rattle.wp_gatelog.specs.Spelling.{frame_of};

use crate::gate::CLOSED;
use std::alloc::{AllocError, Global};
use std::marker::Model;
use wp_fields::{push_u8, push_u64};

/// How many bytes a number takes, as a record's length does.
const U64_LEN: usize = 8;

/// What an append writes for a record: its length, its bytes, and the next record's gate, closed. Clauses see the record's
/// bytes.
#[derive(Drop)]
pub struct Frame {
    bytes: Vec<u8>,
}

impl Model for Frame {
    ghost use Rattle.std.specs.Prelude.{◌≡◌, ℕ, List};
    ghost use Rattle.wp_gatelog.specs.Spelling.{frame_of, framed_in};

    ghost Value = { List ℕ };

    ghost view = { λ f. framed_in f.bytes.items };

    ghost invariant = { λ f. f.bytes.items ≡ frame_of (framed_in f.bytes.items) };
}

/// Writes a number over eight bytes, from `at` on.
fn write_u64(bytes: &mut [u8], at: usize, value: u64)
    requires { at + 8 ≤ length bytes.old }
    ensures { bytes.new ≡ take at bytes.old ++ (to_be_bytes w64 value ++ drop (at + 8) bytes.old) }
{
    bytes[at..at + U64_LEN].copy_from_slice(&value.to_be_bytes());
}

impl Frame {
    /// Room for a record's length. The record's bytes are to be put after it.
    pub fn room(alloc: Global) -> Result<Vec<u8>, AllocError>
        ensures { IfOk result (λ room. length room.items ≡ 8) }
    {
        let mut room = Vec::new(alloc);
        push_u64(&mut room, 0)?;
        Ok(room)
    }

    /// The frame of the record whose bytes come after the room for its length.
    pub fn of(room: Vec<u8>) -> Result<Frame, AllocError>
        requires { 8 ≤ length room.items }
        ensures { IfOk result (λ frame. frame ≡ drop 8 room.items) }
    {
        let mut bytes = room;
        let len = (bytes.len() - U64_LEN) as u64;
        write_u64(&mut bytes, 0, len);
        push_u8(&mut bytes, CLOSED)?;
        Ok(Frame { bytes })
    }

    /// Writes a number over eight of the record's bytes, from `at` on.
    pub fn put_u64(&mut self, at: usize, value: u64)
        requires { at + 8 ≤ length self.old }
        ensures { self.new ≡ take at self.old ++ (to_be_bytes w64 value ++ drop (at + 8) self.old) }
    {
        write_u64(&mut self.bytes, U64_LEN + at, value);
    }

    /// What is written.
    pub(crate) fn bytes(&self) -> &[u8]
        ensures { result.now ≡ frame_of self.now }
    {
        &self.bytes
    }

    /// How many bytes are written.
    pub(crate) fn len(&self) -> u64
        ensures { result ≡ length self.now + 9 }
    {
        self.bytes.len() as u64
    }
}
