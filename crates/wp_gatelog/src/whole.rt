//! The bytes of a whole log, put together in memory.

ghost use Rattle.std.specs.Prelude.{◌≡◌, ◌++◌, ◌∷◌, [], ℕ, List, drop, IfOk};
ghost use Rattle.wp_gatelog.specs.Beside.{IsWholeLog};
ghost use Rattle.wp_gatelog.specs.Spelling.{Stamp, stamped};

use crate::frame::Frame;
use crate::gate::OPEN;
use crate::head::head_bytes;
use std::alloc::{AllocError, Global};
use std::marker::Model;
use wp_fields::{Format, push_piece, push_u8};

/// A whole log in memory, which may be written beside the one in use: a head, records behind open gates, and the closed
/// gate that ends it. Clauses see its bytes.
#[derive(Drop)]
pub struct WholeLog {
    bytes: Vec<u8>,
}

impl Model for WholeLog {
    ghost use Rattle.std.specs.Prelude.{ℕ, ◌<◌, List, length};

    ghost Value = { List ℕ };

    ghost view = { λ w. w.bytes.items };

    ghost invariant = { λ w. 0 < length w.bytes.items };
}

impl WholeLog {
    /// One of this version without records.
    pub fn new(
        alloc: Global,
        magic: [u8; 4],
        format: Format,
        id: u32,
    ) -> Result<WholeLog, AllocError>
        ensures { IfOk result (IsWholeLog magic (stamped format id) []) }
    {
        let mut bytes = vec![in alloc; OPEN]?;
        push_piece(&mut bytes, &head_bytes(magic, format, id))?;
        Ok(WholeLog { bytes })
    }

    /// The same with the record more whose frame this is.
    pub fn with(self, frame: &Frame) -> Result<WholeLog, AllocError>
        ensures { IfOk result (λ longer. (magic : List ℕ) (stamp : Stamp) (records : List (List ℕ))
            → IsWholeLog magic stamp records self → IsWholeLog magic stamp (records ++ frame.now ∷ []) longer) }
    {
        let WholeLog { mut bytes } = self;
        bytes.truncate(bytes.len() - 1);
        push_u8(&mut bytes, OPEN)?;
        push_piece(&mut bytes, frame.bytes())?;
        Ok(WholeLog { bytes })
    }

    /// What is written.
    pub fn bytes(&self) -> &[u8]
        ensures { result.now ≡ self.now }
    {
        &self.bytes
    }

    /// What follows the gate of the head.
    pub(crate) fn rest(&self) -> &[u8]
        ensures { result.now ≡ drop 1 self.now }
    {
        &self.bytes[1..]
    }
}
