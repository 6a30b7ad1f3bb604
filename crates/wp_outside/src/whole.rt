ghost use Rattle.std.specs.Prelude.{◌≡◌, ◌≤◌, IfOk, OnOk, OnErr, IsErrOf};
ghost use Rattle.std.specs.Io.KnownBytes.{Appends};
ghost use Rattle.wp_outside.specs.Faults.{Rose, HasCause};
ghost use Rattle.wp_outside.specs.Sink.{AppendsPrefix};
ghost use Rattle.wp_outside.specs.Whole.{AreBytesRead};
ghost use Rattle.wp_outside.specs.declared.whole.ReadError.TheVariants.{Memory};

use crate::{Failed, Got, Sink, Source};
use std::alloc::{AllocError, Global};

/// How many bytes are asked for at once.
const PIECE: usize = 4096;

/// Why a source could not be read to its end.
#[derive(Drop)]
pub enum ReadError {
    /// Out of memory.
    Memory,
    /// The source failed.
    Fault,
}

impl From<AllocError> for ReadError {
    ghost from_gives = { λ _ e. e ≡ Memory };

    fn from(_e: AllocError) -> ReadError {
        ReadError::Memory
    }
}

/// All that the source has left, or of more the first `most` bytes.
pub fn read_all<S: Source>(alloc: Global, source: &mut S, most: usize) -> Result<Vec<u8>, ReadError>
    ensures taken { IfOk result (λ v. AreBytesRead most (S.left source.old) (S.left source.new) v.items) }
    ensures fault { IsErrOf result ReadError.Fault → Rose (S.faults source.old) (S.faults source.new) }
    ensures later { S.faults source.old ≤ S.faults source.new }
    ensures unfailed { OnOk result (S.faults source.new ≡ S.faults source.old) }
{
    let mut bytes = Vec::new(alloc);
    let mut piece = [0u8; PIECE];
    while bytes.len() < most {
        let want = (most - bytes.len()).min(PIECE);
        match source.read(&mut piece[..want]) {
            Ok(Got::Some(n)) => bytes.extend_from_slice(&piece[..n])?,
            Ok(Got::End) => return Ok(bytes),
            Err(Failed) => return Err(ReadError::Fault),
        }
    }
    Ok(bytes)
}

/// Writes the whole text. A failure has written a prefix of it.
pub fn write_all<K: Sink>(sink: &mut K, text: &[u8]) -> Result<(), Failed>
    ensures ok { OnOk result (Appends (K.contents sink.old) (K.contents sink.new) text.now) }
    ensures err { OnErr result (AppendsPrefix (K.contents sink.old) (K.contents sink.new) text.now) }
    ensures cause { HasCause (K.faults sink.old) (K.faults sink.new) result }
{
    let mut rest = text;
    while !rest.is_empty() {
        match sink.write(rest) {
            Ok(n) => rest = &rest[n..],
            Err(Failed) => return Err(Failed),
        }
    }
    Ok(())
}
