//! The head of a log: its gate, magic, version and id, and the gate after it.

ghost use Rattle.std.specs.Prelude.{◌≡◌, ◌≢◌, ◌⊎◌, ℕ, ◌<◌, ◌≤◌, ◌^◌, ◌∷◌, [], ◌++◌, List, length, take, drop, slice_index, IfSome, IfNone, IfOk, MatchOption};
ghost use Rattle.wp_fields.specs.Format.{format_byte};
ghost use Rattle.wp_outside.specs.Disk.{IfKnown, Looks};
ghost use Rattle.wp_outside.specs.Faults.{HasCause};
ghost use Rattle.wp_gatelog.specs.Damage.{IsNoVersion};
ghost use Rattle.wp_gatelog.specs.Heads.{IsHead, IsReadUpTo};
ghost use Rattle.wp_gatelog.specs.Spelling.{IsUpTo, identity, stamped};

use crate::gate::CLOSED;
use wp_fields::{Fields, Format};
use wp_outside::{Disk, Failed, Peek};

/// How many bytes come before the first record's gate.
pub(crate) const HEAD_LEN: u64 = 10;

/// What is where a log's head should be.
pub(crate) enum Head {
    Unmade,
    Bad,

    /// The head's gate, the version, the id, and the gate of the first record.
    Made {
        gate: u8,
        format: Format,
        id: u32,
        first: u8,
    },
}

/// Reads the head at `place`: its gate first, and where that is open all of it. Versions up to `newest` are read.
pub(crate) fn read_head<P: Peek>(
    disk: &mut P,
    place: u64,
    magic: &[u8],
    newest: Format,
) -> Result<Head, Failed>
    requires magic { length magic.now ≡ 4 }
    requires place { place ≤ 2 ^ 62 }
    ensures found { IfOk result (λ head.
        IfKnown (P.moments disk.new) (λ m. IsHead magic.now newest (drop place m.reads) head)) }
    ensures readable { IfOk result (IsReadUpTo newest) }
    ensures looks { Looks (P.moments disk.old) (P.moments disk.new) (P.is_alone disk.old) (P.is_alone disk.new) }
    ensures cause { HasCause (P.faults disk.old) (P.faults disk.new) result }
{
    let mut gate = [CLOSED];
    let there = disk.read_at(place, &mut gate)?;
    if there == 0 || gate[0] == CLOSED {
        return Ok(Head::Unmade);
    }
    let mut bytes = [0; 11];
    let read = disk.read_at(place, &mut bytes)?;
    Ok(head_of(&bytes[..read], magic, newest))
}

/// Reads the head of a disk's log.
pub(crate) fn own_head<D: Disk>(
    disk: &mut D,
    place: u64,
    magic: &[u8],
    newest: Format,
) -> Result<Head, Failed>
    requires magic { length magic.now ≡ 4 }
    requires place { place ≤ 2 ^ 62 }
    ensures found { IfOk result (λ head.
        IfKnown (D.moments disk.old) (λ m. IsHead magic.now newest (drop place m.reads) head)) }
    ensures readable { IfOk result (IsReadUpTo newest) }
    ensures unchanged { D.moments disk.new ≡ D.moments disk.old }
    ensures cause { HasCause (D.faults disk.old) (D.faults disk.new) result }
{
    read_head(disk, place, magic, newest)
}

/// The head by its first eleven bytes, or by all where there are fewer.
fn head_of(bytes: &[u8], magic: &[u8], newest: Format) -> Head
    requires { length magic.now ≡ 4 }
    ensures found { IsHead magic.now newest bytes.now result }
    ensures readable { IsReadUpTo newest result }
{
    match bytes {
        [] | [_] | [CLOSED, ..] => Head::Unmade,
        [gate, rest @ ..] => match stamp_in(rest, magic, newest) {
            Some((format, id, first)) => Head::Made {
                gate: *gate,
                format,
                id,
                first,
            },
            None => Head::Bad,
        },
    }
}

/// The version and the id after this magic and the gate after them, where they follow the head's gate.
fn stamp_in(bytes: &[u8], magic: &[u8], newest: Format) -> Option<(Format, u32, u8)>
    requires { length magic.now ≡ 4 }
    ensures { MatchOption result
        ((length bytes.now < 10) ⊎ (take 4 bytes.now ≢ magic.now) ⊎ IsNoVersion newest (slice_index bytes.now 4))
        (λ found. IsUpTo newest found.0
        × ((rest : List ℕ) × (bytes.now ≡ identity magic.now (stamped found.0 found.1) ++ found.2 ∷ rest))) }
{
    let mut fields = Fields::of(bytes);
    let found = fields.piece(4)?;
    let version = fields.u8()?;
    let id = fields.u32()?;
    let first = fields.u8()?;
    if found != magic {
        return None;
    }
    let format = version_of(version, newest)?;
    Some((format, id, first))
}

/// The version that the byte names, if it names one up to `newest`.
fn version_of(byte: u8, newest: Format) -> Option<Format>
    ensures found { IfSome result (λ format. IsUpTo newest format × (byte ≡ format_byte format)) }
    ensures none { IfNone result (IsNoVersion newest byte) }
{
    let Some(format) = Format::of(byte) else {
        return None;
    };
    if format.byte() > newest.byte() {
        return None;
    }
    Some(format)
}

/// The bytes after the head's gate: magic, version, id and the closed gate of the first record.
pub(crate) fn head_bytes(magic: [u8; 4], format: Format, id: u32) -> [u8; 10]
    ensures { result ≡ identity magic (stamped format id) ++ 0 ∷ [] }
{
    let [a, b, c, d] = magic;
    let [e, f, g, h] = id.to_be_bytes();
    [a, b, c, d, format.byte(), e, f, g, h, CLOSED]
}
