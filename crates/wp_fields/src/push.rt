//! Putting fields at the end of a buffer.

ghost use Rattle.std.specs.Prelude.{◌≡◌, ◌+◌, ◌<◌, ◌∷◌, [], ◌++◌, length, OnOk, OnErr};
ghost use Rattle.std.specs.Vec.{vec_len, vec_capacity};
ghost use Rattle.std.specs.Int.{w16, w32, w64, byte_len, to_be_bytes};
ghost use Rattle.wp_fields.specs.Format.{number_width, number_end};

use crate::format::Format;
use byteorder::{BigEndian, ByteOrder};
use std::alloc::AllocError;

/// Puts the bytes at the end.
pub fn push_piece(out: &mut Vec<u8>, piece: &[u8]) -> Result<(), AllocError>
    ensures pushed { OnOk result (out.new.items ≡ out.old.items ++ piece.now) }
    ensures unchanged { OnErr result (out.new.items ≡ out.old.items) }
    ensures without_room { OnErr result (vec_capacity out.old < vec_len out.old + length piece.now) }
{
    out.extend_from_slice(piece)
}

/// Puts the byte at the end.
pub fn push_u8(out: &mut Vec<u8>, byte: u8) -> Result<(), AllocError>
    ensures pushed { OnOk result (out.new.items ≡ out.old.items ++ byte ∷ []) }
    ensures unchanged { OnErr result (out.new.items ≡ out.old.items) }
    ensures without_room { OnErr result (vec_capacity out.old < vec_len out.old + 1) }
{
    push_piece(out, &[byte])
}

/// Puts the number's two bytes at the end.
pub fn push_u16(out: &mut Vec<u8>, number: u16) -> Result<(), AllocError>
    ensures pushed { OnOk result (out.new.items ≡ out.old.items ++ to_be_bytes w16 number) }
    ensures unchanged { OnErr result (out.new.items ≡ out.old.items) }
    ensures without_room { OnErr result (vec_capacity out.old < vec_len out.old + 2) }
{
    let mut field = [0; 2];
    BigEndian::write_u16(&mut field, number);
    push_piece(out, &field)
}

/// Puts the number's four bytes at the end.
pub fn push_u32(out: &mut Vec<u8>, number: u32) -> Result<(), AllocError>
    ensures pushed { OnOk result (out.new.items ≡ out.old.items ++ to_be_bytes w32 number) }
    ensures unchanged { OnErr result (out.new.items ≡ out.old.items) }
    ensures without_room { OnErr result (vec_capacity out.old < vec_len out.old + 4) }
{
    let mut field = [0; 4];
    BigEndian::write_u32(&mut field, number);
    push_piece(out, &field)
}

/// Puts the number's eight bytes at the end.
pub fn push_u64(out: &mut Vec<u8>, number: u64) -> Result<(), AllocError>
    ensures pushed { OnOk result (out.new.items ≡ out.old.items ++ to_be_bytes w64 number) }
    ensures unchanged { OnErr result (out.new.items ≡ out.old.items) }
    ensures without_room { OnErr result (vec_capacity out.old < vec_len out.old + 8) }
{
    let mut field = [0; 8];
    BigEndian::write_u64(&mut field, number);
    push_piece(out, &field)
}

/// Puts the number of an entry at the end, in as many bytes as it has in that version of the format.
pub fn push_number(out: &mut Vec<u8>, format: Format, number: u64) -> Result<(), AllocError>
    requires { number < number_end format }
    ensures pushed { OnOk result (out.new.items ≡ out.old.items ++ to_be_bytes (number_width format) number) }
    ensures unchanged { OnErr result (out.new.items ≡ out.old.items) }
    ensures without_room { OnErr result (vec_capacity out.old < vec_len out.old + byte_len (number_width format)) }
{
    match format {
        Format::One => push_u32(out, number as u32),
        Format::Two => push_u64(out, number),
    }
}
