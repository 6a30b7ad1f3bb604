//! Taking fields from the front of bytes.

ghost use Rattle.std.specs.Prelude.{◌≡◌, ℕ, List, ◌∷◌, ◌++◌, length, take, IfSome};
ghost use Rattle.std.specs.Int.{w16, w32, w64, byte_len, from_be_bytes, to_be_bytes};
ghost use Rattle.wp_fields.specs.Format.{number_width};
ghost use Rattle.wp_fields.specs.Taken.{TakesField};

use crate::format::Format;
use byteorder::{BigEndian, ByteOrder};
use std::marker::Model;

/// The bytes that are still to be read. Clauses see them as a list.
#[derive(Drop)]
pub struct Fields<'a> {
    rest: &'a [u8],
}

impl<'a> Model for Fields<'a> {
    ghost Value = { List ℕ };

    ghost view = { λ fields. fields.rest.now };
}

impl<'a> Fields<'a> {
    /// All of the bytes are still to be read.
    pub fn of(bytes: &'a [u8]) -> Fields<'a>
        ensures { result ≡ bytes.now }
    {
        Fields { rest: bytes }
    }

    /// How many bytes are left.
    pub fn left(&self) -> usize
        ensures { result ≡ length self.now }
    {
        self.rest.len()
    }

    /// The next `len` bytes.
    pub fn piece(&mut self, len: usize) -> Option<&'a [u8]>
        ensures taken { TakesField len result self.old self.new }
        ensures bytes { IfSome result (λ piece. piece.now ≡ take len self.old) }
        ensures spelling { IfSome result (λ piece. self.old ≡ piece.now ++ self.new) }
    {
        if self.rest.len() < len {
            return None;
        }
        let (piece, rest) = self.rest.split_at(len);
        self.rest = rest;
        Some(piece)
    }

    /// The next byte.
    pub fn u8(&mut self) -> Option<u8>
        ensures taken { TakesField 1 result self.old self.new }
        ensures spelling { IfSome result (λ byte. self.old ≡ byte ∷ self.new) }
    {
        match self.rest {
            [] => None,
            [byte, rest @ ..] => {
                self.rest = rest;
                Some(*byte)
            }
        }
    }

    /// The number in the next two bytes.
    pub fn u16(&mut self) -> Option<u16>
        ensures taken { TakesField 2 result self.old self.new }
        ensures number { IfSome result (λ number. number ≡ from_be_bytes w16 (take 2 self.old)) }
        ensures spelling { IfSome result (λ number. self.old ≡ to_be_bytes w16 number ++ self.new) }
    {
        let field = self.piece(2)?;
        Some(number_u16(field))
    }

    /// The number in the next four bytes.
    pub fn u32(&mut self) -> Option<u32>
        ensures taken { TakesField 4 result self.old self.new }
        ensures number { IfSome result (λ number. number ≡ from_be_bytes w32 (take 4 self.old)) }
        ensures spelling { IfSome result (λ number. self.old ≡ to_be_bytes w32 number ++ self.new) }
    {
        let field = self.piece(4)?;
        Some(number_u32(field))
    }

    /// The number in the next eight bytes.
    pub fn u64(&mut self) -> Option<u64>
        ensures taken { TakesField 8 result self.old self.new }
        ensures number { IfSome result (λ number. number ≡ from_be_bytes w64 (take 8 self.old)) }
        ensures spelling { IfSome result (λ number. self.old ≡ to_be_bytes w64 number ++ self.new) }
    {
        let field = self.piece(8)?;
        Some(number_u64(field))
    }

    /// The number of an entry, in as many bytes as it has in that version of the format.
    pub fn number(&mut self, format: Format) -> Option<u64>
        ensures taken { TakesField (byte_len (number_width format)) result self.old self.new }
        ensures number { IfSome result (λ number. number ≡ from_be_bytes (number_width format) (take (byte_len (number_width format)) self.old)) }
    {
        match format {
            Format::One => Some(u64::from(self.u32()?)),
            Format::Two => self.u64(),
        }
    }
}

/// The number of the two bytes.
fn number_u16(field: &[u8]) -> u16
    requires { length field.now ≡ 2 }
    ensures number { result ≡ from_be_bytes w16 field.now }
    ensures spelling { to_be_bytes w16 result ≡ field.now }
{
    BigEndian::read_u16(field)
}

/// The number of the four bytes.
fn number_u32(field: &[u8]) -> u32
    requires { length field.now ≡ 4 }
    ensures number { result ≡ from_be_bytes w32 field.now }
    ensures spelling { to_be_bytes w32 result ≡ field.now }
{
    BigEndian::read_u32(field)
}

/// The number of the eight bytes.
fn number_u64(field: &[u8]) -> u64
    requires { length field.now ≡ 8 }
    ensures number { result ≡ from_be_bytes w64 field.now }
    ensures spelling { to_be_bytes w64 result ≡ field.now }
{
    BigEndian::read_u64(field)
}
