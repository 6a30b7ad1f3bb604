//! The versions of the store's formats.

ghost use Rattle.std.specs.Prelude.{◌≡◌};
ghost use Rattle.wp_fields.specs.Format.{format_byte, format_of};

/// A version of a format. In the first the numbers of entries take four bytes, in the second eight.
#[derive(Clone, Copy)]
pub enum Format {
    One,
    Two,
}

impl Format {
    /// The byte that names it.
    pub fn byte(self) -> u8
        ensures { result ≡ format_byte self }
    {
        match self {
            Format::One => 1,
            Format::Two => 2,
        }
    }

    /// The version that the byte names, if it names one.
    pub fn of(byte: u8) -> Option<Format>
        ensures { result ≡ format_of byte }
    {
        match byte {
            1 => Some(Format::One),
            2 => Some(Format::Two),
            _ => None,
        }
    }
}
