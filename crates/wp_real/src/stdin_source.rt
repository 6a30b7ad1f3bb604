ghost use Rattle.std.specs.Prelude.{◌≡◌};

use crate::counted::counted;
use crate::read::read_some;
use std::io::Input;
use std::marker::Model;
use wp_outside::{Failed, Got, Source};

/// Standard input.
#[derive(Drop)]
pub struct StdinSource<I: Input> {
    reader: I::Reader,
    faults: u64,
}

impl<I: Input> Model for StdinSource<I> {
    ghost use Rattle.wp_real.specs.Stdin.{StdinState};

    ghost Value = { StdinState };

    ghost view = { λ s. record { left = I.Reader.Read.remaining s.reader; faults = s.faults } };
}

impl<I: Input> StdinSource<I> {
    /// The standard input of this runtime; nothing is read yet.
    pub fn new(input: &I) -> Self
        ensures { result.faults ≡ 0 }
    {
        StdinSource {
            reader: input.reader(),
            faults: 0,
        }
    }
}

impl<I: Input> Source for StdinSource<I> {
    ghost left = { λ s. s.left };

    ghost faults = { λ s. s.faults };

    fn read(&mut self, buf: &mut [u8]) -> Result<Got, Failed> {
        let answer = read_some(&mut self.reader, buf);
        match counted(&mut self.faults, answer)? {
            0 => Ok(Got::End),
            count => Ok(Got::Some(count)),
        }
    }
}
