ghost use Rattle.std.specs.Prelude.{◌≡◌, None};

use crate::counted::counted;
use std::io::{self, Write};
use std::marker::Model;
use wp_outside::{Failed, Sink};

/// Standard output. A write takes the whole piece, which has left the process when it answers; one that fails may have
/// taken a part.
#[derive(Drop)]
pub struct StdoutSink<P: Print> {
    output: P,
    faults: u64,
}

impl<P: Print> Model for StdoutSink<P> {
    ghost use Rattle.wp_real.specs.Opaque.{Opaque};

    ghost Value = { Opaque };

    ghost view = { λ s. record { faults = s.faults } };
}

impl<P: Print> StdoutSink<P> {
    /// The standard output of this runtime.
    pub fn new(output: P) -> Self
        ensures { result.faults ≡ 0 }
    {
        StdoutSink { output, faults: 0 }
    }
}

fn write_through<P: Print>(output: &P, bytes: &[u8]) -> io::Result<()> {
    let mut writer = io::writer(output);
    writer.write_all(bytes)?;
    writer.flush()
}

impl<P: Print> Sink for StdoutSink<P> {
    ghost contents = { λ _. None };

    ghost faults = { λ s. s.faults };

    fn write(&mut self, piece: &[u8]) -> Result<usize, Failed> {
        let answer = write_through(&self.output, piece);
        counted(&mut self.faults, answer)?;
        Ok(piece.len())
    }
}
