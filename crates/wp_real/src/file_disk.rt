ghost use Rattle.std.specs.Prelude.{◌≡◌, true, refl, []};

use crate::counted::counted;
use crate::named_file::NamedFile;
use std::fs;
use std::marker::Model;
use std::rt::Files;
use wp_outside::{Disk, Failed, Peek};

/// A file as a device. Its first call opens it, and makes it where there is none. From then on it is locked: a second device over
/// it, of whichever program, is refused. Who doesn't ask for the lock may not write to it meanwhile.
///
/// A call that fails is the last one that reaches the system, and all later ones fail too. So no sync answers for bytes that an
/// earlier one has lost.
#[derive(Drop)]
pub struct FileDisk<'a, R: Files> {
    file: NamedFile<'a, R>,
    faults: u64,
}

impl<'a, R: Files> Model for FileDisk<'a, R> {
    ghost use Rattle.wp_real.specs.Opaque.{Opaque};

    ghost Value = { Opaque };

    ghost view = { λ d. record { faults = d.faults } };
}

impl<'a, R: Files> FileDisk<'a, R> {
    /// The file at this path, which isn't opened yet.
    pub fn new(files: R, path: &'a str) -> Self
        ensures { result.faults ≡ 0 }
    {
        FileDisk {
            file: NamedFile::new(files, path),
            faults: 0,
        }
    }
}

impl<R: Files<File = fs::File>> Peek for FileDisk<'_, R> {
    ghost moments = { λ _. [] };

    ghost is_alone = { λ _. true };

    ghost faults = { λ d. d.faults };

    fn len(&mut self) -> Result<u64, Failed> {
        let answer = self.file.usable(self.faults).and_then(|file| file.len());
        counted(&mut self.faults, answer)
    }

    fn read_at(&mut self, at: u64, buf: &mut [u8]) -> Result<usize, Failed> {
        let answer = self
            .file
            .usable(self.faults)
            .and_then(|file| file.read_at(at, buf));
        counted(&mut self.faults, answer)
    }

    ghost itself = { λ _. tt };
}

impl<R: Files<File = fs::File>> Disk for FileDisk<'_, R> {
    fn write_at(&mut self, at: u64, bytes: &[u8]) -> Result<(), Failed> {
        let answer = self
            .file
            .usable(self.faults)
            .and_then(|file| file.write_at(at, bytes));
        counted(&mut self.faults, answer)
    }

    fn cut(&mut self, len: u64) -> Result<(), Failed> {
        let answer = self.file.usable(self.faults).and_then(|file| file.cut(len));
        counted(&mut self.faults, answer)
    }

    fn sync(&mut self) -> Result<(), Failed> {
        let answer = self.file.sync(self.faults);
        counted(&mut self.faults, answer)
    }

    ghost owned = { λ _. refl };
}
