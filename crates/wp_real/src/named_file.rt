ghost use Rattle.std.specs.Prelude.{◌<◌, IsErr};

use crate::file::File;
use std::fs;
use std::io::{self, ErrorKind};
use std::path::Path;
use std::rt::Files;

/// A file by its path, which its first call opens.
#[derive(Drop)]
pub(crate) struct NamedFile<'a, R: Files> {
    files: R,
    path: &'a str,
    open: Option<File>,

    /// A sync has put the name on the disk too.
    is_listed: bool,
}

impl<'a, R: Files> NamedFile<'a, R> {
    pub(crate) fn new(files: R, path: &'a str) -> Self {
        NamedFile {
            files,
            path,
            open: None,
            is_listed: false,
        }
    }
}

impl<R: Files<File = fs::File>> NamedFile<'_, R> {
    /// The file, as long as no call has failed.
    pub(crate) fn usable(&mut self, faults: u64) -> io::Result<&mut File>
        ensures { 0 < faults → IsErr result }
    {
        if faults > 0 {
            return Err(ErrorKind::Other.into());
        }
        let file = match self.open.take() {
            Some(file) => file,
            None => File::open(&self.files, self.path)?,
        };
        Ok(self.open.insert(file))
    }

    /// The first sync also syncs the folder, without which a crash may take a new file away.
    pub(crate) fn sync(&mut self, faults: u64) -> io::Result<()>
        ensures { 0 < faults → IsErr result }
    {
        self.usable(faults)?.sync()?;
        if !self.is_listed {
            fs::open(&self.files, folder_of(self.path))?.sync_all()?;
            self.is_listed = true;
        }
        Ok(())
    }
}

fn folder_of(path: &str) -> Path<'_> {
    match Path::new(path).parent() {
        Some(folder) if !folder.as_str().is_empty() => folder,
        _ => Path::new("."),
    }
}
