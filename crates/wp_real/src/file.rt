ghost use Rattle.std.specs.Prelude.{◌^◌, ◌≤◌, length, IfOk, OnOk};
ghost use Rattle.wp_outside.specs.Disk.{write_end};

use std::fs::{self, OpenOptions};
use std::io::{self, ErrorKind, Seek, SeekFrom};
use std::os::fd::AsRawFd;
use std::os::unix::fs::FileExt;
use std::rt::Files;

/// The greatest length of a device in bytes.
const MOST: u64 = 1 << 62;

/// The numbers of the standard streams end here.
const LAST_STREAM: i32 = 2;

/// A file that is open and locked.
#[derive(Drop)]
pub(crate) struct File {
    file: fs::File,
    len: u64,

    /// The length may be another than at the last sync.
    is_resized: bool,
}

impl File {
    /// Opens the file for reads and writes, and locks it. It is made where there is none, and keeps what it has. One that is
    /// locked already is refused.
    pub(crate) fn open<R: Files<File = fs::File>>(files: &R, path: &str) -> io::Result<File> {
        let mut file = OpenOptions::new()
            .read(true)
            .write(true)
            .create(true)
            .open(files, path)?;
        // Where a standard stream was closed its number is free, and what is meant for the stream must not get into the file.
        if file.as_raw_fd() <= LAST_STREAM {
            file = file.try_clone()?;
        }
        file.try_lock()?;
        let len = file.seek(SeekFrom::End(0))?;
        Ok(File {
            file,
            len,
            is_resized: true,
        })
    }

    pub(crate) fn len(&self) -> io::Result<u64>
        ensures { IfOk result (λ n. n ≤ 2 ^ 62) }
    {
        if self.len > MOST {
            return Err(ErrorKind::FileTooLarge.into());
        }
        Ok(self.len)
    }

    /// Past the end there is nothing to read, also at a place that the system takes for none.
    pub(crate) fn read_at(&self, at: u64, buf: &mut [u8]) -> io::Result<usize>
        ensures { IfOk result (λ n. n ≤ length buf.new) }
    {
        let left = self.len.saturating_sub(at);
        let count = left.min(buf.len() as u64) as usize;
        self.file.read_exact_at(&mut buf[..count], at)?;
        Ok(count)
    }

    /// The system fills a gap before `at` with zeros.
    pub(crate) fn write_at(&mut self, at: u64, bytes: &[u8]) -> io::Result<()>
        ensures { OnOk result (write_end at bytes.now ≤ 2 ^ 62) }
    {
        if bytes.is_empty() {
            return Ok(());
        }
        let end = at.saturating_add(bytes.len() as u64);
        if end > MOST {
            return Err(ErrorKind::FileTooLarge.into());
        }
        self.file.write_all_at(bytes, at)?;
        if end > self.len {
            self.has_len(end);
        }
        Ok(())
    }

    pub(crate) fn cut(&mut self, len: u64) -> io::Result<()> {
        if self.len > len {
            self.file.set_len(len)?;
            self.has_len(len);
        }
        Ok(())
    }

    fn has_len(&mut self, len: u64) {
        self.len = len;
        self.is_resized = true;
    }

    pub(crate) fn sync(&mut self) -> io::Result<()> {
        if !self.is_resized {
            return self.file.sync_data();
        }
        self.file.sync_all()?;
        self.is_resized = false;
        Ok(())
    }
}
