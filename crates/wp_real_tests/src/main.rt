//! What a real file does as a device, tried on files in the folder that the program is run in; and what a gate says of the lines that
//! it holds back. That a first call makes its file, that a log is written and read, and the standard streams are shown by a run of the
//! program `wp` itself.
#![tactic(auto)]

mod gates;

use std::fs::{self, File};
use std::process::ExitCode;
use std::rt::Files;
use wp_outside::{Disk, Failed, Peek};
use wp_real::FileDisk;

/// A gap reads as zeros, and the end as nothing.
fn reads<D: Disk>(disk: &mut D) -> Result<bool, Failed> {
    disk.write_at(3, b"abcdef")?;
    let mut front = [7; 4];
    let mut end = [7; 4];
    let mut past = [7; 4];
    let counts = [
        disk.read_at(0, &mut front)?,
        disk.read_at(7, &mut end)?,
        disk.read_at(9, &mut past)?,
        disk.read_at(1 << 62, &mut past)?,
    ];
    Ok(counts == [4, 2, 0, 0] && front == *b"\0\0\0a" && end == *b"ef\x07\x07")
}

/// Only a cut shortens, and only bytes lengthen. It has nine bytes before.
fn keeps_its_length<D: Disk>(disk: &mut D) -> Result<bool, Failed> {
    disk.write_at(20, b"")?;
    disk.cut(20)?;
    let whole = disk.len()?;
    disk.cut(5)?;
    disk.sync()?;
    Ok(whole == 9 && disk.len()? == 5)
}

/// A second device over the file is refused. It has five bytes before.
fn is_locked<R: Files<File = File>>(files: &R) -> bool {
    let mut first = FileDisk::new(files, "file");
    let found = first.len();
    let mut second = FileDisk::new(files, "file");
    found == Ok(5) && second.sync() == Err(Failed) && first.sync() == Ok(())
}

/// No bytes are past the greatest length. Once a call is refused, so is each later one.
fn stays_refused<R: Files<File = File>>(files: &R) -> bool {
    let mut disk = FileDisk::new(files, "file");
    let refused = disk.write_at(1 << 62, b"a");
    refused == Err(Failed) && disk.sync() == Err(Failed) && disk.len() == Err(Failed)
}

/// So is one of a file that couldn't be opened; a new device over it can.
fn is_opened_anew<R: Files<File = File>>(files: &R) -> bool {
    let mut disk = FileDisk::new(files, "folder/file");
    let refused = disk.len();
    let made = fs::create_dir(files, "folder").is_ok();
    let mut anew = FileDisk::new(files, "folder/file");
    refused == Err(Failed) && made && disk.len() == Err(Failed) && anew.sync() == Ok(())
}

/// What is read of a new file, and how its length changes.
fn works_alone<R: Files<File = File>>(files: &R) -> Result<bool, Failed> {
    let mut disk = FileDisk::new(files, "file");
    Ok(reads(&mut disk)? && keeps_its_length(&mut disk)?)
}

/// The status says which of these is otherwise, or 0.
fn main(rt: HostRuntime) -> ExitCode {
    if works_alone(&rt) != Ok(true) {
        return ExitCode::from(1);
    }
    if !is_locked(&rt) {
        return ExitCode::from(2);
    }
    if !stays_refused(&rt) {
        return ExitCode::from(3);
    }
    if !is_opened_anew(&rt) {
        return ExitCode::from(4);
    }
    ExitCode::from(if gates::tell(rt.alloc()) == Ok(true) {
        0
    } else {
        5
    })
}
