ghost use mathlib.Core.List.{IsPrefix};
ghost use Rattle.std.specs.Prelude.{◌≡◌, IfOk};
ghost use Rattle.wp_status.specs.Status.{code_of, own_text, IsLine, IsStatusOf};

use std::alloc::{AllocError, Global};
use std::fmt::Display;
use wp_outside::{Device, Disks};
use wp_refused::{Bad, OpenError};
use wp_text::Fault;

/// How a call of the program ended.
#[derive(Drop)]
pub enum Status {
    /// The whole text was written.
    Ok,
    /// The command line is none that the program takes. Nothing was read, written or opened.
    Words,
    /// Out of memory. Nothing was written. The log has every entry whose append was acknowledged. A client in whose
    /// session memory was wanting was broken off, and the others ran on.
    Memory,
    /// The script could not be read. Nothing was written or opened.
    SourceFault,
    /// The text could not be written whole. A prefix of it was written.
    SinkFault,
    /// The bytes read are no script; this is the first fault. Nothing was written or opened.
    Script(Fault),
    /// The log's device failed in the run, and the text says at which command. The whole text was written.
    LogFault,
    /// The manifest's device or the tables' failed in the run, and the log's did not. The text says at which command. The
    /// whole text was written.
    TableFault,
    /// What is on the devices is outside the formats. Nothing was written.
    Contents(Bad),
    /// The device failed while the store was opened. Nothing was written, and no entry was added.
    OpenFault(Device),
    /// That device of a copy's target failed. Nothing was written to the sink, and the target has no copy.
    CopyFault(Device),
    /// That device of a copy's target is not empty: the first one in the order log, manifest, tables. The target is as it was, and nothing
    /// was written.
    CopyHeld(Device),
}

/// How a call ended, and the store's devices that it was handed.
#[derive(Drop)]
pub struct Ended<D> {
    pub status: Status,
    pub disks: Disks<D>,
}

impl From<OpenError> for Status {
    ghost from_gives = { IsStatusOf };

    fn from(why: OpenError) -> Status {
        match why {
            OpenError::Memory => Status::Memory,
            OpenError::OpenFault(device) => Status::OpenFault(device),
            OpenError::Contents(bad) => Status::Contents(bad),
        }
    }
}

/// The bytes of the text.
fn bytes_of(alloc: Global, text: &str) -> Result<Vec<u8>, AllocError>
    ensures { IfOk result (λ line. line.items ≡ text.now) }
{
    Ok(text.to_string(alloc)?.into_bytes())
}

/// The text, and behind it that of a fault.
fn naming<F: Display>(alloc: Global, text: &str, fault: &F) -> Result<Vec<u8>, AllocError>
    ensures { IfOk result (λ line. IsPrefix text.now line.items) }
{
    let mut line = text.to_string(alloc)?;
    line.push_str(&fault.to_string(alloc)?)?;
    Ok(line.into_bytes())
}

impl Status {
    /// The exit status of the program: 0 for `Ok`, else 2 to 12.
    pub fn code(&self) -> u8
        ensures { result ≡ code_of self.now }
    {
        match self {
            Status::Ok => 0,
            Status::Words => 2,
            Status::Memory => 3,
            Status::SourceFault => 4,
            Status::SinkFault => 5,
            Status::Script(_) => 6,
            Status::LogFault => 7,
            Status::TableFault => 8,
            Status::Contents(_) => 9,
            Status::OpenFault(_) => 10,
            Status::CopyFault(_) => 11,
            Status::CopyHeld(_) => 12,
        }
    }

    /// What its line begins with.
    fn own_text(&self) -> &'static str
        ensures { result.now ≡ own_text self.now }
    {
        match self {
            Status::Ok => "wp: ok",
            Status::Words => "wp: words not accepted",
            Status::Memory => "wp: out of memory",
            Status::SourceFault => "wp: script could not be read",
            Status::SinkFault => "wp: output could not be written",
            Status::Script(_) => "wp: ",
            Status::LogFault => "wp: log fault",
            Status::TableFault => "wp: table fault",
            Status::Contents(_) => "wp: contents: ",
            Status::OpenFault(_) => "wp: opening failed: ",
            Status::CopyFault(_) => "wp: copy failed: ",
            Status::CopyHeld(_) => "wp: copy not empty: ",
        }
    }

    /// The line, without its end, that names a status other than `Ok` on standard error. That of `Ok` is never shown.
    pub fn line(&self, alloc: Global) -> Result<Vec<u8>, AllocError>
        ensures { IfOk result (λ line. IsLine self.now line.items) }
    {
        let text = self.own_text();
        match self {
            Status::Script(fault) => naming(alloc, text, fault),
            Status::Contents(bad) => naming(alloc, text, bad),
            Status::OpenFault(device) | Status::CopyFault(device) | Status::CopyHeld(device) => {
                naming(alloc, text, device)
            }
            _ => bytes_of(alloc, text),
        }
    }
}
