ghost use Rattle.std.specs.Prelude.{◌≡◌, true, refl, IfOk};
ghost use Rattle.wp_memory.specs.MemDisk.{contents, moments_of};

use crate::mem_disk::MemDisk;
use std::alloc::{AllocError, Global};
use std::marker::Model;
use std::sync::atomic::AtomicU64;
use std::sync::atomic::Ordering::SeqCst;
use wp_outside::{Disk, Failed, Gate, Peek};

/// The client as which the disk comes to its gate; those of a script have lesser numbers.
const CLIENT: usize = 17;

const LINE: usize = 1;

/// A disk in memory that passes a gate before one of its calls, as line 1 of client 17. That line is answered before the call
/// is made. It tells when it was called, by a clock that counts the calls of all disks that share it, and what it read at its
/// last sync.
#[derive(Drop)]
pub struct GateDisk<'a, G> {
    disk: MemDisk,
    call: u64,
    gate: &'a G,
    clock: &'a AtomicU64,
    calls: Vec<u64>,
    synced: Vec<u8>,
}

impl<'a, G> Model for GateDisk<'a, G> {
    ghost use Rattle.wp_memory.specs.MemDisk.{DiskState};

    ghost Value = { DiskState };

    ghost view = { λ d. d.disk };
}

/// Keeps these bytes in place of the others; without memory none.
fn keep(kept: &mut Vec<u8>, bytes: &[u8]) {
    let same = kept.len().min(bytes.len());
    kept.truncate(same);
    kept.copy_from_slice(&bytes[..same]);
    if kept.extend_from_slice(&bytes[same..]).is_err() {
        kept.clear();
    }
}

impl<'a, G> GateDisk<'a, G> {
    /// The gate is passed before the disk's call of this number, from 1 on; with 0 it never is.
    pub fn new(
        disk: MemDisk,
        call: u64,
        gate: &'a G,
        clock: &'a AtomicU64,
        alloc: Global,
    ) -> Result<GateDisk<'a, G>, AllocError>
        ensures { IfOk result (λ d. d ≡ disk) }
    {
        let synced = disk.bytes().to_vec(alloc)?;
        Ok(GateDisk {
            disk,
            call,
            gate,
            clock,
            calls: Vec::new(alloc),
            synced,
        })
    }

    /// What a read gives.
    pub fn bytes(&self) -> &[u8]
        ensures { result.now ≡ contents self.now }
    {
        self.disk.bytes()
    }

    /// What a read gave at the last sync, or else at first; nothing where memory was wanting for it.
    pub fn synced(&self) -> &[u8] {
        &self.synced
    }

    /// The numbers of its calls among those of all disks, from 0 on; without the earlier ones where memory was wanting.
    pub fn calls(&self) -> &[u64] {
        &self.calls
    }
}

impl<'a, G: Gate> GateDisk<'a, G> {
    // Notes the next call, and passes the gate where it is the one.
    fn pass(&mut self)
        ensures { self.new ≡ self.old }
    {
        if self.calls.push(self.clock.fetch_add(1, SeqCst)).is_err() {
            self.calls.clear();
        }
        if self.disk.made().checked_add(1) == Some(self.call) {
            self.gate.pass(CLIENT, LINE);
            self.gate.done(CLIENT, LINE);
        }
    }
}

impl<'a, G: Gate> Peek for GateDisk<'a, G> {
    ghost moments = { λ d. moments_of d };

    ghost is_alone = { λ _. true };

    ghost faults = { λ d. d.calls.faults };

    fn len(&mut self) -> Result<u64, Failed> {
        self.pass();
        self.disk.len()
    }

    fn read_at(&mut self, at: u64, buf: &mut [u8]) -> Result<usize, Failed> {
        self.pass();
        self.disk.read_at(at, buf)
    }

    ghost use Rattle.wp_memory.specs.Images.{reads_itself};

    ghost itself = { λ d. reads_itself d };
}

impl<'a, G: Gate> Disk for GateDisk<'a, G> {
    fn write_at(&mut self, at: u64, bytes: &[u8]) -> Result<(), Failed> {
        self.pass();
        self.disk.write_at(at, bytes)
    }

    fn cut(&mut self, len: u64) -> Result<(), Failed> {
        self.pass();
        self.disk.cut(len)
    }

    fn sync(&mut self) -> Result<(), Failed> {
        self.pass();
        self.disk.sync()?;
        keep(&mut self.synced, self.disk.bytes());
        Ok(())
    }

    ghost owned = { λ _. refl };
}
