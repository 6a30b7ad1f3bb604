ghost use Rattle.std.specs.Prelude.{◌≡◌, ℕ, ◌+◌, ◌-◌, ◌^◌, ◌≤◌, ◌<◌, true, not, [], ◌∷◌, ◌++◌, List, drop, replicate, min, max, length, vec_capacity, is_err, IsTrue, IfOk, OnOk, OnErr};
ghost use Rattle.wp_memory.specs.Counter.{no_calls, counted};
ghost use Rattle.wp_outside.specs.Disk.{Moment, synced, put, write_end, after_write, after_cut, after_sync, added, IfKnown, IsRead, Looks, Tears, images};
ghost use Rattle.wp_outside.specs.Faults.{HasCause};
ghost use Rattle.wp_memory.specs.Fits.{Fits};
ghost use Rattle.wp_memory.specs.MemDisk.{Wrote, Shortened, Synced, contents, moments_of, is_used_up, refuses, after_call};

use crate::copy::copy_from;
use crate::counter::Counter;
use std::alloc::{AllocError, Global};
use std::marker::Model;
use wp_outside::{Disk, Failed, Peek};

const MOST_ROOM: u64 = 1 << 62;

/// A call that was done: a write with its number of bytes, a cut, a sync.
#[derive(Clone, Copy)]
enum Change {
    Write(u64, usize),
    Cut(u64),
    Sync,
}

/// A disk in memory that keeps a record of its calls. It fails at exactly the listed calls, where its room is used up
/// and where it has answered its calls; a call that failed has changed nothing.
#[derive(Drop)]
pub struct MemDisk {
    start: Vec<u8>,
    bytes: Vec<u8>,
    written: Vec<u8>,
    past: Vec<Change>,
    room: u64,
    most: u64,
    counter: Counter,
}

impl Model for MemDisk {
    ghost use Rattle.wp_memory.specs.MemDisk.{DiskState};

    ghost Value = { DiskState };

    ghost use Rattle.wp_memory.specs.Replay.{disk_state, IsReplayed};

    ghost view = { disk_state };

    ghost invariant = { IsReplayed };
}

impl MemDisk {
    /// A disk with these bytes, all of them synced, which takes all its memory here. `room` bounds its length and the
    /// number of bytes that are written to it in all; more than 2^62 counts as 2^62. `calls` is the number of calls
    /// that it answers, and `fails` lists those that are to fail, counted from 1.
    pub fn new(
        alloc: Global,
        bytes: Vec<u8>,
        room: u64,
        calls: u64,
        fails: Vec<u64>,
    ) -> Result<MemDisk, AllocError>
        ensures state { IfOk result (λ d. d ≡ record { start = bytes.items; effects = []; room = min room (2 ^ 62); most = calls; calls = no_calls fails.items }) }
        ensures synced { IfOk result (λ d. moments_of d ≡ synced bytes.items ∷ []) }
    {
        let room = room.min(MOST_ROOM);
        let mut copy = Vec::with_capacity(alloc, room as usize)?;
        copy.extend_from_slice(&bytes)?;
        Ok(MemDisk {
            start: bytes,
            bytes: copy,
            written: Vec::with_capacity(alloc, room as usize)?,
            past: Vec::with_capacity(alloc, calls as usize)?,
            room,
            most: calls,
            counter: Counter::new(fails),
        })
    }

    /// What a read gives.
    pub fn bytes(&self) -> &[u8]
        ensures { result.now ≡ contents self.now }
    {
        &self.bytes
    }

    /// How many calls there were, up to the greatest `u64`.
    pub(crate) fn made(&self) -> u64
        ensures { result ≡ self.now.calls.made }
    {
        self.counter.made()
    }

    // Whether a call is left, and room for this length and so many more bytes written.
    fn fits(&self, len: u64, more: usize) -> bool
        ensures tests { result ≡ not (is_used_up self.now len more) }
        ensures room { IsTrue result → Fits self.now len more }
    {
        if self.counter.made() >= self.most || len > self.room {
            return false;
        }
        (self.written.len() as u64).saturating_add(more as u64) <= self.room
    }
}

// Where a write ends; a write of no bytes has no end.
fn end_of(at: u64, piece: &[u8]) -> u64
    ensures { result ≡ min (write_end at piece.now) (2 ^ 64 - 1) }
{
    if piece.is_empty() {
        return 0;
    }
    at.saturating_add(piece.len() as u64)
}

// Writes a piece over the bytes from `at` on, where it ends within them.
fn copy_over(bytes: &mut [u8], at: usize, piece: &[u8])
    requires { at + length piece.now ≤ length bytes.old }
    ensures { bytes.new ≡ put at piece.now bytes.old }
{
    bytes[at..at + piece.len()].copy_from_slice(piece);
}

// Fills with zeros up to a place, within the room that they have.
fn fill_up(bytes: &mut Vec<u8>, end: usize)
    requires { end ≤ vec_capacity bytes.old }
    ensures items { bytes.new.items ≡ bytes.old.items ++ replicate (end - length bytes.old.items) 0 }
    ensures capacity { vec_capacity bytes.old ≤ vec_capacity bytes.new }
{
    if bytes.len() < end {
        bytes.resize(end, 0).unwrap();
    }
}

// Does to the bytes what a write does to what is read, within the room that they have.
fn overwrite(bytes: &mut Vec<u8>, at: u64, piece: &[u8])
    requires end { write_end at piece.now ≤ vec_capacity bytes.old }
    ensures reads { (m : Moment) → m.reads ≡ bytes.old.items → (after_write at piece.now m).reads ≡ bytes.new.items }
    ensures capacity { vec_capacity bytes.old ≤ vec_capacity bytes.new }
{
    if piece.is_empty() {
        return;
    }
    let at = at as usize;
    fill_up(bytes, at + piece.len());
    copy_over(bytes, at, piece);
}

// Notes a call that was done, within the room that there is.
fn note(past: &mut Vec<Change>, change: Change)
    requires { length past.old.items < vec_capacity past.old }
    ensures items { past.new.items ≡ past.old.items ++ change ∷ [] }
    ensures capacity { vec_capacity past.old ≤ vec_capacity past.new }
{
    past.push(change).unwrap();
}

// Keeps what a write wrote, within the room that there is.
fn keep(written: &mut Vec<u8>, piece: &[u8])
    requires { length written.old.items + length piece.now ≤ vec_capacity written.old }
    ensures items { written.new.items ≡ written.old.items ++ piece.now }
    ensures capacity { vec_capacity written.old ≤ vec_capacity written.new }
{
    written.extend_from_slice(piece).unwrap();
}

impl Peek for MemDisk {
    ghost moments = { λ d. moments_of d };

    ghost is_alone = { λ _. true };

    ghost faults = { λ d. d.calls.faults };

    fn len(&mut self) -> Result<u64, Failed>
        ensures bounded { IfOk result (λ n. n ≤ 2 ^ 62) }
        ensures length { IfOk result (λ n. IfKnown (moments_of self.new) (λ m. n ≡ length m.reads)) }
        ensures looks { Looks (moments_of self.old) (moments_of self.new) true true }
        ensures cause { HasCause self.old.calls.faults self.new.calls.faults result }
        ensures exact { is_err result ≡ refuses self.old (length (contents self.old)) 0 }
        ensures after { self.new ≡ record self.old { calls = counted result self.old.calls } }
    {
        let len = self.bytes.len() as u64;
        let fits = self.fits(len, 0);
        self.counter.admit(fits)?;
        Ok(len)
    }

    fn read_at(&mut self, at: u64, buf: &mut [u8]) -> Result<usize, Failed>
        requires { at + length buf.old ≤ 2 ^ 63 - 1 }
        ensures count { IfOk result (λ n. n ≤ length buf.new) }
        ensures bytes { IfOk result (λ n. IfKnown (moments_of self.new) (λ m. IsRead m.reads at buf.new n)) }
        ensures looks { Looks (moments_of self.old) (moments_of self.new) true true }
        ensures cause { HasCause self.old.calls.faults self.new.calls.faults result }
        ensures rest { IfOk result (λ n. drop n buf.new ≡ drop n buf.old) }
        ensures refused { OnErr result (buf.new ≡ buf.old) }
        ensures exact { is_err result ≡ refuses self.old (length (contents self.old)) 0 }
        ensures after { self.new ≡ record self.old { calls = counted result self.old.calls } }
    {
        let fits = self.fits(self.bytes.len() as u64, 0);
        self.counter.admit(fits)?;
        Ok(copy_from(&self.bytes, at as usize, buf))
    }

    ghost use Rattle.wp_memory.specs.Images.{reads_itself};

    ghost itself = { λ d. reads_itself d };
}

impl Disk for MemDisk {
    fn write_at(&mut self, at: u64, bytes: &[u8]) -> Result<(), Failed>
        ensures bounded { OnOk result (write_end at bytes.now ≤ 2 ^ 62) }
        ensures done { OnOk result (moments_of self.new ≡ added (after_write at bytes.now) (moments_of self.old)) }
        ensures torn { OnErr result (Tears (after_write at bytes.now) (moments_of self.old) (moments_of self.new)) }
        ensures cause { HasCause self.old.calls.faults self.new.calls.faults result }
        ensures exact { is_err result ≡ refuses self.old (max (length (contents self.old)) (write_end at bytes.now)) (length bytes.now) }
        ensures after { self.new ≡ after_call result (Wrote at bytes.now) self.old }
    {
        let len = end_of(at, bytes).max(self.bytes.len() as u64);
        let fits = self.fits(len, bytes.len());
        self.counter.admit(fits)?;
        overwrite(&mut self.bytes, at, bytes);
        keep(&mut self.written, bytes);
        note(&mut self.past, Change::Write(at, bytes.len()));
        Ok(())
    }

    fn cut(&mut self, len: u64) -> Result<(), Failed>
        ensures done { OnOk result (moments_of self.new ≡ added (after_cut len) (moments_of self.old)) }
        ensures torn { OnErr result (Tears (after_cut len) (moments_of self.old) (moments_of self.new)) }
        ensures cause { HasCause self.old.calls.faults self.new.calls.faults result }
        ensures exact { is_err result ≡ refuses self.old (min len (length (contents self.old))) 0 }
        ensures after { self.new ≡ after_call result (Shortened len) self.old }
    {
        let shorter = len.min(self.bytes.len() as u64);
        let fits = self.fits(shorter, 0);
        self.counter.admit(fits)?;
        self.bytes.truncate(shorter as usize);
        note(&mut self.past, Change::Cut(len));
        Ok(())
    }

    fn sync(&mut self) -> Result<(), Failed>
        ensures done { OnOk result (moments_of self.new ≡ added after_sync (moments_of self.old)) }
        ensures durable { OnOk result ((image : List ℕ) → images (moments_of self.new) image → IfKnown (moments_of self.old) (λ m. image ≡ m.reads)) }
        ensures unchanged { OnErr result (moments_of self.new ≡ moments_of self.old) }
        ensures cause { HasCause self.old.calls.faults self.new.calls.faults result }
        ensures exact { is_err result ≡ refuses self.old (length (contents self.old)) 0 }
        ensures after { self.new ≡ after_call result Synced self.old }
    {
        let fits = self.fits(self.bytes.len() as u64, 0);
        self.counter.admit(fits)?;
        note(&mut self.past, Change::Sync);
        Ok(())
    }

    ghost use Rattle.std.specs.Prelude.{refl};

    ghost owned = { λ _. refl };
}
