ghost use Rattle.std.specs.Prelude.{◌≡◌, ℕ, ◌+◌, ◌-◌, ◌^◌, ◌≤◌, Bool, true, List, length, IfOk, OnOk, OnErr};
ghost use Rattle.wp_outside.specs.Faults.{HasCause};
ghost use Rattle.wp_outside.specs.Disk.{Moment, IsRead, IfKnown, Looks, added, Tears, write_end, after_write, after_cut, after_sync, images, ReadsItself};

use crate::failed::Failed;
use std::fmt;

/// A device of bytes, each at its place from 0 on, that is read. Others may write to it meanwhile: a call then gives
/// what the device has at that moment.
pub trait Peek {
    /// The device at each moment so far, the newest first; empty where it doesn't show them.
    ghost moments: { Self → List Moment };

    /// Only its holder's calls change it.
    ghost is_alone: { Self → Bool };

    /// How many calls failed, up to the greatest `u64`.
    ghost faults: { Self → ℕ };

    /// The length in bytes. A device that is longer than 2^62 bytes fails.
    fn len(&mut self) -> Result<u64, Failed>
        ensures bounded { IfOk result (λ n. n ≤ 2 ^ 62) }
        ensures length { IfOk result (λ n. IfKnown (moments self.new) (λ m. n ≡ length m.reads)) }
        ensures looks { Looks (moments self.old) (moments self.new) (is_alone self.old) (is_alone self.new) }
        ensures cause { HasCause (faults self.old) (faults self.new) result };

    /// Reads from `at` on into the front of `buf`, and says how many bytes: none past the end. The rest of `buf` may
    /// hold anything afterwards.
    fn read_at(&mut self, at: u64, buf: &mut [u8]) -> Result<usize, Failed>
        requires { at + length buf.old ≤ 2 ^ 63 - 1 }
        ensures count { IfOk result (λ n. n ≤ length buf.new) }
        ensures bytes { IfOk result (λ n. IfKnown (moments self.new) (λ m. IsRead m.reads at buf.new n)) }
        ensures looks { Looks (moments self.old) (moments self.new) (is_alone self.old) (is_alone self.new) }
        ensures cause { HasCause (faults self.old) (faults self.new) result };

    /// As it reads, it is one of its images.
    ghost itself: { (device : Self) → ReadsItself (moments device) };
}

/// A device that is written too, by its holder alone.
///
/// A write or a cut that fails may have been done in part, and a sync that fails has synced nothing.
pub trait Disk: Peek {
    /// Writes over what is from `at` on, and past the end. A write that would end past 2^62 fails.
    fn write_at(&mut self, at: u64, bytes: &[u8]) -> Result<(), Failed>
        ensures bounded { OnOk result (write_end at bytes.now ≤ 2 ^ 62) }
        ensures done { OnOk result (Self.moments self.new ≡ added (after_write at bytes.now) (Self.moments self.old)) }
        ensures torn { OnErr result (Tears (after_write at bytes.now) (Self.moments self.old) (Self.moments self.new)) }
        ensures cause { HasCause (Self.faults self.old) (Self.faults self.new) result };

    /// Cuts to `len` bytes what is longer; a shorter disk stays as it is.
    fn cut(&mut self, len: u64) -> Result<(), Failed>
        ensures done { OnOk result (Self.moments self.new ≡ added (after_cut len) (Self.moments self.old)) }
        ensures torn { OnErr result (Tears (after_cut len) (Self.moments self.old) (Self.moments self.new)) }
        ensures cause { HasCause (Self.faults self.old) (Self.faults self.new) result };

    /// Puts what a read gives on the disk for good: a crash then leaves that and nothing else.
    fn sync(&mut self) -> Result<(), Failed>
        ensures done { OnOk result (Self.moments self.new ≡ added after_sync (Self.moments self.old)) }
        ensures durable { OnOk result ((image : List ℕ) → images (Self.moments self.new) image → IfKnown (Self.moments self.old) (λ m. image ≡ m.reads)) }
        ensures unchanged { OnErr result (Self.moments self.new ≡ Self.moments self.old) }
        ensures cause { HasCause (Self.faults self.old) (Self.faults self.new) result };

    /// Nobody else writes to it.
    ghost owned: { (disk : Self) → Self.is_alone disk ≡ true };
}

/// The length in bytes of a disk, which asking leaves as it was.
pub fn own_len<D: Disk>(disk: &mut D) -> Result<u64, Failed>
    ensures bounded { IfOk result (λ n. n ≤ 2 ^ 62) }
    ensures length { IfOk result (λ n. IfKnown (D.moments disk.old) (λ m. n ≡ length m.reads)) }
    ensures unchanged { D.moments disk.new ≡ D.moments disk.old }
    ensures cause { HasCause (D.faults disk.old) (D.faults disk.new) result }
{
    disk.len()
}

/// The three devices of one store.
#[derive(Drop)]
pub struct Disks<D> {
    pub log: D,
    pub manifest: D,
    pub tables: D,
}

/// Names one of a store's devices.
#[derive(Clone, Copy, PartialEq, Eq)]
pub enum Device {
    Log,
    Manifest,
    Tables,
}

impl fmt::Display for Device {
    fn fmt<W: fmt::Write>(&self, f: &mut fmt::Formatter<W>) -> fmt::Result {
        let name = match self {
            Device::Log => "log",
            Device::Manifest => "manifest",
            Device::Tables => "tables",
        };
        f.write_str(name)
    }
}
