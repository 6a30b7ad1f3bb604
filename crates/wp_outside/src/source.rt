ghost use Rattle.std.specs.Prelude.{ℕ, ◌<◌, List, length, Option};
ghost use Rattle.wp_outside.specs.Faults.{HasCause};
ghost use Rattle.wp_outside.specs.Source.{Reads};

use crate::failed::Failed;

/// What a read of a source gave: so many bytes at the front of the buffer, or the end.
#[derive(Clone, Copy, PartialEq, Eq)]
pub enum Got {
    Some(usize),
    End,
}

/// Bytes that come from outside, in order.
pub trait Source {
    /// The bytes that reads will give from here on; `None` where it doesn't show them.
    ghost left: { Self → Option (List ℕ) };

    /// How many reads failed, up to the greatest `u64`.
    ghost faults: { Self → ℕ };

    /// Reads some of the next bytes into the front of `buf`.
    fn read(&mut self, buf: &mut [u8]) -> Result<Got, Failed>
        requires { 0 < length buf.old }
        ensures gives { Reads (left self.old) (left self.new) buf.new result }
        ensures cause { HasCause (faults self.old) (faults self.new) result };
}
