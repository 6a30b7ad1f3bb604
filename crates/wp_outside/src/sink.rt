ghost use Rattle.std.specs.Prelude.{ℕ, List, Option};
ghost use Rattle.wp_outside.specs.Faults.{HasCause};
ghost use Rattle.wp_outside.specs.Sink.{Writes};

use crate::failed::Failed;

/// Takes bytes to the outside, in order.
pub trait Sink {
    /// The bytes that it has taken; `None` where it doesn't show them.
    ghost contents: { Self → Option (List ℕ) };

    /// How many writes failed, up to the greatest `u64`.
    ghost faults: { Self → ℕ };

    /// Takes some bytes from the front of `piece`, and says how many.
    fn write(&mut self, piece: &[u8]) -> Result<usize, Failed>
        ensures takes { Writes (contents self.old) (contents self.new) piece.now result }
        ensures cause { HasCause (faults self.old) (faults self.new) result };
}
