//! Bytes that were read and aren't used yet.

ghost use Rattle.std.specs.Prelude.{◌≡◌, ◌≤◌, length, take, drop};

use std::marker::Model;

/// What a device had at its last call, from some place on. Clauses see the bytes that aren't used yet.
#[derive(Drop)]
pub(crate) struct Piece {
    bytes: Vec<u8>,
    from: usize,
}

impl Model for Piece {
    ghost use Rattle.std.specs.Prelude.{ℕ, ◌≤◌, List, length, drop};

    ghost Value = { List ℕ };

    ghost view = { λ p. drop p.from p.bytes.items };

    ghost invariant = { λ p. p.from ≤ length p.bytes.items };
}

impl Piece {
    pub(crate) fn of(bytes: Vec<u8>) -> Piece
        ensures { result ≡ bytes.items }
    {
        Piece { bytes, from: 0 }
    }

    pub(crate) fn rest(&self) -> &[u8]
        ensures { result.now ≡ self.now }
    {
        &self.bytes[self.from..]
    }

    /// Uses so many bytes, and keeps `reach` of those behind them.
    pub(crate) fn pass(&mut self, len: usize, reach: usize)
        requires { len ≤ length self.old }
        ensures { self.new ≡ take reach (drop len self.old) }
    {
        self.from += len;
        self.bytes.truncate(self.from.saturating_add(reach));
    }
}
