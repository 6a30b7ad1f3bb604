ghost use Rattle.std.specs.Prelude.{◌≡◌};
ghost use Rattle.std.specs.Iterator.{YieldsFirst, item_count};

use crate::snapshot::LiveSnapshot;
use std::collections::btree_map::Keys;
use std::marker::Model;
use wp_model::Seq;

/// The live snapshot numbers, ascending, each once.
#[derive(Drop)]
pub struct Live<'a> {
    numbers: Keys<'a, Seq, LiveSnapshot>,
}

impl<'a> Model for Live<'a> {
    ghost use Rattle.std.specs.Prelude.{ℕ, List};

    ghost Value = { List ℕ };

    ghost view = { λ l. l.numbers };
}

impl<'a> Live<'a> {
    pub(crate) fn new(numbers: Keys<'a, Seq, LiveSnapshot>) -> Live<'a>
        ensures { result ≡ numbers.entry }
    {
        Live { numbers }
    }
}

impl<'a> Iterator for Live<'a> {
    type Item = Seq;

    ghost next_gives = { YieldsFirst (λ l. l) };

    ghost remaining = { item_count (λ l. l) };

    fn next(&mut self) -> Option<Seq> {
        self.numbers.next().copied()
    }
}
