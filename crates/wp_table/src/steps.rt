ghost use Rattle.std.specs.Prelude.{◌≡◌, ◌+◌, ◌<◌, []};
ghost use Rattle.std.specs.Option.{option_map};
ghost use Rattle.wp_table.specs.Borrowed.{seen, with_next, begins_short};

use crate::version::VersionRef;
use std::marker::Model;
use std::sync::ledger::{Blank, Book, Ledger, Share};

/// How many steps a look-up took, each a comparison of a key in a table with the one that is looked for. It takes no bytes,
/// and nothing is done for it when the program runs.
#[derive(Drop)]
pub struct Steps<L: Ledger> {
    book: Book<L>,
    share: Share<L>,
}

impl<L: Ledger> Model for Steps<L> {
    ghost use Rattle.std.specs.Prelude.{ℕ, ◌<◌};

    ghost Value = { ℕ };

    ghost view = { λ s. s.book.total };

    ghost invariant = { λ s. 0 < s.share.parts };
}

impl<L: Ledger> Steps<L> {
    /// None was taken yet.
    pub fn new(blank: Blank) -> Steps<L>
        requires name { blank.name ≡ L.name }
        requires parts { blank.parts ≡ L.parts }
        requires some { 0 < blank.parts }
        ensures { result ≡ 0 }
    {
        let (book, share) = blank.open::<L>();
        Steps { book, share }
    }

    /// Whether there is a version, and its key is below this one, or, where what is above it is looked for, not above it. That is
    /// one step.
    pub(crate) fn is_short(
        &mut self,
        version: Option<VersionRef<'_>>,
        key: &[u8],
        above: bool,
    ) -> bool
        ensures short { result ≡ begins_short above key.now (with_next (option_map seen version.entry) []) }
        ensures step { self.new ≡ self.old + 1 }
    {
        self.book.add(&mut self.share, 1);
        let Some(version) = version else {
            return false;
        };
        let order = version.key.cmp(key);
        if above { order.is_le() } else { order.is_lt() }
    }
}
