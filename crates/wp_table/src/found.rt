ghost use Rattle.std.specs.Prelude.{◌≡◌, ◌+◌, ◌≤◌, false, length};
ghost use Rattle.std.specs.Option.{option_map};
ghost use Rattle.std.specs.Iterator.{YieldsFirstBy, item_count};
ghost use Rattle.wp_table.specs.Borrowed.{seen, with_next, skip_short, front_with};

use crate::all::All;
use crate::steps::Steps;
use crate::version::VersionRef;
use std::marker::Model;
use std::sync::ledger::Ledger;

/// The versions of one key in a table, the newest first.
#[derive(Drop)]
pub struct Found<'a> {
    key: &'a [u8],
    /// The next version in the table, which may have another key.
    next: Option<VersionRef<'a>>,
    rest: All<'a>,
}

impl<'a> Model for Found<'a> {
    ghost use Rattle.std.specs.Prelude.{List};
    ghost use Rattle.std.specs.Option.{option_map};
    ghost use Rattle.wp_model.specs.declared.version.Version.{Version};
    ghost use Rattle.wp_table.specs.Borrowed.{seen, with_next, front_with};

    ghost Value = { List Version };

    ghost view = { λ f. front_with f.key.now (with_next (option_map seen f.next) f.rest) };
}

/// Takes the first of the versions whose key is not below this one, or, where `above` is asked, is above it. Each that it
/// passes over is one step, and the one where it stops is another.
pub(crate) fn first_from<'a, L: Ledger>(
    rest: &mut All<'a>,
    key: &[u8],
    above: bool,
    steps: &mut Steps<L>,
) -> Option<VersionRef<'a>>
    ensures found { with_next (option_map seen result) rest.new ≡ skip_short above key.now rest.old }
    ensures cost { steps.new + length (skip_short above key.now rest.old) ≡ steps.old + length rest.old + 1 }
{
    let mut next = rest.advance();
    while steps.is_short(next, key, above) {
        next = rest.advance();
    }
    next
}

impl<'a> Found<'a> {
    /// Those of the versions, none of which comes behind one with a greater key, that have the key. Each that it passes over
    /// is one step, and the one where it stops is another.
    pub(crate) fn of<L: Ledger>(versions: All<'a>, key: &'a [u8], steps: &mut Steps<L>) -> Found<'a>
        ensures found { result ≡ front_with key.now (skip_short false key.now versions.entry) }
        ensures cost { steps.new + length (skip_short false key.now versions.entry) ≤ steps.old + length versions.entry + 1 }
    {
        let mut rest = versions;
        let next = first_from(&mut rest, key, false, steps);
        Found { key, next, rest }
    }
}

impl<'a> Iterator for Found<'a> {
    type Item = VersionRef<'a>;

    ghost next_gives = { YieldsFirstBy seen (λ f. f) };

    ghost remaining = { item_count (λ f. f) };

    fn next(&mut self) -> Option<VersionRef<'a>> {
        let version = self.next?;
        if version.key != self.key {
            return None;
        }
        self.next = self.rest.advance();
        Some(version)
    }
}
