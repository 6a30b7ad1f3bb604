ghost use Rattle.std.specs.Prelude.{◌≡◌, [], ◌∷◌, drop, filter, MatchOption};
ghost use Rattle.std.specs.Option.{option_copied, option_map_or};
ghost use Rattle.std.specs.Iterator.{YieldsFirstBy, item_count};
ghost use Rattle.wp_memtable.specs.Bounds.{is_between};

use crate::bounds::Bounds;
use crate::key_versions::KeyVersions;
use std::marker::Model;
use wp_model::{Seq, Value};

/// The versions of one key, the newest first: of each the number, and the value or none for a deletion.
#[derive(Drop)]
pub struct Found<'a> {
    versions: Option<&'a KeyVersions>,
    /// The place of the next version, from 0 on.
    next: usize,
    bounds: Bounds,
}

impl<'a> Model for Found<'a> {
    ghost use Rattle.std.specs.Prelude.{[], drop, filter};
    ghost use Rattle.std.specs.Option.{option_copied, option_map_or};
    ghost use Rattle.wp_memtable.specs.Bounds.{is_between};
    ghost use Rattle.wp_memtable.specs.KeyVersions.{Numbered};

    ghost Value = { Numbered };

    ghost view = { λ f. filter (λ p. is_between f.bounds p.0) (drop f.next (option_map_or (λ v. v.versions) (option_copied f.versions) [])) };
}

/// The next of the versions with a number between the bounds.
fn next_between<'a>(
    versions: &'a KeyVersions,
    next: &mut usize,
    bounds: Bounds,
) -> Option<(Seq, Option<&'a Value>)>
    ensures { MatchOption result
        ((filter (λ p. is_between bounds p.0) (drop next.old versions.now.versions) ≡ []) × (filter (λ p. is_between bounds p.0) (drop next.new versions.now.versions) ≡ []))
        (λ p. filter (λ q. is_between bounds q.0) (drop next.old versions.now.versions) ≡ (p.0, option_copied p.1) ∷ filter (λ q. is_between bounds q.0) (drop next.new versions.now.versions)) }
{
    while let Some((number, value)) = versions.get(*next) {
        *next += 1;
        if bounds.have(*number) {
            return Some((*number, value.as_ref()));
        }
    }
    None
}

impl<'a> Found<'a> {
    pub(crate) fn new(versions: Option<&'a KeyVersions>, bounds: Bounds) -> Found<'a>
        ensures { result ≡ filter (λ p. is_between bounds p.0) (option_map_or (λ v. v.versions) (option_copied versions.entry) []) }
    {
        Found {
            versions,
            next: 0,
            bounds,
        }
    }
}

impl<'a> Iterator for Found<'a> {
    type Item = (Seq, Option<&'a Value>);

    ghost next_gives = { YieldsFirstBy (λ p. (p.0, option_copied p.1)) (λ f. f) };

    ghost remaining = { item_count (λ f. f) };

    fn next(&mut self) -> Option<(Seq, Option<&'a Value>)> {
        match self.versions {
            None => None,
            Some(versions) => next_between(versions, &mut self.next, self.bounds),
        }
    }
}
