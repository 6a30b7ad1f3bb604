//! The names of the transactions that one command settles.
ghost use Rattle.std.specs.Prelude.{◌≡◌, ◌≢◌, ◌≤◌, length, map, nat_eq};
ghost use Rattle.std.specs.List.{AllPairs, list_any};
ghost use Rattle.std.specs.Str.{bytes_eq};
ghost use Rattle.wp_fields.specs.Reading.{Gives};
ghost use Rattle.wp_model.specs.declared.entry.TheConstants.{MOST_COMMITS};
ghost use Rattle.wp_text.specs.Names.{are_distinct, may_be_settled};
ghost use Rattle.wp_text.specs.Reading.{line_fault, names_of, settled_names};

use crate::fault::{LineError, Why};
use std::alloc::Global;
use std::marker::Model;
use wp_model::{MOST_COMMITS, Name};

/// 1 to 16 names, none of them twice.
pub struct Names {
    items: Vec<Name>,
}

impl Model for Names {
    ghost use Rattle.std.specs.Prelude.{◌≡◌, ℕ, List, true};
    ghost use Rattle.wp_text.specs.Names.{may_be_settled};

    ghost Value = { List (List ℕ) };

    ghost view = { λ n. n.items.items };

    ghost invariant = { λ n. may_be_settled n.items.items ≡ true };
}

fn is_among(words: &[&[u8]], word: &[u8]) -> bool
    ensures { result ≡ list_any (λ other. bytes_eq word.now other.now) words.now }
{
    words.iter().any(|other| word == *other)
}

fn are_distinct(words: &[&[u8]]) -> bool
    ensures { result ≡ are_distinct (map (λ word. word.now) words.now) }
{
    match words {
        [word, others @ ..] => !is_among(others, word) && are_distinct(others),
        [] => true,
    }
}

fn may_be_settled(words: &[&[u8]]) -> bool
    ensures { result ≡ may_be_settled (map (λ word. word.now) words.now) }
{
    !words.is_empty() && words.len() <= MOST_COMMITS && are_distinct(words)
}

fn names_of(alloc: Global, words: &[&[u8]]) -> Result<Vec<Name>, LineError>
    ensures { Gives line_fault (λ names. names.items) result (names_of (map (λ word. word.now) words.now)) }
{
    let mut names = Vec::with_capacity(alloc, words.len())?;
    for word in words {
        names.push(Name::read(alloc, word)?)?;
    }
    Ok(names)
}

impl Names {
    /// The names that the words are.
    #[tactic(auto, unfolding(crate::specs::Reading::settled_names, crate::specs::Reading::names_of))]
    pub(crate) fn read(alloc: Global, words: &[&[u8]]) -> Result<Names, LineError>
        ensures { Gives line_fault (λ names. names) result (settled_names (map (λ word. word.now) words.now)) }
    {
        if !may_be_settled(words) {
            return Err(LineError::Wrong(Why::BadCommand));
        }
        Ok(Names {
            items: names_of(alloc, words)?,
        })
    }

    /// The names, in order.
    pub fn as_slice(&self) -> &[Name]
        ensures value { result.now ≡ self.now }
        ensures some { 1 ≤ length self.now }
        ensures few { length self.now ≤ MOST_COMMITS }
        ensures distinct { AllPairs ◌≢◌ self.now }
    {
        &self.items
    }
}

// Written out, so that no crate above proves anew how all that it holds is let go.
impl Drop for Names {
    fn drop(self) {
        let Self { items: _items } = self;
    }
}
