ghost use Rattle.std.specs.Prelude.{◌≡◌, ◌≤◌, ◌^◌, IfOk, IfErr};
ghost use Rattle.std.specs.List.{find};
ghost use Rattle.wp_model.specs.CachePlace as places;
ghost use Rattle.wp_model.specs.CachePlace.{shares_place, NoneShare};
ghost use Rattle.wp_group.specs.Refusals.{IsNoGroup};

use crate::error::GroupError;
use std::alloc::{AllocError, Global};
use std::marker::Model;
use wp_judge::count_words;
use wp_model::Seq;

/// Numbers of prepares, in the order in which they are decided, of which no two have one place in the commit cache.
#[derive(Drop)]
pub struct Group {
    numbers: Vec<Seq>,
}

impl Model for Group {
    ghost use Rattle.std.specs.Prelude.{ℕ, List};

    ghost Value = { List ℕ };

    ghost view = { λ g. g.numbers.items };
}

/// The first of the numbers that has the place of q.
fn sharing(numbers: &[Seq], q: Seq, cells: u64) -> Option<Seq>
    requires { 1 ≤ cells }
    ensures { result ≡ find (shares_place cells q) numbers.now }
{
    numbers.iter().copied().find(|p| *p % cells == q % cells)
}

fn first_crowded(numbers: &[Seq], cells: u64) -> Option<(Seq, Seq)>
    requires { 1 ≤ cells }
    ensures { result ≡ places.first_crowded cells numbers.now }
{
    for (i, q) in numbers.iter().enumerate() {
        if let Some(p) = sharing(&numbers[..i], *q, cells) {
            return Some((p, *q));
        }
    }
    None
}

impl Group {
    /// The numbers, where no two of them have one place in a cache of 2^bits words; the bits are at most 16. `Crowded` where two have
    /// one, wide apart or not, and `Memory` where there is none for a copy of them.
    pub fn of(alloc: Global, numbers: &[Seq], bits: u32) -> Result<Group, GroupError>
        requires { bits ≤ 16 }
        ensures ok { IfOk result (λ group. (group ≡ numbers.now) × NoneShare (2 ^ bits) numbers.now) }
        ensures refused { IfErr result (IsNoGroup (2 ^ bits) numbers.now) }
    {
        if let Some((first, second)) = first_crowded(numbers, count_words(bits)) {
            return Err(GroupError::Crowded { first, second });
        }
        Ok(Group {
            numbers: numbers.to_vec(alloc)?,
        })
    }

    pub fn numbers(&self) -> &[Seq]
        ensures { result.now ≡ self.now }
    {
        &self.numbers
    }
}
