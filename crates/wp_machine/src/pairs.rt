//! Lists of pairs, whose newest comes first: of two pairs of one name or number the first counts.
ghost use Rattle.std.specs.Prelude.{◌≡◌};
ghost use Rattle.std.specs.Option.{option_copied};
ghost use Rattle.std.specs.FinMap as finite;
ghost use Rattle.std.specs.Ordering.{nat_cmp};
ghost use Rattle.wp_model.specs.Batch.{key_cmp};
ghost use Rattle.wp_machine.specs.Pairs.{newest_of, newest_under};

use wp_model::{Name, Seq, Word};

/// What is under the name or the key, if something is.
pub(crate) fn newest_under<'a, const MOST: usize, V>(
    pairs: &'a [(Word<MOST>, V)],
    name: &Word<MOST>,
) -> Option<&'a V>
    ensures { option_copied result ≡ newest_under pairs.now name.now }
{
    for pair in pairs {
        if &pair.0 == name {
            return Some(&pair.1);
        }
    }
    None
}

/// What is under the number, if something is.
pub(crate) fn newest_of<V>(pairs: &[(Seq, V)], n: Seq) -> Option<&V>
    ensures { option_copied result ≡ newest_of pairs.now n }
{
    for pair in pairs {
        if pair.0 == n {
            return Some(&pair.1);
        }
    }
    None
}

/// What is under the name goes.
pub(crate) fn take_named<V: Drop>(pairs: &mut Vec<(Name, V)>, name: &Name)
    ensures { finite.from_entries {R = key_cmp} pairs.new.items ≡ finite.remove (finite.from_entries pairs.old.items) name.now }
{
    pairs.retain(|pair| &pair.0 != name);
}

/// What is under the number goes.
pub(crate) fn take_of<V: Drop>(pairs: &mut Vec<(Seq, V)>, n: Seq)
    ensures { finite.from_entries {R = nat_cmp} pairs.new.items ≡ finite.remove (finite.from_entries pairs.old.items) n }
{
    pairs.retain(|pair| pair.0 != n);
}
