//! How far the evicted bound rises.
ghost use Rattle.std.specs.Prelude.{◌≡◌, ◌<◌};
ghost use Rattle.wp_judge.specs.Words.{seq_end};
ghost use Rattle.wp_rule.specs.Bound.{bound_past};

use wp_model::Seq;

/// The bound once a pair with this decision goes that the bound has not reached, in a cache of so many words. It rises by a
/// hundredth of the cache at once, so that not each pair that goes raises it anew.
pub fn bound_past(cells: u64, published: Seq, decision: Seq) -> Seq
    requires { decision < seq_end }
    ensures { result ≡ bound_past cells published decision }
{
    if decision < published {
        (decision + (cells / 100).max(1)).min(published - 1)
    } else {
        decision
    }
}
