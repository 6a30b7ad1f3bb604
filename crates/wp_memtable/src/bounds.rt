ghost use Rattle.std.specs.Prelude.{◌≡◌, ◌≤◌, ◌&&◌, ℕ, true, false, nat_lt};
ghost use Rattle.wp_memtable.specs.Bounds.{is_above, is_below, is_between};

use wp_model::Seq;

/// Numbers between which versions are seen.
#[derive(Clone, Copy)]
pub(crate) struct Bounds {
    /// Those up to this one are not seen.
    pub above: Option<Seq>,
    /// Those from this one on are not seen.
    pub below: Option<Seq>,
}

fn is_above(above: Option<Seq>, n: Seq) -> bool
    ensures { result ≡ is_above above n }
{
    match above {
        Some(above) => above < n,
        None => true,
    }
}

fn is_below(below: Option<Seq>, n: Seq) -> bool
    ensures { result ≡ is_below below n }
{
    match below {
        Some(below) => n < below,
        None => true,
    }
}

/// The greater of the two, or `n` alone.
fn greater(above: Option<Seq>, n: Seq) -> Seq
    ensures { (m : ℕ) → nat_lt result m ≡ (nat_lt n m && is_above above m) }
{
    match above {
        Some(above) => above.max(n),
        None => n,
    }
}

/// The lesser of the two, or `n` alone.
fn lesser(below: Option<Seq>, n: Seq) -> Seq
    ensures { (m : ℕ) → nat_lt m result ≡ (nat_lt m n && is_below below m) }
{
    match below {
        Some(below) => below.min(n),
        None => n,
    }
}

impl Bounds {
    /// All are seen.
    pub fn none() -> Bounds
        ensures { (n : ℕ) → is_between result n ≡ true }
    {
        Bounds {
            above: None,
            below: None,
        }
    }

    /// Whether it is seen.
    pub fn have(&self, n: Seq) -> bool
        ensures { result ≡ is_between self.now n }
    {
        is_above(self.above, n) && is_below(self.below, n)
    }

    /// Whether a number up to this one may be seen.
    pub fn may_have(&self, greatest: Seq) -> bool
        ensures { result ≡ false → (n : ℕ) → n ≤ greatest → is_between self.now n ≡ false }
    {
        is_above(self.above, greatest)
    }

    /// Those up to `n` are no longer seen.
    pub fn raise(&mut self, n: Seq)
        ensures { (m : ℕ) → is_between self.new m ≡ (nat_lt n m && is_between self.old m) }
    {
        self.above = Some(greater(self.above, n));
    }

    /// Those from `n` on are no longer seen.
    pub fn lower(&mut self, n: Seq)
        ensures { (m : ℕ) → is_between self.new m ≡ (nat_lt m n && is_between self.old m) }
    {
        self.below = Some(lesser(self.below, n));
    }
}
