//! What the rule of the evicted bound comes to.
ghost use Rattle.std.specs.Prelude.{ℕ, ◌≤◌, Option, Some};
ghost use Rattle.wp_judge.specs.Words.{CommitPair};
ghost use Rattle.wp_commits.specs.Bound.{bound_after};

/// The bound never falls.
pub fn the_bound_never_falls()
    ensures { (cells published bound : ℕ) (gone : Option CommitPair) → bound ≤ bound_after cells published bound gone }
{}

/// It comes to the decision of the pair that goes. Where that is published, the bound stays a published number too.
pub fn the_bound_passes_what_goes()
    ensures decision { (cells published bound : ℕ) (pair : CommitPair) → pair.decision ≤ bound_after cells published bound (Some pair) }
    ensures published { (cells published bound : ℕ) (pair : CommitPair) → bound ≤ published → pair.decision ≤ published → bound_after cells published bound (Some pair) ≤ published }
{}
