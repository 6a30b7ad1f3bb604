//! What the versions that stay are enough for, over plain lists.
ghost use Rattle.std.specs.Prelude.{◌≡◌, ℕ, ◌≤◌, true, List, ◌++◌};
ghost use Rattle.wp_model.specs.declared.entry.Entry.{Entry};
ghost use Rattle.wp_model.specs.Legal.{IsLegal};
ghost use Rattle.wp_model.specs.declared.version.Version.{Version};
ghost use Rattle.wp_keep.specs.declared.pair.Pair.{Pair};
ghost use Rattle.wp_keep.specs.Keep.{is_committed, retained_of};
ghost use Rattle.wp_keep.specs.MayGo.{MayGo};
ghost use Rattle.wp_model.specs.Covered.{IsCovered, is_among};

/// Where newer versions with all of these cover a legal history, those with the ones that stay do, from the floor on, and at
/// each of the listed numbers that they covered before, if it is one of the snapshots that they stay for.
pub fn keep_covers()
    ensures { (history : List Entry) (newer versions : List Version) (committed : List Pair) (snapshots numbers : List ℕ) (floor from : ℕ)
        → IsLegal history → from ≤ floor → MayGo (is_committed committed) history newer versions snapshots floor
        → ((n : ℕ) → is_among numbers n ≡ true → is_among snapshots n ≡ true)
        → IsCovered (newer ++ versions) history numbers from
        → IsCovered (newer ++ retained_of (is_committed committed) versions snapshots floor) history numbers floor }
{}
