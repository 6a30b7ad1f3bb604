//! What merged lists are, over plain lists.
ghost use Rattle.std.specs.Prelude.{◌≡◌, ℕ, List};
ghost use Rattle.wp_model.specs.declared.version.Version.{Version};
ghost use Rattle.wp_model.specs.Versions.{AreInOrder, version_at};
ghost use Rattle.wp_merge.specs.Merge.{AreMerged, joined, sorted_of};

/// Lists that are merged are the versions of all lists, one list after the other, sorted. Sorted versions have under each
/// key and number what they had before.
pub fn merged_lists_are_sorted()
    ensures merged { (sources : List (List Version)) (all : List Version) → AreMerged sources all → all ≡ sorted_of (joined sources) }
    ensures sorted { (sources : List (List Version)) → AreMerged sources (sorted_of (joined sources)) }
    ensures in_order { (versions : List Version) → AreInOrder (sorted_of versions) }
    ensures found { (versions : List Version) (key : List ℕ) (n : ℕ) → version_at (sorted_of versions) key n ≡ version_at versions key n }
{}
