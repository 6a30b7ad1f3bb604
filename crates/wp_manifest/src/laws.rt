//! What bytes are as an edit.

ghost use Rattle.std.specs.Prelude.{◌≡◌, ℕ, List};
ghost use Rattle.wp_gatelog.specs.Damage.{IsBadHead};
ghost use Rattle.wp_manifest.specs.Edit.{Edit, IsEdit, edit_bytes};
ghost use Rattle.wp_manifest.specs.Opening.{IsBadEdit};
ghost use Rattle.wp_manifest.specs.Spelling.{MAGIC, IsManifestOf, VERSION};

use wp_gatelog::bytes_are_read_in_one_way;

/// No two edits have the same bytes.
pub fn edits_have_one_spelling()
    ensures { (one other : Edit) → IsEdit one → IsEdit other → edit_bytes one ≡ edit_bytes other → one ≡ other }
{}

/// Bytes are the manifest of one list of edits, or have a bad head, or a first record that is no edit: at most one of these, in
/// one way.
pub fn a_manifest_is_read_in_one_way()
    ensures one_list { (bytes : List ℕ) (id other : ℕ) (edits others : List Edit)
        → IsManifestOf id edits bytes → IsManifestOf other others bytes → edits ≡ others }
    ensures one_bad_edit { (bytes : List ℕ) (index other : ℕ)
        → IsBadEdit index bytes → IsBadEdit other bytes → index ≡ other }
    ensures edits_or_bad_head { (bytes : List ℕ) (id : ℕ) (edits : List Edit)
        → IsManifestOf id edits bytes → IsBadHead MAGIC VERSION bytes → ⊥ }
    ensures edits_or_bad_edit { (bytes : List ℕ) (id index : ℕ) (edits : List Edit)
        → IsManifestOf id edits bytes → IsBadEdit index bytes → ⊥ }
    ensures bad_head_or_bad_edit { (bytes : List ℕ) (index : ℕ)
        → IsBadHead MAGIC VERSION bytes → IsBadEdit index bytes → ⊥ }
{
    bytes_are_read_in_one_way();
}
