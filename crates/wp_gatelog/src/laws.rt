//! Bytes are read in one way.

ghost use Rattle.std.specs.Prelude.{◌≡◌, ◌≢◌, ◌⊎◌, ℕ, ◌<◌, ◌^◌, List, [], ◌++◌, length, drop, slice_index};
ghost use Rattle.wp_outside.specs.Disk.{Moment};
ghost use Rattle.wp_fields.specs.declared.format.Format.{Format};
ghost use Rattle.wp_gatelog.specs.Damage.{IsBadHead, IsBadHeadAt, IsCut};
ghost use Rattle.wp_gatelog.specs.Durability.{HasAcknowledged};
ghost use Rattle.wp_gatelog.specs.Log.{IsAtRest};
ghost use Rattle.wp_gatelog.specs.Moments.{LeavesFrom};
ghost use Rattle.wp_gatelog.specs.Spelling.{IsUnmade, IsUnmadeAt, IsUpTo, Spells, SpellsAt, Stamp};

/// Bytes spell records of a version that is read, or have a bad head, or have a record that is cut: one of these, in one
/// way.
pub fn bytes_are_read_in_one_way()
    ensures one_list { (bytes magic : List ℕ) (stamp other : Stamp) (records others : List (List ℕ))
        → Spells bytes magic stamp records → Spells bytes magic other others → records ≡ others }
    ensures one_format { (bytes magic : List ℕ) (stamp other : Stamp) (records others : List (List ℕ)) → records ≢ []
        → Spells bytes magic stamp records → Spells bytes magic other others → stamp.format ≡ other.format }
    ensures one_id { (bytes magic : List ℕ) (stamp other : Stamp) (records others : List (List ℕ))
        → (IsUnmade bytes → ⊥) → stamp.id < 2 ^ 32 → other.id < 2 ^ 32
        → Spells bytes magic stamp records → Spells bytes magic other others → stamp.id ≡ other.id }
    ensures one_index { (bytes magic : List ℕ) (newest : Format) (index other : ℕ)
        → IsCut magic newest index bytes → IsCut magic newest other bytes → index ≡ other }
    ensures spelled_or_cut { (bytes magic : List ℕ) (newest : Format) (stamp : Stamp) (index : ℕ) (records : List (List ℕ))
        → Spells bytes magic stamp records → IsCut magic newest index bytes → ⊥ }
    ensures spelled_or_bad { (bytes magic : List ℕ) (newest : Format) (stamp : Stamp) (records : List (List ℕ))
        → length magic ≡ 4 → IsUpTo newest stamp.format
        → Spells bytes magic stamp records → IsBadHead magic newest bytes → ⊥ }
    ensures cut_or_bad { (bytes magic : List ℕ) (newest : Format) (index : ℕ)
        → length magic ≡ 4 → IsCut magic newest index bytes → IsBadHead magic newest bytes → ⊥ }
    ensures some { (bytes magic : List ℕ) (newest : Format)
        → length magic ≡ 4 → ((i : ℕ) → slice_index bytes i < 256)
        → ((stamp : Stamp) × (records : List (List ℕ)) × IsUpTo newest stamp.format × Spells bytes magic stamp records)
        ⊎ IsBadHead magic newest bytes ⊎ ((index : ℕ) × IsCut magic newest index bytes) }
{}

/// From a place on bytes spell records, or have a bad head, or have a record that is cut: one of these, in one way. Above
/// place 0 a log is there or the head is bad.
pub fn logs_at_a_place_are_read_in_one_way()
    ensures one_list { (place : ℕ) (bytes magic : List ℕ) (stamp other : Stamp) (records others : List (List ℕ))
        → SpellsAt place bytes magic stamp records → SpellsAt place bytes magic other others → records ≡ others }
    ensures one_format { (place : ℕ) (bytes magic : List ℕ) (stamp other : Stamp) (records others : List (List ℕ))
        → records ≢ [] → SpellsAt place bytes magic stamp records → SpellsAt place bytes magic other others
        → stamp.format ≡ other.format }
    ensures one_id { (place : ℕ) (bytes magic : List ℕ) (stamp other : Stamp) (records others : List (List ℕ))
        → (IsUnmadeAt place bytes → ⊥) → stamp.id < 2 ^ 32 → other.id < 2 ^ 32
        → SpellsAt place bytes magic stamp records → SpellsAt place bytes magic other others → stamp.id ≡ other.id }
    ensures spelled_or_cut { (place : ℕ) (bytes magic : List ℕ) (newest : Format) (stamp : Stamp) (index : ℕ)
        (records : List (List ℕ))
        → SpellsAt place bytes magic stamp records → IsCut magic newest index (drop place bytes) → ⊥ }
    ensures spelled_or_bad { (place : ℕ) (bytes magic : List ℕ) (newest : Format) (stamp : Stamp) (records : List (List ℕ))
        → length magic ≡ 4 → IsUpTo newest stamp.format
        → SpellsAt place bytes magic stamp records → IsBadHeadAt place magic newest bytes → ⊥ }
    ensures cut_or_bad { (place : ℕ) (bytes magic : List ℕ) (newest : Format) (index : ℕ)
        → length magic ≡ 4 → IsCut magic newest index (drop place bytes) → IsBadHeadAt place magic newest bytes → ⊥ }
    ensures some { (place : ℕ) (bytes magic : List ℕ) (newest : Format)
        → length magic ≡ 4 → ((i : ℕ) → slice_index bytes i < 256)
        → ((stamp : Stamp) × (records : List (List ℕ)) × IsUpTo newest stamp.format × SpellsAt place bytes magic stamp records)
        ⊎ IsBadHeadAt place magic newest bytes ⊎ ((index : ℕ) × IsCut magic newest index (drop place bytes)) }
{}

/// What a crash leaves of a log at rest has its records acknowledged, and acknowledged records are the first that are
/// spelled, under the same version.
pub fn acknowledged_records_come_first()
    ensures at_rest { (magic : List ℕ) (stamp : Stamp) (end : ℕ) (front dead : List ℕ) (records : List (List ℕ)) (m : Moment)
        → IsAtRest magic stamp end front dead records m → LeavesFrom (length front) (HasAcknowledged magic stamp records) m }
    ensures first { (bytes magic : List ℕ) (stamp other : Stamp) (records others : List (List ℕ))
        → HasAcknowledged magic stamp records bytes → Spells bytes magic other others
        → (more : List (List ℕ)) × (others ≡ records ++ more) }
    ensures one_format { (bytes magic : List ℕ) (stamp other : Stamp) (records others : List (List ℕ))
        → HasAcknowledged magic stamp records bytes → Spells bytes magic other others → stamp.format ≡ other.format }
{}
