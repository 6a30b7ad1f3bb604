//! How legal histories grow, and what the store has under a key, over plain lists.
ghost use Rattle.std.specs.Prelude.{◌≡◌, ◌⊎◌, ◌↔◌, ℕ, ◌+◌, ◌<◌, ◌-◌, ◌≤◌, Bool, true, false, Option, Some, None, List, [], ◌∷◌, ◌++◌, length, take};
ghost use Rattle.std.specs.FinMap as finite;
ghost use Rattle.std.specs.List.{Contains};
ghost use Rattle.wp_model.specs.declared.change.Change.{Change};
ghost use Rattle.wp_model.specs.declared.entry.Entry.{Entry};
ghost use Rattle.wp_model.specs.declared.entry.Entry.TheVariants.{Prepare, Undo, Close};
ghost use Rattle.wp_model.specs.declared.version.Version.{Version};
ghost use Rattle.wp_model.specs.Changed.{IsUnchanged};
ghost use Rattle.wp_model.specs.Covered.{IsCovered};
ghost use Rattle.wp_model.specs.Decision.{entry_version, IsCommittedAt, IsNewestCommitted, HasNoneCommitted};
ghost use Rattle.wp_model.specs.History.{entry_at, is_prepare, undecided, is_undecided, name_at, batch_at, is_changed, newest, value_at};
ghost use Rattle.wp_model.specs.Legal.{IsLegal, IsLegalNext, undone_last, log_end};
ghost use Rattle.wp_model.specs.Rows.{Pair, stored, is_from, rows_from, rows};
ghost use Rattle.wp_history_laws.specs.Growth.{undecided_after};

/// A legal history grows by each entry that may follow it.
pub fn legal_grows()
    ensures { (history : List Entry) (entry : Entry) → IsLegal history → IsLegalNext history entry
        → length history + 1 < log_end → IsLegal (history ++ entry ∷ []) }
{}

/// What a legal history begins with is legal.
pub fn legal_front()
    ensures { (history more : List Entry) → IsLegal (history ++ more) → IsLegal history }
{}

/// Each entry of a legal history may follow those before it.
pub fn legal_at_each_entry()
    ensures { (front more : List Entry) (entry : Entry) → IsLegal (front ++ entry ∷ more) → IsLegalNext front entry }
{}

/// An undo is followed by its close.
pub fn undo_is_followed_by_its_close()
    ensures { (history : List Entry) (p : ℕ) (batch : List Change) → IsLegalNext history (Undo p batch)
        → IsLegalNext (history ++ Undo p batch ∷ []) (Close p) }
{}

/// What an entry more leaves undecided.
pub fn undecided_grows()
    ensures each { (history : List Entry) (entry : Entry) → IsLegal history → IsLegalNext history entry
        → undecided (history ++ entry ∷ []) ≡ undecided_after (undecided history) (length history + 1) entry }
    ensures prepared { (history : List Entry) (name : List ℕ) (batch : List Change) → IsLegal history
        → is_undecided (history ++ Prepare name batch ∷ []) (length history + 1) ≡ true }
{}

/// Entries that follow change nothing at the old numbers.
pub fn old_numbers_stay()
    ensures names { (history more : List Entry) (p : ℕ) → p ≤ length history → name_at (history ++ more) p ≡ name_at history p }
    ensures batches { (history more : List Entry) (p : ℕ) → p ≤ length history → batch_at (history ++ more) p ≡ batch_at history p }
    ensures values { (history more : List Entry) (key : List ℕ) (n : ℕ) → n ≤ length history
        → value_at (history ++ more) key n ≡ value_at history key n }
{}

/// The last entry says what a history undoes last.
pub fn last_entry_undoes()
    ensures { (front others : List Entry) (entry : Entry)
        → undone_last (front ++ entry ∷ others) ≡ undone_last (entry ∷ others) }
{}

/// At a number a key has one newest version that is committed, or none: and that is what the store has under the key there.
pub fn newest_committed_is_the_value()
    ensures either { (history : List Entry) (key : List ℕ) (n : ℕ) → IsLegal history → n ≤ length history
        → HasNoneCommitted history key n ⊎ ((p : ℕ) × IsNewestCommitted history key n p) }
    ensures newest { (history : List Entry) (key : List ℕ) (n p : ℕ) → IsLegal history → n ≤ length history
        → (v : IsNewestCommitted history key n p) → value_at history key n ≡ v.value }
    ensures none { (history : List Entry) (key : List ℕ) (n : ℕ) → IsLegal history → n ≤ length history
        → HasNoneCommitted history key n → value_at history key n ≡ None }
{}

/// Nothing is committed at the number 0, so that it may stand among the numbers of each covering.
pub fn zero_is_covered()
    ensures { (versions : List Version) (history : List Entry) (numbers : List ℕ) (from : ℕ)
        → IsCovered versions history numbers from → IsCovered versions history (0 ∷ numbers) from }
{}

/// A key that no entry above a number changes.
pub fn unchanged_keys()
    ensures values { (history : List Entry) (key : List ℕ) (n m : ℕ) → IsLegal history → IsUnchanged history key n
        → n ≤ m → m ≤ length history → value_at history key m ≡ value_at history key n }
    ensures later { (history : List Entry) (key : List ℕ) (n m : ℕ) → n ≤ m → IsUnchanged history key n → IsUnchanged history key m }
    ensures prepared { (history : List Entry) (key : List ℕ) (p : ℕ) → IsLegal history → is_undecided history p ≡ true
        → is_changed (batch_at history p) key ≡ true → IsUnchanged history key p }
    ensures joined { (history : List Entry) (key : List ℕ) (n p : ℕ) → IsLegal history → is_prepare (entry_at history p) ≡ true
        → IsUnchanged (take (p - 1) history) key n → IsUnchanged history key p → IsUnchanged history key n }
{}

/// The store that a history leaves, and the rows of a range: each key there that has a value, with it, in the order of keys.
pub fn rows_are_values()
    ensures stored { (history : List Entry) (key : List ℕ) → finite.get (stored history) key ≡ newest history key }
    ensures rows { (history : List Entry) (from to : List ℕ) (n : ℕ) (row : Pair) → Contains (rows history from to n) row
        ↔ ((is_from false from row.0 ≡ true) × (is_from false row.0 to ≡ true) × (value_at history row.0 n ≡ Some row.1)) }
    ensures later { (history more : List Entry) (above : Bool) (key to : List ℕ) (n : ℕ) → n ≤ length history
        → rows_from (history ++ more) above key to n ≡ rows_from history above key to n }
    ensures behind { (history : List Entry) (above : Bool) (at key to : List ℕ) (n : ℕ) → is_from above at key ≡ true → is_from false key to ≡ true
        → rows_from history above at to n ≡ rows_from history above at key n ++ rows_from history true key to n }
    ensures alike { (one other : List Entry) (n : ℕ) → ((key : List ℕ) → value_at one key n ≡ value_at other key n)
        → (above : Bool) (key to : List ℕ) → rows_from one above key to n ≡ rows_from other above key to n }
{}

/// The number of a version that is committed at a number is one from 1 to that, and no prepare's that is undecided there. Where no undo
/// ends what stands up to there, it is below each such prepare that has the version's key.
pub fn committed_versions_stand_below()
    ensures within { (history : List Entry) (n p : ℕ) → IsLegal history → n ≤ length history → IsCommittedAt history p n
        → (1 ≤ p) × (p ≤ n) }
    ensures decided { (history : List Entry) (n p : ℕ) → IsLegal history → n ≤ length history → IsCommittedAt history p n
        → is_undecided (take n history) p ≡ false }
    ensures below { (history : List Entry) (n p q : ℕ) (key : List ℕ) (value : Option (List ℕ)) → IsLegal history → n ≤ length history
        → undone_last (take n history) ≡ None → IsCommittedAt history p n → entry_version history p key ≡ Some value
        → is_undecided (take n history) q ≡ true → is_changed (batch_at history q) key ≡ true → p < q }
{}
