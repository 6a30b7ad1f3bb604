//! What an undecided prepare keeps as it was.
ghost use Rattle.std.specs.Prelude.{◌≡◌, ℕ, ◌≤◌, true, List, length, take};
ghost use Rattle.wp_model.specs.declared.entry.Entry.{Entry};
ghost use Rattle.wp_model.specs.History.{batch_at, is_undecided};
ghost use Rattle.wp_model.specs.Legal.{IsLegal, prior};

/// The keys of an undecided prepare keep the values that they have from its number on.
pub fn held_keys_keep_their_values()
    ensures { (history : List Entry) (p n : ℕ) → IsLegal history → is_undecided history p ≡ true → p ≤ n → n ≤ length history
        → prior (take n history) (batch_at history p) ≡ prior history (batch_at history p) }
{}
