//! Words of some pairs, and the greatest number.
ghost use Rattle.std.specs.Prelude.{◌≡◌, ◌+◌, ◌-◌, ◌^◌, Some};
ghost use Rattle.wp_judge.specs.Words.{commit_pair, word_of, pair_of, seq_end};
ghost use Rattle.wp_judge.specs.declared.words.TheConstants.{LAST_SEQ};

/// In caches of one word, of 2^10 and of 2^16, where the last pair has the greatest number.
pub fn some_pairs_have_these_words()
    ensures least { word_of (2 ^ 0) (commit_pair 2 3) ≡ 514 }
    ensures packed { word_of (2 ^ 10) (commit_pair 1026 1030) ≡ 262149 }
    ensures unpacked { pair_of (2 ^ 10) 2 262149 ≡ Some (commit_pair 1026 1030) }
    ensures greatest { word_of (2 ^ 16) (commit_pair (2 ^ 56 - 1) (2 ^ 56 - 1)) ≡ 18446744073692774401 }
{}

/// The greatest number is the last one below the end of all numbers.
pub fn limits_are()
    ensures { LAST_SEQ + 1 ≡ seq_end }
{}
