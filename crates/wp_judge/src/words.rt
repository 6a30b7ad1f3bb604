ghost use Rattle.std.specs.Prelude.{◌≡◌, ◌+◌, ◌<◌, ◌≤◌, ◌^◌, ◌%◌, Some, IfSome};
ghost use Rattle.std.specs.Option.{option_map};
ghost use Rattle.wp_judge.specs.Words as words;
ghost use Rattle.wp_judge.specs.Words.{CommitPair, commit_pair, MayBePacked, IsPacked, word_of, pair_of, numbers_of, seq_end};

use wp_model::Seq;

/// The greatest number that a version or an entry has in the words and tables of the engine: 2^56 - 1.
pub const LAST_SEQ: Seq = 72057594037927935;

/// How many words a commit cache of so many bits has. The bits are at most 16.
pub fn count_words(bits: u32) -> u64
    requires { bits ≤ 16 }
    ensures count { result ≡ 2 ^ bits }
    ensures range { (1 ≤ result) × (result ≤ 65536) }
{
    1 << bits
}

/// Each delta in a word of a cache of so many bits is below this.
fn delta_bound(bits: u32) -> u64
    requires { bits ≤ 16 }
    ensures bound { result ≡ words.delta_bound (2 ^ bits) }
    ensures range { (256 ≤ result) × (result ≤ 16777216) }
{
    256 * count_words(bits)
}

/// How far the decision c is behind the version p, and one more: so no delta is 0.
fn delta_of(p: Seq, c: Seq) -> u64
    requires ordered { p ≤ c }
    requires few { c < seq_end }
    ensures delta { result ≡ words.delta_of (commit_pair p c) }
    ensures range { (1 ≤ result) × (p + result ≤ seq_end) }
{
    c - p + 1
}

/// Whether the pair (p, c) fits a word of a cache of so many bits, at most 16: the decision is less than 2^(8 + bits) - 1 behind the
/// version. One that does not is kept among the delayed commits.
pub fn fits(bits: u32, p: Seq, c: Seq) -> bool
    requires bits { bits ≤ 16 }
    requires ordered { p ≤ c }
    requires few { c < seq_end }
    ensures { result ≡ words.fits (2 ^ bits) (commit_pair p c) }
{
    delta_of(p, c) < delta_bound(bits)
}

/// The word of the pair (p, c), which fits: the version p is decided by the entry c. It stands at the place p modulo 2^bits, so the
/// quotient is all that it has of p; below that it has the delta, of 8 + bits bits. The bits are at most 16.
pub fn pack(bits: u32, p: Seq, c: Seq) -> u64
    requires bits { bits ≤ 16 }
    requires pair { MayBePacked (2 ^ bits) (commit_pair p c) }
    ensures word { result ≡ word_of (2 ^ bits) (commit_pair p c) }
    ensures unpacks { pair_of (2 ^ bits) (p % 2 ^ bits) result ≡ Some (commit_pair p c) }
{
    let quotient = p / count_words(bits);
    quotient * delta_bound(bits) + delta_of(p, c)
}

/// Whether some pair has this number and this delta.
fn is_pair(p: Seq, delta: u64) -> bool
    requires { p + delta < 2 ^ 64 }
    ensures { result ≡ words.is_pair p delta }
{
    1 <= p && 1 <= delta && p + delta <= LAST_SEQ + 1
}

/// The pair of the word at this place of a cache of so many bits, at most 16; None exactly where no pair packs to it there, as for
/// the empty word 0.
pub fn unpack(bits: u32, place: usize, word: u64) -> Option<(Seq, Seq)>
    requires bits { bits ≤ 16 }
    requires place { place < 2 ^ bits }
    ensures pair { result ≡ option_map numbers_of (pair_of (2 ^ bits) place word) }
    ensures packs { IfSome result (λ r. IsPacked (2 ^ bits) place word (commit_pair r.0 r.1)) }
{
    let p = word / delta_bound(bits) * count_words(bits) + place as u64;
    let delta = word % delta_bound(bits);
    if !is_pair(p, delta) {
        return None;
    }
    Some((p, p + delta - 1))
}
