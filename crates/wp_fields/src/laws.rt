//! A number and its bytes give one another back.

ghost use Rattle.std.specs.Prelude.{◌≡◌, ◌<◌, ◌^◌, ◌++◌, ℕ, List, length, take, slice_index};
ghost use Rattle.std.specs.Int.{w16, w32, w64, from_be_bytes, to_be_bytes};

/// What a push put at the end of a buffer is read as the same number, whatever follows it.
pub fn pushed_numbers_are_read()
    ensures u16 { (number : ℕ) (rest : List ℕ) → number < 2 ^ 16
        → from_be_bytes w16 (take 2 (to_be_bytes w16 number ++ rest)) ≡ number }
    ensures u32 { (number : ℕ) (rest : List ℕ) → number < 2 ^ 32
        → from_be_bytes w32 (take 4 (to_be_bytes w32 number ++ rest)) ≡ number }
    ensures u64 { (number : ℕ) (rest : List ℕ) → number < 2 ^ 64
        → from_be_bytes w64 (take 8 (to_be_bytes w64 number ++ rest)) ≡ number }
{}

/// Bytes are the one spelling of the number that they are read as.
pub fn numbers_have_one_spelling()
    ensures u16 { (bytes : List ℕ) → length bytes ≡ 2 → ((i : ℕ) → slice_index bytes i < 256)
        → to_be_bytes w16 (from_be_bytes w16 bytes) ≡ bytes }
    ensures u32 { (bytes : List ℕ) → length bytes ≡ 4 → ((i : ℕ) → slice_index bytes i < 256)
        → to_be_bytes w32 (from_be_bytes w32 bytes) ≡ bytes }
    ensures u64 { (bytes : List ℕ) → length bytes ≡ 8 → ((i : ℕ) → slice_index bytes i < 256)
        → to_be_bytes w64 (from_be_bytes w64 bytes) ≡ bytes }
{}
