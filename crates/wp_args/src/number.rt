//! The numbers of arguments.

ghost use Rattle.std.specs.Prelude.{◌≡◌, ◌<◌, ◌^◌, ℕ, IfNone, IfSome, decimal};

/// The number that a text spells in decimal digits, with no sign and no leading zero.
pub(crate) fn number_of(text: &str) -> Option<u64>
    ensures spelled { IfSome result (λ number. text.now ≡ decimal number) }
    ensures none { IfNone result ((number : ℕ) → number < 2 ^ 64 → ¬ (text.now ≡ decimal number)) }
{
    let first = *text.as_bytes().first()?;
    if first == b'+' || first == b'0' && text.len() > 1 {
        return None;
    }
    text.parse().ok()
}
