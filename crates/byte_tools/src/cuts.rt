//! Indices in a text, and what stands before and after them.
ghost use Rattle.std.specs.Prelude.{◌≡◌, ◌≢◌, ℕ, Bool, ◌+◌, ◌<◌, ◌==◌, [], None, length, take, drop, slice_index_or, IfSome, MatchOption};
ghost use Rattle.std.specs.List.{All, before_first, after_first, position_from};

use memchr::{memchr, memrchr};

/// The index of the first byte of this value.
pub fn index_of(text: &[u8], byte: u8) -> Option<usize>
    ensures index { result ≡ position_from (λ b. b == byte) 0 text.now }
    ensures within { IfSome result (λ i. i < length text.now) }
{
    memchr(byte, text)
}

/// The index of the last byte of this value.
pub fn last_index_of(text: &[u8], byte: u8) -> Option<usize>
    ensures within { IfSome result (λ i. i < length text.now) }
    ensures here { IfSome result (λ i. slice_index_or text.now i 0 ≡ byte) }
    ensures behind { IfSome result (λ i. All (λ b. b ≢ byte) (drop (i + 1) text.now)) }
    ensures nowhere { result ≡ None → All (λ b. b ≢ byte) text.now }
{
    memrchr(byte, text)
}

/// What stands before this index and what stands after it, or all and nothing without an index.
pub fn parted(text: &[u8], index: Option<usize>) -> (&[u8], &[u8])
    requires { IfSome index (λ i. i < length text.now) }
    ensures parts { MatchOption index ((result.0.now ≡ text.now) × (result.1.now ≡ []))
        (λ i. (result.0.now ≡ take i text.now) × (result.1.now ≡ drop (i + 1) text.now)) }
    ensures before { (p : ℕ → Bool) → index ≡ position_from p 0 text.now → result.0.now ≡ before_first p text.now }
    ensures after { (p : ℕ → Bool) → index ≡ position_from p 0 text.now → result.1.now ≡ after_first p text.now }
{
    match index {
        Some(index) => (&text[..index], &text[index + 1..]),
        None => (text, &[]),
    }
}

/// What stands before the first byte of this value and what stands after it, or all and nothing where
/// there is no such byte.
pub fn cut(text: &[u8], byte: u8) -> (&[u8], &[u8])
    ensures before { result.0.now ≡ before_first (λ b. b == byte) text.now }
    ensures after { result.1.now ≡ after_first (λ b. b == byte) text.now }
{
    parted(text, index_of(text, byte))
}
