//! The number that the digits at the start of a text write.
ghost use Rattle.std.specs.Prelude.{◌≡◌, ◌+◌, ◌*◌, ◌<◌, ◌≤◌, ◌^◌, length, take, slice_index_or, true, false};
ghost use Rattle.std.specs.Char.{IsAsciiDigit, is_ascii_digit, digit_value};
ghost use Rattle.std.specs.List.{list_all};
ghost use Rattle.std.specs.Str.Parse.{digits_value};
ghost use Rattle.byte_tools.specs.LeadingDigits.{AreCut};

/// Cuts off the digits that a text begins with: the number that they write behind the digits of `size`, or the first one past
/// the limit where it is greater, and what stands behind them.
pub fn cut_digits(limit: u32, size: u32, text: &[u8]) -> (u32, &[u8])
    requires limit { limit < 10 ^ 8 }
    requires size { size ≤ limit + 1 }
    ensures { AreCut limit size text.now result.0 result.1.now }
{
    let far = limit + 1;
    let mut so_far = size;
    'digits: for i in 0..text.len() {
        let byte = text[i];
        if !byte.is_ascii_digit() {
            return (so_far.min(far), &text[i..]);
        }
        // Once it is far, the number stays so, whatever its further digits are.
        if so_far < far {
            so_far = 10 * so_far + u32::from(byte - b'0');
        }
    }
    (so_far.min(far), &[])
}

/// As many digits are a number that fits 64 bits, also with one more digit behind them.
const FEW: usize = 18;

/// The number that the first digits of a text write, and how many they are: all that it begins with, or the first 18 of them.
pub fn leading_number(text: &[u8]) -> (u64, usize)
    ensures number { result.0 ≡ digits_value 10 (take result.1 text.now) }
    ensures digits { list_all is_ascii_digit (take result.1 text.now) ≡ true }
    ensures within { result.1 ≤ length text.now }
    ensures few { result.1 ≤ 18 }
    ensures all { result.1 < 18 → result.1 < length text.now → is_ascii_digit (slice_index_or text.now result.1 0) ≡ false }
    ensures limited { result.0 < 10 ^ 18 }
{
    let most = text.len().min(FEW);
    let mut size: u64 = 0;
    'digits: for count in 0..most {
        let digit = text[count];
        if !digit.is_ascii_digit() {
            return (size, count);
        }
        size = followed_by(size, digit);
    }
    (size, most)
}

/// The number with this digit behind its own.
fn followed_by(size: u64, digit: u8) -> u64
    requires size { size < 10 ^ 18 }
    requires digit { IsAsciiDigit digit }
    ensures { result ≡ size * 10 + digit_value digit }
{
    size * 10 + u64::from(digit - b'0')
}
