//! The number that a whole word writes.
ghost use Rattle.std.specs.Prelude.{◌≡◌, ℕ, ◌+◌, ◌*◌, ◌≤◌, ◌^◌, IfSome};
ghost use Rattle.std.specs.Option.{option_map};
ghost use Rattle.std.specs.Char.{IsAsciiDigit, digit_value};
ghost use Rattle.bounds_model.specs.AnswerText.Numerals as model;
ghost use Rattle.bounds_model.specs.Ranges.{number_limit};
ghost use Rattle.byte_tools.specs.Clamps.{clamped_size, clamped};

/// The greatest magnitude of a number that is told from greater ones.
pub const LIMIT: u128 = 1 << 126;

/// A magnitude past the limit. A greater one is read as this one.
const FAR: u128 = LIMIT + 1;

/// The number that these bytes write without a sign, in digits that do not begin with 0 unless it is 0.
/// One past the limit is read as `LIMIT + 1`. None where they have another form.
pub fn natural_number(word: &[u8]) -> Option<u128>
    ensures number { result ≡ option_map (clamped_size number_limit) (model.natural_number word.now) }
    ensures limited { IfSome result (λ n. n ≤ 2 ^ 126 + 1) }
{
    if word.is_empty() || (word.len() > 1 && word[0] == b'0') {
        return None;
    }
    let mut size: u128 = 0;
    for digit in word {
        if !digit.is_ascii_digit() {
            return None;
        }
        size = with_digit(size, *digit);
    }
    Some(size)
}

/// The number with this digit behind its own, or `FAR` where that is past the limit.
fn with_digit(size: u128, digit: u8) -> u128
    requires size { size ≤ 2 ^ 126 + 1 }
    requires digit { IsAsciiDigit digit }
    ensures { result ≡ clamped_size number_limit (size * 10 + digit_value digit) }
{
    if size > LIMIT / 10 {
        FAR
    } else {
        (size * 10 + u128::from(digit - b'0')).min(FAR)
    }
}

/// The opposite of a number above 0, which is clamped.
fn below_zero(size: u128) -> Option<i128>
    requires { size ≤ 2 ^ 126 + 1 }
    ensures { (n : ℕ) → size ≡ clamped_size number_limit n → result ≡ option_map (clamped number_limit) (model.below_zero n) }
{
    if size == 0 {
        None
    } else {
        Some(-(size as i128))
    }
}

/// The whole number that these bytes write: digits, or a minus sign and the digits of a number above 0.
/// One whose magnitude is past the limit is read as `LIMIT + 1` or its opposite. None where they have another form.
pub fn whole_number(word: &[u8]) -> Option<i128>
    ensures { result ≡ option_map (clamped number_limit) (model.whole_number word.now) }
{
    match word {
        [b'-', digits @ ..] => below_zero(natural_number(digits)?),
        digits => Some(natural_number(digits)? as i128),
    }
}
