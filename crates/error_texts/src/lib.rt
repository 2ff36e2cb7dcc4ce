//! Texts of errors, of at most 80 bytes. They lie in the value itself, and take no memory.
#![tactic(auto)]

ghost use Rattle.std.specs.Prelude.{◌≡◌, ◌+◌, ◌≤◌, ◌++◌, length, decimal};

use arrayvec::ArrayString;
use itoa::Buffer;

/// The text of an error.
pub type ErrorText = ArrayString<80>;

/// This text.
pub fn plain(text: &str) -> ErrorText
    requires { length text.now ≤ 80 }
    ensures { result.bytes ≡ text.now }
{
    let mut whole = ErrorText::new();
    whole.push_str(text);
    whole
}

/// Three pieces, one behind the other.
pub fn joined(before: &str, middle: &str, after: &str) -> ErrorText
    requires { length before.now + (length middle.now + length after.now) ≤ 80 }
    ensures { result.bytes ≡ before.now ++ (middle.now ++ after.now) }
{
    let mut whole = plain(before);
    whole.push_str(middle);
    whole.push_str(after);
    whole
}

/// A number between two pieces. It has at most ten digits.
pub fn numbered(before: &str, number: u32, after: &str) -> ErrorText
    requires { length before.now + (10 + length after.now) ≤ 80 }
    ensures text { result.bytes ≡ before.now ++ (decimal number ++ after.now) }
    ensures short { length result.bytes ≤ length before.now + (10 + length after.now) }
{
    joined(before, Buffer::new().format(number), after)
}
