//! How a table writes bytes.
ghost use Rattle.std.specs.Prelude.{◌<◌, IfSome};

use anyhow::{Result, bail};
use std::alloc::AllocError;

/// Appends the bytes that a text of a table stands for: `\n`, `\r` and `\t` as in Rust, `\xNN` the byte with these two digits, and
/// all else itself.
pub(crate) fn push_text(bytes: &mut Vec<u8>, text: &str) -> Result<()> {
    for (number, part) in text.split('\\').enumerate() {
        if number == 0 {
            bytes.extend_from_slice(part.as_bytes())?;
        } else if !push_escaped(bytes, part.as_bytes())? {
            bail!("no byte is written \\{part}");
        }
    }
    Ok(())
}

/// Appends what stands behind a backslash, or says that it begins with no escape.
fn push_escaped(bytes: &mut Vec<u8>, part: &[u8]) -> Result<bool, AllocError> {
    match part {
        [b'n', rest @ ..] => push_both(bytes, b'\n', rest)?,
        [b'r', rest @ ..] => push_both(bytes, b'\r', rest)?,
        [b't', rest @ ..] => push_both(bytes, b'\t', rest)?,
        [b'x', high, low, rest @ ..] => {
            let (Some(high), Some(low)) = (digit(*high), digit(*low)) else {
                return Ok(false);
            };
            push_both(bytes, 16 * high + low, rest)?;
        }
        _ => return Ok(false),
    }
    Ok(true)
}

fn push_both(bytes: &mut Vec<u8>, first: u8, rest: &[u8]) -> Result<(), AllocError> {
    bytes.push(first)?;
    bytes.extend_from_slice(rest)?;
    Ok(())
}

fn digit(byte: u8) -> Option<u8>
    ensures { IfSome result (λ d. d < 16) }
{
    match byte {
        b'0'..=b'9' => Some(byte - b'0'),
        b'a'..=b'f' => Some(byte - b'a' + 10),
        _ => None,
    }
}
