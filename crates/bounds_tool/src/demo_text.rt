//! What a demonstration tells, and the size alone.
ghost use Rattle.std.specs.Prelude.{◌≡◌, ◌++◌, IfOk, OnOk};
ghost use Rattle.bounds_model.specs.AnswerText.Written.{size_line};
ghost use Rattle.bounds_tool.specs.Outputs.{made_line};

use exact_fractions::Frac;
use std::alloc::{AllocError, Global};
use witness_format::{push_natural, push_size};

/// The line of how many points were made in each set, and the line of the size.
pub(crate) fn demo_text(alloc: Global, count: u32, size: &Frac) -> Result<Vec<u8>, AllocError>
    ensures { IfOk result (λ text. text.items ≡ made_line count ++ size_line size.now) }
{
    let mut text = Vec::new(alloc);
    push_made(&mut text, count)?;
    push_size(&mut text, size)?;
    Ok(text)
}

/// The line of the size.
pub(crate) fn size_text(alloc: Global, size: &Frac) -> Result<Vec<u8>, AllocError>
    ensures { IfOk result (λ text. text.items ≡ size_line size.now) }
{
    let mut text = Vec::new(alloc);
    push_size(&mut text, size)?;
    Ok(text)
}

fn push_made(text: &mut Vec<u8>, count: u32) -> Result<(), AllocError>
    ensures { OnOk result (text.new.items ≡ text.old.items ++ made_line count) }
{
    text.extend_from_slice(b"made ")?;
    push_natural(text, u128::from(count))?;
    text.extend_from_slice(b"\n")
}
