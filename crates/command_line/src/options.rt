//! The values of options, needed or not.
ghost use Rattle.std.specs.Prelude.{◌≡◌, ◌≤◌, None, Some, option_map, option_and_then, is_some, IfOk, MatchResult};
ghost use Rattle.bounds_model.specs.ErrorLines.{kind_option, form_option, box_option, brief_option};
ghost use Rattle.bounded_coords.specs.Asked.{asked};
ghost use Rattle.bounds_model.specs.Asks.{IsValid};
ghost use Rattle.command_line.specs.Faults.{meant_option, HasFault};
ghost use Rattle.command_line.specs.Given.{meant_given, text_within};
ghost use Rattle.command_line.specs.Kinds.{kind_named};
ghost use Rattle.command_line.specs.Values as model;
ghost use Rattle.command_line.specs.Options.{needed, unused, allowed, fault_by, option_fault};
ghost use Rattle.command_line.specs.Words.{ask_squares, ask_by, form_by, flag_value};
ghost use Rattle.command_line.specs.Parts.{kind_fault, plain_fault};

use crate::kind::{Kind, kind_named};
use crate::parsing::Given;
use crate::values::{form_named, frame_written, number_within};
use crate::{Opt, UsageFault};
use bounded_coords::{Ask, Frame};
use point_text::Form;

/// What a question of this kind asks, with the options of the kind and no others.
pub(crate) fn ask(kind: Kind, given: &Given<'_, '_>) -> Result<Ask, UsageFault>
    ensures ask { IfOk result (λ a. ask_by kind (meant_given given.now) ≡ Some (asked a)) }
    ensures fault { HasFault result (kind_fault kind (meant_given given.now)) }
    ensures valid { IfOk result (λ a. IsValid (asked a)) }
{
    match kind {
        Kind::Centres => {
            let p = number(Opt::P, 1, 4, given.p)?;
            unneeded(Opt::K, given.k)?;
            unneeded(Opt::Frame, given.frame)?;
            Ok(squares(p))
        }
        Kind::Kgon => {
            unneeded(Opt::P, given.p)?;
            let k = number(Opt::K, 3, 12, given.k)?;
            unneeded(Opt::Frame, given.frame)?;
            Ok(Ask::Kgon(k as u8))
        }
        Kind::Empty => {
            unneeded(Opt::P, given.p)?;
            unneeded(Opt::K, given.k)?;
            Ok(Ask::Empty(frame(given.frame)?))
        }
        Kind::Circle => plain(Ask::Circle, given),
        Kind::Sphere => plain(Ask::Sphere, given),
        Kind::Rectangle => plain(Ask::Rectangle, given),
        Kind::Parallelogram => plain(Ask::Parallelogram, given),
        Kind::Strip => plain(Ask::Strip, given),
        Kind::Annulus => plain(Ask::Annulus, given),
        Kind::Distance => plain(Ask::Distance, given),
        Kind::Furthest => plain(Ask::Furthest, given),
        Kind::Shell => plain(Ask::Shell, given),
    }
}

// What so many squares ask: one to three, or four, whose answers have a witness of their own.
fn squares(p: u32) -> Ask
    requires some { 1 ≤ p }
    requires few { p ≤ 4 }
    ensures ask { asked result ≡ ask_squares p }
    ensures valid { IsValid (asked result) }
{
    if p == 4 {
        Ask::Four
    } else {
        Ask::Centres(p as u8)
    }
}

// What is asked, where the kind has no options.
fn plain(ask: Ask, given: &Given<'_, '_>) -> Result<Ask, UsageFault>
    ensures ask { IfOk result (λ a. a ≡ ask) }
    ensures fault { HasFault result (plain_fault (meant_given given.now)) }
{
    unneeded(Opt::P, given.p)?;
    unneeded(Opt::K, given.k)?;
    unneeded(Opt::Frame, given.frame)?;
    Ok(ask)
}

/// The kind that is named as the value of an option.
pub(crate) fn kind(value: Option<&str>) -> Result<Kind, UsageFault>
    ensures kind { IfOk result (λ kind. option_and_then kind_named (text_within value.entry) ≡ Some kind) }
    ensures fault { HasFault result (option_fault needed kind_option (text_within value.entry)) }
{
    let word = needed(Opt::Kind, value)?;
    kind_named(word).ok_or(UsageFault::BadValue(Opt::Kind))
}

/// The form of point files: text, where the option is not given.
pub(crate) fn form(value: Option<&str>) -> Result<Form, UsageFault>
    ensures form { IfOk result (λ form. form_by (text_within value.entry) ≡ Some form) }
    ensures fault { HasFault result (option_fault allowed form_option (text_within value.entry)) }
{
    match value {
        Some(word) => form_named(word).ok_or(UsageFault::BadValue(Opt::Form)),
        None => Ok(Form::Text),
    }
}

// The frame that is needed.
fn frame(value: Option<&str>) -> Result<Frame, UsageFault>
    ensures frame { IfOk result (λ frame. option_and_then model.frame_written (text_within value.entry) ≡ Some frame) }
    ensures fault { HasFault result (option_fault needed box_option (text_within value.entry)) }
{
    let word = needed(Opt::Frame, value)?;
    frame_written(word).ok_or(UsageFault::BadValue(Opt::Frame))
}

/// The number from `low` to `high` that the option needs.
pub(crate) fn number(
    option: Opt,
    low: u32,
    high: u32,
    value: Option<&str>,
) -> Result<u32, UsageFault>
    ensures number { IfOk result (λ n. option_and_then (model.number_within low high) (text_within value.entry) ≡ Some n) }
    ensures low { IfOk result (λ n. low ≤ n) }
    ensures high { IfOk result (λ n. n ≤ high) }
    ensures fault { HasFault result (fault_by
        (λ word. is_some (model.number_within low high word)) needed (meant_option option) (text_within value.entry)) }
{
    let word = needed(option, value)?;
    number_within(low, high, word).ok_or(UsageFault::BadValue(option))
}

// The value of an option that is needed.
fn needed<'a>(option: Opt, value: Option<&'a str>) -> Result<&'a str, UsageFault>
    ensures { MatchResult result (λ word. text_within value.entry ≡ Some word.now)
        (λ fault. (fault ≡ UsageFault.MissingOption option) × (text_within value.entry ≡ None)) }
{
    value.ok_or(UsageFault::MissingOption(option))
}

/// Refuses an option that is not used here.
pub(crate) fn unneeded(option: Opt, value: Option<&str>) -> Result<(), UsageFault>
    ensures { HasFault result (option_fault unused (meant_option option) (text_within value.entry)) }
{
    match value {
        Some(_) => Err(UsageFault::UnneededOption(option)),
        None => Ok(()),
    }
}

/// Refuses a flag that is not used here.
pub(crate) fn unneeded_flag(option: Opt, given: bool) -> Result<(), UsageFault>
    ensures { HasFault result (option_fault unused (meant_option option) (flag_value given)) }
{
    if given {
        return Err(UsageFault::UnneededOption(option));
    }
    Ok(())
}
