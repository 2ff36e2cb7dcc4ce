//! Lines, judged in their order.
ghost use Rattle.std.specs.Prelude.{◌≡◌, ◌↔◌, IsTrue, Err, ◌≤◌, ◌<◌, ◌+◌, ◌^◌, true, List, [], ◌∷◌, ◌++◌, IfOk, IfErr, IfSome, Some, None};
ghost use Rattle.std.specs.Option.{is_some};
ghost use Rattle.bounds_model.specs.PointText.{Meaning, sets_of, scale_of, first_refusal};
ghost use Rattle.bounds_model.specs.Asks.{scale_limit};
ghost use Rattle.point_text.specs.declared.text.TextFault.TheVariants as fault;
ghost use Rattle.point_text.specs.Keeping.{keeps_point};

use crate::TextFault;
use crate::kept::KeptSets;
use crate::line::{Line, TextPoint, read_line};
use bounded_coords::PushFault;
use std::alloc::Global;

/// The greatest scale.
const MOST_UNITS: u32 = 1000;

/// What the lines so far come to: their sets, or the first fault.
#[derive(Drop)]
pub(crate) struct Judge<P> {
    sets: KeptSets<P>,
    lines: u32,
    /// How many units make a whole one.
    scale: u16,
    /// Whether a line was read that no scale may follow.
    begun: bool,
    fault: Option<TextFault>,
    ghost scale_from: { 1 ≤ scale },
    ghost scale_to: { scale ≤ scale_limit },
    ghost few: { sets.count ≤ lines + 1 },
}

impl<P: Copy> Judge<P> {
    ghost use Rattle.point_text.specs.Lines.{Means};
    ghost use Rattle.point_text.specs.Kept.{Keeps};
    ghost use Rattle.point_text.specs.Refusals.{refusal_of};
    ghost use Rattle.point_text.specs.Judged.{HasJudged};

    /// No line so far.
    pub(crate) fn new(alloc: Global) -> Judge<P>
        ensures judged { HasJudged result [] }
        ensures lines { result.lines ≡ 0 }
        ensures fault { result.fault ≡ None }
    {
        Judge {
            sets: KeptSets::new(alloc),
            lines: 0,
            scale: 1,
            begun: false,
            fault: None,
        }
    }

    /// Judges what the next line says. Behind the first fault nothing is kept.
    pub(crate) fn take(&mut self, line: Line<P>)
        requires { self.old.lines + 2 < 2 ^ 32 }
        ensures judged { (before : List (Meaning P)) (meaning : Meaning P) → HasJudged self.old before → Means line meaning
            → HasJudged self.new (before ++ meaning ∷ []) }
        ensures lines { self.new.lines ≤ self.old.lines + 1 }
        ensures failed { self.old.fault ≡ Some fault.OutOfMemory → self.new.fault ≡ Some fault.OutOfMemory }
    {
        if self.fault.is_some() {
            return;
        }
        self.lines += 1;
        match line {
            Line::Nothing => {}
            Line::EndOfSet => {
                self.sets.end_set();
                self.begun = true;
            }
            Line::Scale(_) if self.begun => self.fault = Some(TextFault::BadLine(self.lines)),
            Line::Scale(scale) if scale == 0 || scale > MOST_UNITS => self.fault = Some(
                TextFault::OutOfRange(self.lines),
            ),
            Line::Scale(scale) => {
                self.scale = scale as u16;
                self.begun = true;
            }
            Line::Point(p) => match self.sets.add(p) {
                Ok(()) => self.begun = true,
                Err(PushFault::Full) => self.fault = Some(TextFault::TooMany(self.lines)),
                Err(PushFault::OutOfMemory) => self.fault = Some(TextFault::OutOfMemory),
            },
            Line::Bad => self.fault = Some(TextFault::BadLine(self.lines)),
            Line::OutOfRange => self.fault = Some(TextFault::OutOfRange(self.lines)),
        }
    }

    /// Whether there was a fault.
    pub(crate) fn has_fault(&self) -> bool
        ensures { result ≡ is_some self.now.fault }
    {
        self.fault.is_some()
    }

    /// Whether memory was refused.
    pub(crate) fn has_failed(&self) -> bool
        ensures { IsTrue result ↔ (self.now.fault ≡ Some fault.OutOfMemory) }
    {
        matches!(self.fault, Some(TextFault::OutOfMemory))
    }

    /// The sets of the lines and their scale, or the first fault.
    pub(crate) fn end(self) -> Result<(KeptSets<P>, u16), TextFault>
        ensures accepted { IfOk result (λ ended. (lines : List (Meaning P)) → HasJudged self lines → first_refusal [] lines ≡ None) }
        ensures sets { IfOk result (λ ended. (lines : List (Meaning P)) → HasJudged self lines → Keeps ended.0 (sets_of lines)) }
        ensures scale { IfOk result (λ ended. (lines : List (Meaning P)) → HasJudged self lines → scale_of lines ≡ ended.1) }
        ensures range { IfOk result (λ ended. (1 ≤ ended.1) × (ended.1 ≤ scale_limit)) }
        ensures refused { IfErr result (λ fault. (lines : List (Meaning P)) → HasJudged self lines
            → IfSome (refusal_of fault) (λ refusal. first_refusal [] lines ≡ Some refusal)) }
        ensures memory { result ≡ Err fault.OutOfMemory → (lines : List (Meaning P)) → HasJudged self lines → keeps_point lines ≡ true }
        ensures failed { self.fault ≡ Some fault.OutOfMemory → result ≡ Err fault.OutOfMemory }
    {
        match self.fault {
            Some(fault) => Err(fault),
            None => Ok((self.sets, self.scale)),
        }
    }
}

impl<P: TextPoint> Judge<P> {
    ghost use Rattle.bounds_model.specs.PointText.{line_meaning};
    ghost use Rattle.point_text.specs.Judged.{HasJudged};

    /// Judges the next line, given whole and without its line feed. Behind the first fault it is not looked at.
    pub(crate) fn take_line(&mut self, line: &[u8])
        requires { self.old.lines + 2 < 2 ^ 32 }
        ensures judged { (before : List (Meaning P)) → HasJudged self.old before
            → HasJudged self.new (before ++ line_meaning P.numbers_meaning line.now ∷ []) }
        ensures lines { self.new.lines ≤ self.old.lines + 1 }
        ensures failed { self.old.fault ≡ Some fault.OutOfMemory → self.new.fault ≡ Some fault.OutOfMemory }
    {
        if self.fault.is_some() {
            return;
        }
        self.take(read_line(line));
    }
}
