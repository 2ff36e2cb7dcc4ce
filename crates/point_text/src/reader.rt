//! A point file in the text form, read in pieces of any cut.
ghost use Rattle.std.specs.Prelude.{◌≡◌, ◌≤◌, ◌+◌, ◌^◌, List, ℕ, [], ◌++◌, codes, false, length, IfOk, OnOk, OnErr, Err};
ghost use Rattle.bounds_model.specs.Asks as asks;
ghost use Rattle.bounds_model.specs.Asks.{HasShape, shape_of};
ghost use Rattle.std.specs.List.{All};
ghost use Rattle.bounds_model.specs.PointText.{is_line_feed, file_of_text};
ghost use Rattle.bounded_coords.specs.Asked.{asked};
ghost use Rattle.point_text.specs.declared.text.TextFault.TheVariants as fault;
ghost use Rattle.point_text.specs.Refusals.{Answers};
ghost use Rattle.point_text.specs.Judged.{lines_judged};
ghost use Rattle.point_text.specs.Keeping.{KeepsPoint};

use crate::judgement::Judgement;
use crate::line_in_hand::LineInHand;
use crate::{OwnedSets, TextFault};
use bounded_coords::{Ask, OutOfMemory};
use byte_tools::{index_of, last_index_of};
use std::alloc::Global;

/// What the bytes of a text come to so far, for what is asked. It keeps points, and no bytes.
#[derive(Drop)]
pub struct Reader {
    taken: u32,
    judgement: Judgement,
    line: LineInHand,
    /// Whether the line in hand has a byte.
    begun: bool,
    ghost short: { taken ≤ 2 ^ 21 },
    ghost counted: { lines_judged judgement ≤ taken },
}

/// Whether there is a byte, where there was one before this part, or not.
fn has_byte(before: bool, part: &[u8]) -> bool
    ensures { result ≡ false → (before ≡ false) × (part.now ≡ []) }
{
    before || !part.is_empty()
}

impl Reader {
    ghost use Rattle.point_text.specs.Reading.{StandsFor, HasFailed, Reads, bytes_taken};

    /// The reader of no bytes. It takes no memory.
    pub fn new(alloc: Global, ask: &Ask) -> Reader
        ensures stands { StandsFor result (shape_of (asked ask.now)) [] }
        ensures fresh { HasFailed result → ⊥ }
    {
        Reader {
            taken: 0,
            judgement: Judgement::new(alloc, ask.shape()),
            line: LineInHand::new(),
            begun: false,
        }
    }

    /// How many bytes it took.
    pub fn taken(&self) -> u32
        ensures { result ≡ bytes_taken self.now }
    {
        self.taken
    }

    /// Reads bytes that end no line.
    fn go_on(&mut self, part: &[u8])
        requires short { bytes_taken self.old + length part.now ≤ 2 ^ 21 }
        requires within { All (λ b. is_line_feed b ≡ false) part.now }
        ensures taken { bytes_taken self.new ≡ bytes_taken self.old + length part.now }
        ensures stands { (shape : asks.Shape) (bytes : List ℕ) → StandsFor self.old shape bytes → StandsFor self.new shape (bytes ++ part.now) }
        ensures stays { HasFailed self.old → HasFailed self.new }
    {
        self.taken += part.len() as u32;
        self.line = self.line.with(part);
        self.begun = has_byte(self.begun, part);
    }

    /// Reads bytes and a line feed behind them, the first one.
    fn end_line(&mut self, part: &[u8])
        requires short { bytes_taken self.old + length part.now + 1 ≤ 2 ^ 21 }
        requires within { All (λ b. is_line_feed b ≡ false) part.now }
        ensures taken { bytes_taken self.new ≡ bytes_taken self.old + length part.now + 1 }
        ensures stands { (shape : asks.Shape) (bytes : List ℕ) → StandsFor self.old shape bytes → StandsFor self.new shape (bytes ++ part.now ++ codes "\n") }
        ensures stays { HasFailed self.old → HasFailed self.new }
    {
        self.taken += part.len() as u32 + 1;
        // A line that is whole in its piece is read as one slice, which is faster.
        if !self.begun {
            self.judgement.take_line(part);
            return;
        }
        self.judgement.take(self.line.with(part).end());
        self.line = LineInHand::new();
        self.begun = false;
    }

    /// Reads the lines that end in a piece without a look at them, where they come behind the first fault. What is left of the piece is the
    /// result.
    fn pass_lines<'a>(&mut self, piece: &'a [u8]) -> &'a [u8]
        requires { bytes_taken self.old + length piece.now ≤ 2 ^ 21 }
        ensures { Reads self.old self.new piece.now result.now }
    {
        if !self.judgement.has_fault() {
            return piece;
        }
        match last_index_of(piece, b'\n') {
            None => piece,
            Some(index) => {
                self.taken += index as u32 + 1;
                self.line = LineInHand::new();
                self.begun = false;
                &piece[index + 1..]
            }
        }
    }

    /// Reads the next bytes, which may be cut anywhere. A fault of the text does not end the reading. Where
    /// memory was refused, the reader has failed, now and at every later call; then a point is kept of the text, whatever bytes
    /// follow.
    pub fn feed(&mut self, piece: &[u8]) -> Result<(), OutOfMemory>
        requires { bytes_taken self.old + length piece.now ≤ 2 ^ 21 }
        ensures taken { bytes_taken self.new ≡ bytes_taken self.old + length piece.now }
        ensures stands { (shape : asks.Shape) (bytes : List ℕ) → StandsFor self.old shape bytes → StandsFor self.new shape (bytes ++ piece.now) }
        ensures going { OnOk result (HasFailed self.new → ⊥) }
        ensures failed { OnErr result (HasFailed self.new) }
        ensures memory { OnErr result ((shape : asks.Shape) (bytes more : List ℕ) → StandsFor self.old shape bytes
            → KeepsPoint shape ((bytes ++ piece.now) ++ more)) }
        ensures stays { HasFailed self.old → HasFailed self.new }
    {
        let mut rest = self.pass_lines(piece);
        'lines: while let Some(index) = index_of(rest, b'\n') {
            self.end_line(&rest[..index]);
            rest = &rest[index + 1..];
        }
        self.go_on(rest);
        if self.judgement.has_failed() {
            return Err(OutOfMemory);
        }
        Ok(())
    }

    /// The sets of the text that ends here with their scale, or why it is refused. Memory may be wanting only where a point is kept.
    pub fn finish(self) -> Result<OwnedSets, TextFault>
        ensures sets { (shape : asks.Shape) (bytes : List ℕ) → StandsFor self shape bytes → Answers result (file_of_text shape bytes) }
        ensures suits { IfOk result (λ file. (shape : asks.Shape) (bytes : List ℕ) → StandsFor self shape bytes → HasShape shape file.sets) }
        ensures memory { result ≡ Err fault.OutOfMemory → (shape : asks.Shape) (bytes : List ℕ) → StandsFor self shape bytes → KeepsPoint shape bytes }
        ensures failed { HasFailed self → result ≡ Err fault.OutOfMemory }
    {
        let Reader {
            mut judgement,
            line,
            ..
        } = self;
        judgement.take(line.end());
        judgement.end()
    }
}
