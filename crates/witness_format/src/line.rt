//! Lines that several fields of an answer fill.

use answer_lines::{Four, Line};
use answers::{Chord, Dir, HalfCone, Span};

/// A normal with its bounds.
#[derive(Clone, Copy, Debug, PartialEq, Eq)]
pub(crate) struct Side {
    pub(crate) normal: Dir,
    pub(crate) span: Span,
}

impl Line for Side {
    type Fields = Four<i128, i128, i128, i128>;

    ghost parts = { λ x. (x.normal.x, (x.normal.y, (x.span.lo, (x.span.hi, tt)))) };

    fn parts(&self) -> Four<i128, i128, i128, i128> {
        (
            self.normal.x,
            (self.normal.y, (self.span.lo, (self.span.hi, ()))),
        )
    }

    fn of((x, (y, (lo, (hi, ())))): Four<i128, i128, i128, i128>) -> Side {
        let normal = Dir { x, y };
        let span = Span { lo, hi };
        Side { normal, span }
    }
}

/// The sides of an axis-parallel rectangle.
#[derive(Clone, Copy, Debug, PartialEq, Eq)]
pub(crate) struct Edges {
    pub(crate) left: i128,
    pub(crate) bottom: i128,
    pub(crate) right: i128,
    pub(crate) top: i128,
}

impl Line for Edges {
    type Fields = Four<i128, i128, i128, i128>;

    ghost parts = { λ x. (x.left, (x.bottom, (x.right, (x.top, tt)))) };

    fn parts(&self) -> Four<i128, i128, i128, i128> {
        (self.left, (self.bottom, (self.right, (self.top, ()))))
    }

    fn of((left, (bottom, (right, (top, ())))): Four<i128, i128, i128, i128>) -> Edges {
        Edges {
            left,
            bottom,
            right,
            top,
        }
    }
}

/// A cone, and the chord across its first direction.
#[derive(Clone, Copy, Debug, PartialEq, Eq)]
pub(crate) struct ChordedCone {
    pub(crate) cone: HalfCone,
    pub(crate) chord: Chord,
}

/// The fields of a cone, and behind them those of the chord.
type ChordedFields = (i128, (i128, (u32, (u32, Chord))));

impl Line for ChordedCone {
    type Fields = ChordedFields;

    ghost parts = { λ x. (x.cone.dir.x, (x.cone.dir.y, (x.cone.hi, (x.cone.lo, x.chord)))) };

    fn parts(&self) -> ChordedFields {
        let cone = self.cone;
        (cone.dir.x, (cone.dir.y, (cone.hi, (cone.lo, self.chord))))
    }

    fn of((x, (y, (hi, (lo, chord)))): ChordedFields) -> ChordedCone {
        let dir = Dir { x, y };
        let cone = HalfCone { dir, hi, lo };
        ChordedCone { cone, chord }
    }
}

/// The last direction of a fan, and the chord across it.
#[derive(Clone, Copy, Debug, PartialEq, Eq)]
pub(crate) struct ChordedEnd {
    pub(crate) dir: Dir,
    pub(crate) chord: Chord,
}

/// The fields of a direction, and behind them those of the chord.
type EndFields = (i128, (i128, Chord));

impl Line for ChordedEnd {
    type Fields = EndFields;

    ghost parts = { λ x. (x.dir.x, (x.dir.y, x.chord)) };

    fn parts(&self) -> EndFields {
        (self.dir.x, (self.dir.y, self.chord))
    }

    fn of((x, (y, chord)): EndFields) -> ChordedEnd {
        let dir = Dir { x, y };
        ChordedEnd { dir, chord }
    }
}
