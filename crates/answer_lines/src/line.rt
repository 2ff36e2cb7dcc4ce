//! Values that fill a line, behind a word or alone. A line is said once, as its fields, and is read and printed by them.
ghost use Rattle.std.specs.Prelude.{◌≡◌};

use crate::field_list::FieldList;
use crate::field_value::FieldValue;
use answers::{Dir, Dir3, Entry, HalfCone, Leaf, QuarterCone, Span, Weighted, WeightedPair};

/// A value that fills a line.
pub trait Line: Copy {
    /// Its fields: a pair of the first one and the others, and `()` behind the last.
    type Fields: FieldList;

    /// The fields of this value.
    ghost parts: { Self → Self.Fields };

    /// The fields of this value.
    fn parts(&self) -> Self::Fields
        ensures { result ≡ parts self.now };

    /// The value of these fields.
    fn of(fields: Self::Fields) -> Self
        ensures { parts result ≡ fields };
}

// ---- fields one after the other, as nests of pairs

/// One field.
pub type One<A> = (A, ());
/// Two fields.
pub type Two<A, B> = (A, One<B>);
/// Three fields.
pub type Three<A, B, C> = (A, Two<B, C>);
/// Four fields.
pub type Four<A, B, C, D> = (A, Three<B, C, D>);
/// Five fields.
pub type Five<A, B, C, D, E> = (A, Four<B, C, D, E>);
/// Six fields.
pub type Six<A, B, C, D, E, F> = (A, Five<B, C, D, E, F>);

// ---- values

/// No field at all.
impl Line for () {
    type Fields = ();

    ghost parts = { λ x. x };

    fn parts(&self) {}

    fn of(_fields: ()) {}
}

/// A single field.
impl<A: FieldValue> Line for A {
    type Fields = One<A>;

    ghost parts = { λ a. (a, tt) };

    fn parts(&self) -> One<A> {
        (*self, ())
    }

    fn of((a, ()): One<A>) -> A {
        a
    }
}

impl Line for Weighted {
    type Fields = Two<u32, u128>;

    ghost parts = { λ x. (x.point, (x.weight, tt)) };

    fn parts(&self) -> Two<u32, u128> {
        (self.point, (self.weight, ()))
    }

    fn of((point, (weight, ())): Two<u32, u128>) -> Weighted {
        Weighted { point, weight }
    }
}

impl Line for WeightedPair {
    type Fields = Three<u32, u32, u128>;

    ghost parts = { λ x. (x.first, (x.second, (x.weight, tt))) };

    fn parts(&self) -> Three<u32, u32, u128> {
        (self.first, (self.second, (self.weight, ())))
    }

    fn of((first, (second, (weight, ()))): Three<u32, u32, u128>) -> WeightedPair {
        WeightedPair {
            first,
            second,
            weight,
        }
    }
}

impl Line for Leaf {
    type Fields = Two<u32, u32>;

    ghost parts = { λ x. (x.first, (x.second, tt)) };

    fn parts(&self) -> Two<u32, u32> {
        (self.first, (self.second, ()))
    }

    fn of((first, (second, ())): Two<u32, u32>) -> Leaf {
        Leaf { first, second }
    }
}

impl Line for Entry {
    type Fields = Two<u32, u32>;

    ghost parts = { λ x. (x.corner, (x.far, tt)) };

    fn parts(&self) -> Two<u32, u32> {
        (self.corner, (self.far, ()))
    }

    fn of((corner, (far, ())): Two<u32, u32>) -> Entry {
        Entry { corner, far }
    }
}

impl Line for Dir {
    type Fields = Two<i128, i128>;

    ghost parts = { λ x. (x.x, (x.y, tt)) };

    fn parts(&self) -> Two<i128, i128> {
        (self.x, (self.y, ()))
    }

    fn of((x, (y, ())): Two<i128, i128>) -> Dir {
        Dir { x, y }
    }
}

impl Line for Dir3 {
    type Fields = Three<i128, i128, i128>;

    ghost parts = { λ x. (x.x, (x.y, (x.z, tt))) };

    fn parts(&self) -> Three<i128, i128, i128> {
        (self.x, (self.y, (self.z, ())))
    }

    fn of((x, (y, (z, ()))): Three<i128, i128, i128>) -> Dir3 {
        Dir3 { x, y, z }
    }
}

impl Line for Span {
    type Fields = Two<i128, i128>;

    ghost parts = { λ x. (x.lo, (x.hi, tt)) };

    fn parts(&self) -> Two<i128, i128> {
        (self.lo, (self.hi, ()))
    }

    fn of((lo, (hi, ())): Two<i128, i128>) -> Span {
        Span { lo, hi }
    }
}

impl Line for HalfCone {
    type Fields = Four<i128, i128, u32, u32>;

    ghost parts = { λ x. (x.dir.x, (x.dir.y, (x.hi, (x.lo, tt)))) };

    fn parts(&self) -> Four<i128, i128, u32, u32> {
        (self.dir.x, (self.dir.y, (self.hi, (self.lo, ()))))
    }

    fn of((x, (y, (hi, (lo, ())))): Four<i128, i128, u32, u32>) -> HalfCone {
        let dir = Dir { x, y };
        HalfCone { dir, hi, lo }
    }
}

/// A direction, and the numbers of four points.
type QuarterFields = Six<i128, i128, u32, u32, u32, u32>;

impl Line for QuarterCone {
    type Fields = QuarterFields;

    ghost parts = { λ x. (x.dir.x, (x.dir.y, (x.hi, (x.lo, (x.over, (x.under, tt)))))) };

    fn parts(&self) -> QuarterFields {
        let points = (self.hi, (self.lo, (self.over, (self.under, ()))));
        (self.dir.x, (self.dir.y, points))
    }

    fn of((x, (y, (hi, (lo, (over, (under, ())))))): QuarterFields) -> QuarterCone {
        let dir = Dir { x, y };
        QuarterCone {
            dir,
            hi,
            lo,
            over,
            under,
        }
    }
}
