//! Lists of points.
ghost use Rattle.std.specs.Prelude.{◌≡◌, ◌↔◌, [], ◌∷◌, ◌++◌, ◌≤◌, length, OnOk, OnErr, IsNone, IfSome, IsTrue, Err};
ghost use Rattle.bounded_coords.specs.Clouds.{points_of};
ghost use Rattle.bounded_coords.specs.declared.points.PushFault.TheVariants.{Full};

use crate::cloud::MOST_POINTS;
use crate::{Cloud, Point2, Point3};
use std::alloc::Global;
use std::error::Error;
use std::fmt;
use std::marker::Model;

/// At most 10000 points, in the order in which they were pushed, repeats kept.
#[derive(Drop)]
pub struct Points<P> {
    points: Vec<P>,
}

/// At most 10000 points of the plane.
pub type Points2 = Points<Point2>;

/// At most 10000 points of space.
pub type Points3 = Points<Point3>;

impl<P> Model for Points<P> {
    ghost use Rattle.std.specs.Prelude.{List, ◌≤◌, length};

    ghost Value = { List P };

    ghost view = { λ p. p.points.items };

    ghost invariant = { λ p. length p.points.items ≤ 10000 };
}

/// Why a point was not added.
#[derive(Clone, Copy, Debug, PartialEq, Eq)]
pub enum PushFault {
    /// The list has 10000 points.
    Full,
    /// Memory was refused.
    OutOfMemory,
}

impl fmt::Display for PushFault {
    ghost use Rattle.std.specs.Prelude.{Some};
    ghost use Rattle.bounded_coords.specs.Messages.{push_message};

    ghost output = { λ fault. Some (push_message fault) };

    fn fmt<W: fmt::Write>(&self, f: &mut fmt::Formatter<W>) -> fmt::Result {
        f.write_str(match self {
            PushFault::Full => "the list has 10000 points",
            PushFault::OutOfMemory => "out of memory",
        })
    }
}

impl Error for PushFault {}

impl<P: Copy> Points<P> {
    /// The empty list. It takes no memory.
    pub fn new(alloc: Global) -> Points<P>
        ensures { result ≡ [] }
    {
        Points {
            points: Vec::new(alloc),
        }
    }

    /// Adds a point at the end. A list that refuses it stays as it was.
    pub fn push(&mut self, p: P) -> Result<(), PushFault>
        ensures added { OnOk result (self.new ≡ self.old ++ p ∷ []) }
        ensures same { OnErr result (self.new ≡ self.old) }
        ensures full { (result ≡ Err Full) ↔ (length self.old ≡ 10000) }
    {
        if self.points.len() == MOST_POINTS {
            return Err(PushFault::Full);
        }
        match self.points.push(p) {
            Ok(()) => Ok(()),
            Err(_) => Err(PushFault::OutOfMemory),
        }
    }

    /// Whether there are no points.
    pub fn is_empty(&self) -> bool
        ensures { IsTrue result ↔ (self.now ≡ []) }
    {
        self.points.is_empty()
    }

    /// The points as a cloud, or None where there are none.
    pub fn cloud(&self) -> Option<Cloud<'_, P>>
        ensures empty { IsNone result ↔ (self.now ≡ []) }
        ensures points { IfSome result (λ c. points_of c ≡ self.now) }
    {
        Cloud::from_slice(&self.points)
    }
}
