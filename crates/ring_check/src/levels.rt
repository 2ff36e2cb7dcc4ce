//! The greatest and the least level of the points around a centre.
ghost use Rattle.std.specs.Prelude.{◌^◌};
ghost use Rattle.ring_check.specs.Rings.{ratio_of, IsCentre, AreLevels, places_of};

use crate::centres::Centre;
use crate::places::Place;
use bounded_coords::Cloud;

/// The greatest and the least level of the points.
#[derive(Clone, Copy)]
pub(crate) struct Levels {
    pub(crate) greatest: i128,
    pub(crate) least: i128,
}

impl Levels {
    /// Around a centre. This is one pass.
    pub(crate) fn of<P: Place>(cloud: Cloud<'_, P>, centre: Centre) -> Levels
        requires { IsCentre (2 ^ 50) (ratio_of centre) }
        ensures { AreLevels (ratio_of centre) (places_of P.place cloud.entry) result }
    {
        let first = centre.level(cloud.at(0).vector());
        let mut levels = Levels {
            greatest: first,
            least: first,
        };
        for i in 1..cloud.len() {
            let level = centre.level(cloud.at(i).vector());
            levels = Levels {
                greatest: levels.greatest.max(level),
                least: levels.least.min(level),
            };
        }
        levels
    }
}
