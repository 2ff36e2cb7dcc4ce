//! The slack for balls and the slack for distances.
ghost use Rattle.std.specs.Prelude.{◌≡◌, ◌⊎◌, ℤ, pos};

/// Which slack vectors have under weighted vectors. With W the sum of the weights and S the weighted sum of the vectors, that of x is
/// 2 x·S - SQUARE W |x|².
pub trait Potential {
    const SQUARE: i128;

    ghost SQUARE: { ℤ };

    ghost zero_or_one: { (SQUARE ≡ pos 0) ⊎ (SQUARE ≡ pos 1) };
}

/// The slack for the smallest circle or sphere: items of equal slack lie on a ball round the weighted mean, and one of less slack outside.
#[derive(Clone, Copy, Debug)]
pub struct BallPotential;

impl Potential for BallPotential {
    ghost use Rattle.std.specs.Prelude.{pos};
    ghost use Rattle.std.proofs.Common.{inr, refl};

    const SQUARE: i128 = 1;

    ghost SQUARE = { pos 1 };

    ghost zero_or_one = { inr refl };
}

/// The slack for the least distance from the origin: items of equal slack lie on a plane that the weighted mean is normal to.
#[derive(Clone, Copy, Debug)]
pub struct NormPotential;

impl Potential for NormPotential {
    ghost use Rattle.std.specs.Prelude.{pos};
    ghost use Rattle.std.proofs.Common.{inl, refl};

    const SQUARE: i128 = 0;

    ghost SQUARE = { pos 0 };

    ghost zero_or_one = { inl refl };
}
