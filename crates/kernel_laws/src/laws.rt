//! The laws of signs, each the contract of a function that does nothing.
ghost use Rattle.std.specs.Prelude.{◌≡◌};
ghost use Rattle.bounds_model.specs.Plane.{PlanePoint, turn};
ghost use Rattle.kernel_laws.specs.Signs.{sign_of, opposite};

/// A cyclic turn of three points keeps the sign of their orientation.
pub fn turn_begins_anywhere()
    ensures { (a b c : PlanePoint) → sign_of (turn b c a) ≡ sign_of (turn a b c) }
{}

/// Two points that are exchanged turn the sign of the orientation.
pub fn swap_turns_sign()
    ensures { (a b c : PlanePoint) → sign_of (turn a c b) ≡ opposite (sign_of (turn a b c)) }
{}
