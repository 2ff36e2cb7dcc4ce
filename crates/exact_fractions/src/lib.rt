//! Fractions in lowest terms, and points whose coordinates are fractions over one denominator.
//!
//! - `divisors`: the greatest common divisor, and exact quotients
//! - `fraction`: fractions that are not below 0, and their order
//! - `plane` and `space`: points
#![tactic(auto)]

mod divisors;
mod fraction;
mod plane;
mod space;

pub use divisors::{gcd, quotient};
pub use fraction::Frac;
pub use plane::Homog2;
pub use space::Homog3;
