//! Laws of whole numbers, for the proofs of the crates above: no later proof works out a polynomial, an order of products, a sum over
//! a list or a 128-bit overflow by hand. The laws stand in `proofs/`, each with a line that says what it claims, and `rt lemma` finds them;
//! the words that contracts cite stand in `specs/`.
//!
//! - `Identities`: an identity of polynomials in one line, with a guide at its head. Below it stand `Polynomials` and `RingLaws`.
//! - `Order` and `Magnitudes`: signs and orders of products, cancelling, squares, an order from a difference, linear combinations of equations; magnitudes.
//! - `Sums` and `Extremes`: the sum, the greatest and the least value of a function over a list, and the steps of loops.
//! - `Sizes`, `MachineArithmetic` and `UnsignedArithmetic`: bounds, and overflows and results at 32, 64 and 128 bits in one line.
//! - `Divisors`, `LowestTerms`, `Fractions` and `LeastDifferences`: the greatest common divisor, the one lowest form, orders, how far apart fractions lie.
//! - `Lagrange`, `ParallelAxis`, `Cone`, `Circles` and `Cramer`: identities of geometry over plain variables.
//! - `Lists` and `Narrowing`: properties of a list one element after another, and numbers that become narrower in code.
//!
//! [`laws`] has the main laws as contracts.
#![tactic(auto)]

pub mod laws;
