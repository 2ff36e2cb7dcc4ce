//! The checker of polygons: it looks at the points and the answer alone, and says yes exactly where the corners listed go once around all
//! points, the chosen ones have the printed area, and the potentials show that no polygon of so few corners has more.
//!
//! - `polygons`: the checker
//! - `potentials`: that each further triangle raises the potentials
//! - `rows`: the potentials of one first corner
//! - `firsts`: that no corner was passed over which reaches the size
//! - `corners`: the listed corners as points
#![tactic(auto)]

mod corners;
mod firsts;
mod polygons;
mod potentials;
mod rows;

pub use polygons::check_kgon;
