//! The checker of answers that anyone made: it looks at the points and the answer alone, and says yes exactly where the answer's
//! witness shows that the answer is best. Each kind is judged in a crate of its own.
//!
//! - `judging`: an answer of any kind
//! - `reports`: an answer at the scale of a point file
#![tactic(auto)]

mod judging;
mod reports;

pub use ball_check::{check_circle, check_sphere};
pub use centres_check::{check_centres, check_four};
pub use distance_check::check_distance;
pub use empty_check::check_empty;
pub use fan_checks::{check_parallelogram, check_rectangle, check_strip};
pub use furthest_check::check_furthest;
pub use judging::check;
pub use polygon_check::check_kgon;
pub use reports::check_report;
pub use ring_check::{check_annulus, check_shell};
