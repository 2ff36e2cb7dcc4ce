//! Answers of all kinds: their types, and what they mean in the words of the model.
//!
//! - `answer`: an answer of any kind, and its size
//! - `answer_list`: the lists in answers
//! - `balls`: circles and spheres
//! - `fans`: directions, bounds and caliper fans; strips and rectangles
//! - `parallelograms`: chords and parallelograms
//! - `pairs`: weighted pairs of points; annuli, shells and distances
//! - `empty_rectangles`, `polygons`, `centres`: the other objects
//! - `furthests`: the hull's corners, each with its furthest one
//! - `report`: an answer at the scale of a point file
#![tactic(auto)]

mod answer;
mod answer_list;
mod balls;
mod centres;
mod empty_rectangles;
mod fans;
mod furthests;
mod pairs;
mod parallelograms;
mod polygons;
mod report;

pub use answer::{Answer, size};
pub use answer_list::AnswerList;
pub use balls::{BallAnswer2, BallAnswer3, Weighted};
pub use centres::{CentresAnswer, FourAnswer, Leaf, Leaves};
pub use empty_rectangles::{Blocker, EmptyAnswer};
pub use fans::{
    Dir, HalfCone, HalfCones, HalfFan, QuarterCone, QuarterCones, QuarterFan, RectAnswer, Span,
    StripAnswer,
};
pub use furthests::{Entries, Entry, FurthestAnswer};
pub use pairs::{AnnulusAnswer, Dir3, DistanceAnswer, ShellAnswer, WeightedPair};
pub use parallelograms::{Chord, Chords, ParaAnswer};
pub use polygons::{KgonAnswer, Numbers, Potentials};
pub use report::{Report, full_size};
