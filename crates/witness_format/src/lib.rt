//! The text of answers, both ways. Their types are those of the crate `answers`, and their lines are read and written by
//! `answer_lines`.
//!
//! - `printing`: the one text of an answer
//! - `reading`: a text as an answer, or why it is refused
//! - `head`: the lines down to that of the size, both ways
//! - `circle`, `sphere`, `rectangle`, `parallelogram`, `strip`, `annulus`, `empty`, `kgon`, `distance`, `centres`,
//!   `furthest`, `four`, `shell`: the lines of each kind between the size and the last line, both ways
//! - `kinds`: the kinds by their names
//! - `line`: lines that several fields of an answer fill
//! - `chord_lines` and `potential_rows`: the lines of a fan with chords, and the rows of a polygon's potentials, whose widths
//!   `row_widths` gives
#![tactic(auto)]

mod annulus;
mod centres;
mod chord_lines;
mod circle;
mod distance;
mod empty;
mod four;
mod furthest;
mod head;
mod kgon;
mod kinds;
mod line;
mod parallelogram;
mod potential_rows;
mod printing;
mod reading;
mod rectangle;
mod row_widths;
mod shell;
mod sphere;
mod strip;

pub use answer_lines::{ReadFault, push_natural, push_size};
pub use answers::{
    AnnulusAnswer, Answer, AnswerList, BallAnswer2, BallAnswer3, Blocker, CentresAnswer, Chord,
    Chords, Dir, Dir3, DistanceAnswer, EmptyAnswer, Entries, Entry, FourAnswer, FurthestAnswer,
    HalfCone, HalfCones, HalfFan, KgonAnswer, Leaf, Leaves, Numbers, ParaAnswer, Potentials,
    QuarterCone, QuarterCones, QuarterFan, RectAnswer, Report, ShellAnswer, Span, StripAnswer,
    Weighted, WeightedPair, full_size, size,
};
pub use printing::{AnswerBytes, print, print_report};
pub use reading::{read, read_report};
