//! Empty rectangles, and what stops them.
use exact_fractions::Frac;

/// What a side of an empty rectangle rests on.
#[derive(Clone, Copy, Debug, Default, PartialEq, Eq)]
pub enum Blocker {
    /// The side of the frame.
    #[default]
    Side,
    /// The point of this number.
    Point(u32),
}

/// The largest rectangle in a frame with no point inside, from (`l`, `b`) to (`r`, `t`), and what each side rests on.
#[derive(Clone, Copy, Debug, PartialEq, Eq)]
pub struct EmptyAnswer {
    /// The area.
    pub size: Frac,
    /// The x of the left side.
    pub l: i128,
    /// The y of the bottom.
    pub b: i128,
    /// The x of the right side.
    pub r: i128,
    /// The y of the top.
    pub t: i128,
    /// What the left side rests on.
    pub left: Blocker,
    /// What the bottom rests on.
    pub bottom: Blocker,
    /// What the right side rests on.
    pub right: Blocker,
    /// What the top rests on.
    pub top: Blocker,
}
