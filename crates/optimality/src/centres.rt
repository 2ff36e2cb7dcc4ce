//! Centres: two far points in each leaf of a tree of corners show that no smaller squares, as many, cover the points.

ghost use Rattle.optimality.specs.Laws.{PassingCentresAreBest, PassingFourAreBest};

/// Centres that pass have the least radius of all covers by as many squares.
pub fn passing_centres_are_best()
    ensures { PassingCentresAreBest }
{}

/// Four centres that pass have the least radius of all covers by four squares: at each height of a first square over the
/// least point, sixteen leaves show that no three others cover what it leaves over.
pub fn passing_four_are_best()
    ensures { PassingFourAreBest }
{}
