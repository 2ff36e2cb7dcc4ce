//! Spheres: weights on the supports show that no sphere around the points is smaller.

ghost use Rattle.optimality.specs.Laws.{PassingSpheresAreBest};

/// A sphere that passes is the smallest around its points.
pub fn passing_spheres_are_best()
    ensures { PassingSpheresAreBest }
{}
