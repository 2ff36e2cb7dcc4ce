//! The laws of the walk to the best annulus, each the contract of a function that does nothing.
ghost use Rattle.min_annulus.specs.Laws.{IsInGeneralPosition, HasOrigin, SomeVertexLeaves, MeasureFalls};

/// No line through two different differences of points meets the target.
pub fn target_is_in_general_position()
    ensures { IsInGeneralPosition }
{}

/// The origin's weights in a triangle around the target are not below 0.
pub fn triangle_has_origin()
    ensures { HasOrigin }
{}

/// Another difference can replace a vertex, so that the target stays inside.
pub fn some_vertex_leaves()
    ensures { SomeVertexLeaves }
{}

/// The measure falls at each exchange.
pub fn measure_falls()
    ensures { MeasureFalls }
{}
