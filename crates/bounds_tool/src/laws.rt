//! What the contract of the top call comes to for two runs.
ghost use Rattle.bounds_tool.specs.Laws.{WrittenIsConfirmed};

/// Where `check` is given the points of a run and the answer that this run wrote, it ends with `Done`, unless memory is wanting.
pub fn what_is_written_is_confirmed()
    ensures { WrittenIsConfirmed }
{}
