//! The laws of an exchange, each the contract of a function that does nothing.
ghost use Rattle.corral.specs.Laws.{NoneLowIsBest, WalkEndsAtSupports, SomePartSettles, NotAllAreRefuted, ValueRises, MeasureFalls, TooManyAreDependent};

/// No weights have a greater value than supports under which none of their vectors is low.
pub fn none_low_is_best()
    ensures { NoneLowIsBest }
{}

/// A walk that drops vectors ends at supports of no less value.
pub fn walk_ends_at_supports()
    ensures { WalkEndsAtSupports }
{}

/// Some part of a list of vectors has supports that settle the list.
pub fn some_part_settles()
    ensures { SomePartSettles }
{}

/// A search over all parts finds one.
pub fn not_all_are_refuted()
    ensures { NotAllAreRefuted }
{}

/// The value rises at each exchange.
pub fn value_rises()
    ensures { ValueRises }
{}

/// The measure falls where the value rises.
pub fn measure_falls()
    ensures { MeasureFalls }
{}

/// As many vectors as dimensions, and two more, are affinely dependent.
pub fn too_many_are_dependent()
    ensures { TooManyAreDependent }
{}
