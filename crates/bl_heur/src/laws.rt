//! Laws over definitions: each is what a function with nothing to do ensures.
ghost use Rattle.bl_heur.specs.Dives.{DivesEnd};

/// A dive ends by itself: it never needs more turns than there are columns, and one for the end.
pub fn dives_end()
    ensures { DivesEnd }
{}
