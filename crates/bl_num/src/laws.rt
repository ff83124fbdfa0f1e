//! What reading, writing and rounding come to.
ghost use Rattle.bl_num.specs.Laws.{CanonicalIsOne, ReadsCanonically, ReadsSpelled};
ghost use Rattle.bl_num.specs.Laws.{RefusesOthers, UnitsKeepValue};
ghost use Rattle.bl_num.specs.Laws.{CanonicalReadsBack, ReadsWithinLimits, WritesReadably};
ghost use Rattle.bl_num.specs.Laws.{CeilingIsLeast, FloorIsGreatest};

/// A text that is put together from a sign, digits, a point and an exponent reads as the one
/// canonical decimal of its value, and every other text is refused for its spelling.
pub fn spelled_texts_read_as_their_values()
    ensures spelled { ReadsSpelled }
    ensures others { RefusesOthers }
    ensures one { CanonicalIsOne }
{}

/// What a text reads as is canonical and within the limits.
pub fn read_numbers_are_canonical()
    ensures { ReadsCanonically }
{}

/// A decimal in finer units has the same value.
pub fn units_keep_the_value()
    ensures { UnitsKeepValue }
{}

/// What is written as text reads back.
pub fn written_numbers_read_back()
    ensures back { WritesReadably }
    ensures within { ReadsWithinLimits }
    ensures same { CanonicalReadsBack }
{}

/// Quotients are rounded down to the greatest whole number below, and up to the least above.
pub fn quotients_are_rounded()
    ensures down { FloorIsGreatest }
    ensures up { CeilingIsLeast }
{}
