//! Why columns give no cover cut.
ghost use Rattle.std.specs.Prelude.{◌≡◌};
ghost use Rattle.bl_cover.specs.declared.fault.CoverFault.TheVariants.{Memory};

use std::alloc::AllocError;

/// Why columns of a row give no cover cut.
#[derive(Debug, Drop, PartialEq, Eq)]
pub enum CoverFault {
    /// The row has no high end.
    NoEnd,
    /// The column at this place of the list isn't above the one before it, or isn't a column of
    /// bounds 0 and 1 with a positive coefficient in the row.
    Column { place: u32 },
    /// All columns may be 1: the row then has this much left below its high end.
    Fits { slack: i128 },
    /// There is not enough memory.
    Memory,
}

impl From<AllocError> for CoverFault {
    ghost from_gives = { λ _ e. e ≡ Memory };

    fn from(_e: AllocError) -> CoverFault {
        CoverFault::Memory
    }
}
