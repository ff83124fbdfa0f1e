//! Why weights give no cut.
ghost use Rattle.std.specs.Prelude.{◌≡◌};
ghost use Rattle.bl_cuts.specs.declared.fault.CutFault.TheVariants.{Memory};

use std::alloc::AllocError;
use thiserror::Error;

/// Why weights give no cut. Each is printed as its name.
#[derive(Debug, Drop, PartialEq, Eq, Error)]
pub enum CutFault {
    /// A weight points at an end that is missing.
    #[error("Weights")]
    Weights,
    /// A number on the way leaves `i128`, or the cut is beyond the limits.
    #[error("TooWide")]
    TooWide,
    /// There is not enough memory.
    #[error("Memory")]
    Memory,
}

impl From<AllocError> for CutFault {
    ghost from_gives = { λ _ e. e ≡ Memory };

    fn from(_e: AllocError) -> CutFault {
        CutFault::Memory
    }
}
