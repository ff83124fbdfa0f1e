//! Why a line, or a file, was not read.

ghost use Rattle.std.specs.Prelude.{◌≡◌};
ghost use Rattle.bl_cards.specs.declared.fault.LineFault.TheVariants.{Memory};

use crate::kind::What;
use std::alloc::{AllocError, AllocFailed};
use thiserror::Error;

/// Why a line was not taken, or what was said at the ENDATA line.
#[derive(Debug, Drop)]
pub enum LineFault {
    /// There is not enough memory.
    Memory,
    /// The first rule that is broken.
    Broken(What),
}

impl From<AllocError> for LineFault {
    ghost from_gives = { λ _ e. e ≡ Memory };

    fn from(_e: AllocError) -> LineFault {
        LineFault::Memory
    }
}

impl<T: Drop> From<AllocFailed<T>> for LineFault {
    ghost from_gives = { λ _ e. e ≡ Memory };

    fn from(_e: AllocFailed<T>) -> LineFault {
        LineFault::Memory
    }
}

/// Why a file was not read. Each is printed as its name.
#[derive(Debug, Drop, Error)]
pub enum ModelFault {
    /// The first fault of the file, and its line, counted from 1.
    #[error("At")]
    At { line: u32, what: What },
    /// There is not enough memory.
    #[error("Memory")]
    Memory,
}
