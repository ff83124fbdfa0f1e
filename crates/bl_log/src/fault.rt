//! Why a text was not read.
ghost use Rattle.std.specs.Prelude.{◌≡◌};
ghost use Rattle.bl_log.specs.declared.fault.Miss.TheVariants.{Memory};

use std::alloc::{AllocError, AllocFailed};
use thiserror::Error;

/// Why a text is no journal's. Each is printed as its name.
#[derive(Debug, Drop, Error)]
pub enum LogFault {
    /// The first line that spells no entry, counted from 1.
    #[error("Line")]
    Line { line: u32 },
    /// There is not enough memory.
    #[error("Memory")]
    Memory,
}

/// Why words were not read as a value.
#[derive(Debug, Drop)]
pub(crate) enum Miss {
    /// They are not the words of such a value.
    Words,
    /// There is not enough memory.
    Memory,
}

impl From<AllocError> for Miss {
    ghost from_gives = { λ _ e. e ≡ Memory };

    fn from(_e: AllocError) -> Miss {
        Miss::Memory
    }
}

impl<T: Drop> From<AllocFailed<T>> for Miss {
    ghost from_gives = { λ _ e. e ≡ Memory };

    fn from(_e: AllocFailed<T>) -> Miss {
        Miss::Memory
    }
}
