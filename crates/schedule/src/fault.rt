ghost use Rattle.std.specs.Prelude.{◌≡◌};
ghost use Rattle.schedule.specs.declared.fault.ParseFault.TheVariants.{Memory};
ghost use Rattle.schedule.specs.Faults.{number_of};

use std::alloc::{AllocError, AllocFailed};
use thiserror::Error;

/// Why a text could not be read as a schedule.
#[derive(Clone, Copy, Debug, PartialEq, Eq, Error)]
pub enum ParseFault {
    /// The first line, counted from 1, that is neither skipped nor a command in its place. A text
    /// without a command has its fault in line 1.
    #[error("schedule line {0}")]
    Line(usize),
    /// An allocation failed.
    #[error("out of memory")]
    Memory,
}

impl ParseFault {
    /// The fault's number: 1 or 2.
    pub fn number(self) -> u8
        ensures { result ≡ number_of self }
    {
        match self {
            ParseFault::Line(_) => 1,
            ParseFault::Memory => 2,
        }
    }
}

impl From<AllocError> for ParseFault {
    ghost from_gives = { λ _ e. e ≡ Memory };

    fn from(_e: AllocError) -> ParseFault {
        ParseFault::Memory
    }
}

impl<T: Drop> From<AllocFailed<T>> for ParseFault {
    ghost from_gives = { λ _ e. e ≡ Memory };

    fn from(_e: AllocFailed<T>) -> ParseFault {
        ParseFault::Memory
    }
}
