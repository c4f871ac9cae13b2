ghost use Rattle.std.specs.Prelude.{◌≡◌};
ghost use Rattle.bag_text.specs.declared.fault.TextFault.TheVariants.{Memory};
ghost use Rattle.bag_text.specs.Fault.{number_of};

use std::alloc::{AllocError, AllocFailed};
use thiserror::Error;

/// Why a text wasn't read.
#[derive(Debug, Drop, Error)]
pub enum TextFault {
    /// The line of this number, counted from 1, isn't well-formed, is missing, or is one too many.
    #[error("line {0} is malformed")]
    Malformed(usize),
    /// There was no memory for what was read.
    #[error("out of memory")]
    Memory,
}

impl TextFault {
    /// The fault's number, 1 or 2.
    pub fn number(&self) -> u8
        ensures { result ≡ number_of self.now }
    {
        match self {
            TextFault::Malformed(_) => 1,
            TextFault::Memory => 2,
        }
    }
}

impl From<AllocError> for TextFault {
    ghost from_gives = { λ _ fault. fault ≡ Memory };

    fn from(_error: AllocError) -> TextFault {
        TextFault::Memory
    }
}

impl<T: Drop> From<AllocFailed<T>> for TextFault {
    ghost from_gives = { λ _ fault. fault ≡ Memory };

    fn from(_error: AllocFailed<T>) -> TextFault {
        TextFault::Memory
    }
}
