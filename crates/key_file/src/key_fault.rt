ghost use Rattle.std.specs.Prelude.{◌≡◌};
ghost use Rattle.key_file.specs.declared.key_fault.KeyFault.TheVariants.{Memory};

use std::alloc::{AllocError, AllocFailed};
use thiserror::Error;

/// Why a text could not be read as a key file.
#[derive(Clone, Copy, Debug, PartialEq, Eq, Error)]
pub enum KeyFault {
    /// The first line, counted from 1, that isn't what it has to be. If the line of clients is
    /// missing, it is the line after the last one.
    #[error("key line {0}")]
    Line(usize),
    /// An allocation failed.
    #[error("out of memory")]
    Memory,
}

impl From<AllocError> for KeyFault {
    ghost from_gives = { λ _ e. e ≡ Memory };

    fn from(_e: AllocError) -> KeyFault {
        KeyFault::Memory
    }
}

impl<T: Drop> From<AllocFailed<T>> for KeyFault {
    ghost from_gives = { λ _ e. e ≡ Memory };

    fn from(_e: AllocFailed<T>) -> KeyFault {
        KeyFault::Memory
    }
}
