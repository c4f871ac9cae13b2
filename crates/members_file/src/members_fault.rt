ghost use Rattle.std.specs.Prelude.{◌≡◌};
ghost use Rattle.members_file.specs.declared.members_fault.MembersFault.TheVariants.{Memory};

use std::alloc::{AllocError, AllocFailed};
use thiserror::Error;

/// Why a text could not be read as a members file.
#[derive(Clone, Copy, Debug, PartialEq, Eq, Error)]
pub enum MembersFault {
    /// The first line, counted from 1, that isn't what it has to be. If lines are missing, it is
    /// the line after the last one that isn't blank.
    #[error("members line {0}")]
    Line(usize),
    /// An allocation failed.
    #[error("out of memory")]
    Memory,
}

impl From<AllocError> for MembersFault {
    ghost from_gives = { λ _ e. e ≡ Memory };

    fn from(_e: AllocError) -> MembersFault {
        MembersFault::Memory
    }
}

impl<T: Drop> From<AllocFailed<T>> for MembersFault {
    ghost from_gives = { λ _ e. e ≡ Memory };

    fn from(_e: AllocFailed<T>) -> MembersFault {
        MembersFault::Memory
    }
}
