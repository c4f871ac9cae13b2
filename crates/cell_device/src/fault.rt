ghost use Rattle.std.specs.Prelude.{◌≡◌};

use std::alloc::AllocError;
use thiserror::Error;

/// Why a call on a cell didn't do what it was asked.
#[derive(Clone, Copy, Debug, PartialEq, Eq, Error)]
pub enum CellFault {
    /// The device failed.
    #[error("the cell's device failed")]
    Device,
    /// Out of memory; the call changed nothing.
    #[error("out of memory")]
    Memory,
}

/// Why a file isn't as its calls left it, or can't be made so.
#[derive(Clone, Copy, Debug, PartialEq, Eq, Error)]
pub enum FileFault {
    /// A call failed: some bytes may not be what was written.
    #[error("a call of the file failed")]
    Device,
    /// The file's path leads to another file or to none, or somebody else has made it longer.
    #[error("the file at its path isn't the one that was left there")]
    Elsewhere,
    /// It is shorter: somebody else has cut it.
    #[error("somebody else has cut the file")]
    Shorter,
}

impl From<AllocError> for CellFault {
    ghost use Rattle.cell_device.specs.declared.fault.CellFault.TheVariants.{Memory};

    ghost from_gives = { λ _ e. e ≡ Memory };

    fn from(_e: AllocError) -> CellFault {
        Self::Memory
    }
}

impl CellFault {
    ghost use Rattle.cell_device.specs.Faults.{fault_number};

    /// The error code of the fault, 1 or 2.
    pub fn number(self) -> u8
        ensures { result ≡ fault_number self }
    {
        match self {
            CellFault::Device => 1,
            CellFault::Memory => 2,
        }
    }
}
