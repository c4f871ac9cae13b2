ghost use Rattle.std.specs.Prelude.{◌≡◌};
ghost use Rattle.udp_site.specs.Faults.{serve_number};

use std::alloc::AllocError;
use thiserror::Error;

/// Why a site stopped serving.
#[derive(Clone, Copy, Debug, PartialEq, Eq, Error)]
pub enum ServeFault {
    /// A receive failed.
    #[error("the port failed")]
    Port,
    /// The cell failed; the site has to be opened again.
    #[error("the site needs opening")]
    Cell,
    /// The port or the server ran out of memory.
    #[error("out of memory")]
    Memory,
    /// A line couldn't be written.
    #[error("a line couldn't be written")]
    Output,
}

impl ServeFault {
    /// The number of the fault in what the program prints, 1 to 4.
    pub fn number(self) -> u8
        ensures { result ≡ serve_number self }
    {
        match self {
            ServeFault::Port => 1,
            ServeFault::Cell => 2,
            ServeFault::Memory => 3,
            ServeFault::Output => 4,
        }
    }
}

impl From<AllocError> for ServeFault {
    ghost use Rattle.std.specs.Prelude.{◌≡◌};
    ghost use Rattle.udp_site.specs.declared.fault.ServeFault.TheVariants.{Memory};

    ghost from_gives = { λ _ e. e ≡ Memory };

    fn from(_e: AllocError) -> ServeFault {
        ServeFault::Memory
    }
}
