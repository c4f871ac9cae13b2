ghost use Rattle.std.specs.Prelude.{◌≡◌};
ghost use Rattle.udp_site.specs.Faults.{port_number};

use std::alloc::AllocError;
use thiserror::Error;

/// Why a port refused a call.
#[derive(Clone, Copy, Debug, PartialEq, Eq, Error)]
pub enum PortFault {
    /// Its device failed.
    #[error("the port's device failed")]
    Device,
    /// An allocation failed.
    #[error("out of memory")]
    Memory,
}

impl PortFault {
    /// The number of the fault: 1 or 2.
    pub fn number(self) -> u8
        ensures { result ≡ port_number self }
    {
        match self {
            PortFault::Device => 1,
            PortFault::Memory => 2,
        }
    }
}

impl From<AllocError> for PortFault {
    ghost use Rattle.udp_site.specs.declared.port_fault.PortFault.TheVariants.{Memory};

    ghost from_gives = { λ _ e. e ≡ Memory };

    fn from(_e: AllocError) -> PortFault {
        PortFault::Memory
    }
}
