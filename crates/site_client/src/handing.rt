//! A datagram that a client's port hands out.

ghost use Rattle.site_client.specs.inner.Heard.{IsTaken};

use addresses::Address;
use std::alloc::AllocError;
use udp_site::{Port, PortFault};

/// Hands out a datagram, and says whether the device took it. One that the device loses was handed
/// out as well; one for which there is no memory wasn't.
pub(crate) fn hand<P: Port>(port: &mut P, to: Address, bytes: &[u8]) -> Result<bool, AllocError>
    ensures { IsTaken (P.traffic port.old) (P.traffic port.new) (to, bytes.now) result }
{
    match port.send(to, bytes) {
        Ok(()) => Ok(true),
        Err(PortFault::Device) => Ok(false),
        Err(PortFault::Memory) => Err(AllocError),
    }
}
