//! Handing out datagrams.

ghost use Rattle.std.specs.Prelude.{◌≡◌, ◌≤◌, ◌∷◌, [], IfOk};
ghost use Rattle.std.specs.List.{flat_map};
ghost use Rattle.udp_site.specs.inner.Outcomes.{Hands};
ghost use Rattle.udp_site.specs.Turns.{posts_to, posts_of, outgoing_posts, replies_to};

use crate::port::Port;
use crate::port_fault::PortFault;
use addresses::Address;
use dgram::{Body, LONGEST_DATAGRAM, Message, encode};
use fed_types::{SiteNo, Slot};
use site::{Answer, Outgoing, SiteFault};
use std::alloc::{AllocError, Global};

/// Hands out the datagrams of an answer, in order. A refusal has none.
pub(crate) fn send_answer<P: Port>(
    port: &mut P,
    addresses: &[Address],
    answer: &Result<Answer, SiteFault>,
) -> Result<(), AllocError>
    ensures hands { Hands (P.traffic port.old) (P.traffic port.new)
        (posts_of addresses.now answer.now) result }
    ensures later { P.failures port.old ≤ P.failures port.new }
{
    match answer {
        Ok(Answer { sends, .. }) => send_all(port, addresses, sends.as_slice()),
        Err(_) => Ok(()),
    }
}

/// Hands out datagrams for sites, in order.
pub(crate) fn send_all<P: Port>(
    port: &mut P,
    addresses: &[Address],
    sends: &[Outgoing],
) -> Result<(), AllocError>
    ensures hands { Hands (P.traffic port.old) (P.traffic port.new)
        (flat_map (outgoing_posts addresses.now) sends.now) result }
    ensures later { P.failures port.old ≤ P.failures port.new }
{
    for sealed in sends {
        send_to_site(port, addresses, sealed.to, &sealed.bytes)?;
    }
    Ok(())
}

/// Hands out a datagram for a site, if it has a port.
pub(crate) fn send_to_site<P: Port>(
    port: &mut P,
    addresses: &[Address],
    site: SiteNo,
    bytes: &[u8],
) -> Result<(), AllocError>
    ensures hands { Hands (P.traffic port.old) (P.traffic port.new)
        (posts_to addresses.now site bytes.now) result }
    ensures later { P.failures port.old ≤ P.failures port.new }
{
    match addresses.get(usize::from(site.number()) - 1) {
        Some(to) => send(port, *to, bytes),
        None => Ok(()),
    }
}

/// Hands out a message for a client's port, and gives back its slot.
pub(crate) fn reply<P: Port>(
    alloc: Global,
    port: &mut P,
    federation: u64,
    to: Address,
    slot: Slot,
    body: Body,
) -> Result<Slot, AllocError>
    ensures slot { IfOk result (λ s. s ≡ slot) }
    ensures hands { Hands (P.traffic port.old) (P.traffic port.new)
        (replies_to federation to slot body) result }
    ensures later { P.failures port.old ≤ P.failures port.new }
{
    let message = Message { slot, body };
    let mut bytes = Vec::with_capacity(alloc, LONGEST_DATAGRAM)?;
    encode(federation, &message, &mut bytes)?;
    send(port, to, &bytes)?;
    Ok(message.slot)
}

/// Hands out a datagram. One that is lost since the port's device failed counts as handed out.
pub(crate) fn send<P: Port>(port: &mut P, to: Address, bytes: &[u8]) -> Result<(), AllocError>
    ensures hands { Hands (P.traffic port.old) (P.traffic port.new) ((to, bytes.now) ∷ []) result }
    ensures later { P.failures port.old ≤ P.failures port.new }
{
    match port.send(to, bytes) {
        Ok(()) => Ok(()),
        Err(PortFault::Device) => Ok(()),
        Err(PortFault::Memory) => Err(AllocError),
    }
}
