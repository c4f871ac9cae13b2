//! A client that has a site recover what it asks for.

ghost use Rattle.std.specs.Prelude.{◌≡◌, IfOk};
ghost use Rattle.site_client.specs.Replies.{question_of};
ghost use Rattle.site_client.specs.Recoveries.{recovery_port, recovery_datagram};
ghost use Rattle.site_client.specs.inner.Heard.{IsAskedToRecover};

use crate::handing::hand;
use crate::request::Request;
use addresses::Address;
use dgram::{Body, LONGEST_DATAGRAM, Message, encode};
use std::alloc::{AllocError, Global};
use udp_site::Port;

/// So many questions are asked before the first recovery: the pauses between them add up to more
/// than a second, and each later one takes a second.
const PATIENCE: u32 = 9;

/// Where it is time for it, asks a site to recover the slot, and says whether the device took that.
/// There is no reply.
pub(crate) fn ask_to_recover<P: Port>(
    alloc: Global,
    port: &mut P,
    request: &Request<'_>,
) -> Result<bool, AllocError>
    ensures { IsAskedToRecover (question_of request.now)
        (P.traffic port.old) (P.traffic port.new) result }
{
    let Some(to) = recovery_port(request) else {
        return Ok(true);
    };
    let bytes = recovery_datagram(alloc, request)?;
    hand(port, to, bytes.as_slice())
}

// The port of the site that is to recover: in turn, from the site that is asked itself on.
fn recovery_port(request: &Request<'_>) -> Option<Address>
    ensures { result ≡ recovery_port (question_of request.now) }
{
    let count = request.addresses.len();
    if request.asked < PATIENCE || count == 0 {
        return None;
    }
    let turn = request.asked - PATIENCE;
    let place = usize::from(request.to.number()) - 1 + turn as usize;
    request.addresses.get(place % count).copied()
}

#[tactic(auto, unfolding(crate::specs::Recoveries::recovery_datagram))]
fn recovery_datagram(alloc: Global, request: &Request<'_>) -> Result<Vec<u8>, AllocError>
    ensures { IfOk result (λ bytes. bytes.items ≡ recovery_datagram (question_of request.now)) }
{
    let slot = request.slot.copy(alloc)?;
    let body = Body::Recover;
    let mut bytes = Vec::with_capacity(alloc, LONGEST_DATAGRAM)?;
    encode(request.federation, &Message { slot, body }, &mut bytes)?;
    Ok(bytes)
}
