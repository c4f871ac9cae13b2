//! What a client's port hands out, and what it takes in.

ghost use Rattle.std.specs.Prelude.{◌≡◌, IfOk};
ghost use Rattle.std.specs.Option.{option_map};
ghost use Rattle.site_client.specs.Replies.{question_of, datagram_to};
ghost use Rattle.site_client.specs.Exchanges.{IsAsked, IsAskedAgain};
ghost use Rattle.site_client.specs.inner.Heard.{TakesOne, datagram_taken, IsHandedOut, Hears};
ghost use Rattle.udp_site.specs.Traffic.{taken};

use crate::handing::hand;
use crate::recovery::ask_to_recover;
use crate::reply::{ClientReply, Wanted, reply_from};
use crate::request::Request;
use addresses::Address;
use dgram::{Body, FolderPath, LONGEST_DATAGRAM, Message, encode};
use std::alloc::{AllocError, Global};
use udp_site::{Port, Turn};

/// How many datagrams are taken in, of which one is to be the answer. What comes from another port
/// is no answer, but counts: so strangers who send without end cost a client its answer, not its
/// time.
const MOST_DATAGRAMS: u32 = 16;

/// The datagram of a deposit of the folder of this path, or of a query.
#[tactic(auto, unfolding(crate::specs::Replies::datagram_to))]
pub(crate) fn datagram(
    alloc: Global,
    request: &Request<'_>,
    path: Option<FolderPath>,
) -> Result<Vec<u8>, AllocError>
    ensures { IfOk result (λ bytes. bytes.items ≡ datagram_to (question_of request.now) path) }
{
    let slot = request.slot.copy(alloc)?;
    let body = match path {
        Some(path) => Body::Deposit { path },
        None => Body::Query,
    };
    let mut bytes = Vec::with_capacity(alloc, LONGEST_DATAGRAM)?;
    encode(request.federation, &Message { slot, body }, &mut bytes)?;
    Ok(bytes)
}

/// Sends a datagram, and gives the reply that is wanted, if it comes before a turn is idle. After
/// the datagram a site is asked to recover, where enough questions came before. Where the port has
/// no memory for one of them, there is no reply.
pub(crate) fn ask<P: Port>(
    alloc: Global,
    port: &mut P,
    request: &Request<'_>,
    wanted: Wanted,
    bytes: &[u8],
) -> Result<Option<ClientReply>, AllocError>
    ensures { IsAsked (question_of request.now) wanted bytes.now
        (P.traffic port.old) (P.traffic port.new) result }
{
    match hand_out(alloc, port, request, bytes) {
        Ok(true) => receive_reply(alloc, port, request, wanted),
        _ => Ok(None),
    }
}

/// The same at a port that may have been used. There a turn is idle at once, if the port's wait has
/// passed since an earlier one, so that only the second idle turn says that nothing came. Both
/// datagrams are handed out, unless memory runs out.
pub(crate) fn ask_again<P: Port>(
    alloc: Global,
    port: &mut P,
    request: &Request<'_>,
    wanted: Wanted,
    bytes: &[u8],
) -> Result<Option<ClientReply>, AllocError>
    ensures { IsAskedAgain (question_of request.now) wanted bytes.now
        (P.traffic port.old) (P.traffic port.new) result }
{
    if !hand_out(alloc, port, request, bytes)? {
        return Ok(None);
    }
    match receive_reply(alloc, port, request, wanted)? {
        None => receive_reply(alloc, port, request, wanted),
        reply => Ok(reply),
    }
}

// Sends a datagram, and after it the one that asks a site to recover, where it is time for it. Says
// whether the device took them.
fn hand_out<P: Port>(
    alloc: Global,
    port: &mut P,
    request: &Request<'_>,
    bytes: &[u8],
) -> Result<bool, AllocError>
    ensures { IsHandedOut (question_of request.now) bytes.now
        (P.traffic port.old) (P.traffic port.new) result }
{
    let is_taken = hand(port, request.target, bytes)?;
    let is_recovery_taken = ask_to_recover(alloc, port, request)?;
    Ok(is_taken && is_recovery_taken)
}

// The reply that is wanted, if it comes before a turn is idle.
fn receive_reply<P: Port>(
    alloc: Global,
    port: &mut P,
    request: &Request<'_>,
    wanted: Wanted,
) -> Result<Option<ClientReply>, AllocError>
    ensures { Hears (question_of request.now) wanted
        (P.traffic port.old) (P.traffic port.new) result }
{
    for _ in 0..MOST_DATAGRAMS {
        let Some(datagram) = next_datagram(port) else {
            return Ok(None);
        };
        let (from, bytes) = &datagram;
        if let Some(reply) = reply_from(alloc, request, wanted, *from, bytes.as_slice())? {
            return Ok(Some(reply));
        }
    }
    Ok(None)
}

// The next datagram, if one comes before the turn is over: the address that it came from, and its
// bytes.
fn next_datagram<P: Port>(port: &mut P) -> Option<(Address, Vec<u8>)>
    ensures { TakesOne (P.traffic port.old) (P.traffic port.new)
        (option_map (λ datagram. (datagram.0, datagram.1.items)) result) }
{
    match port.receive() {
        Ok(turn) => datagram_in(turn),
        Err(_) => None,
    }
}

// The datagram that a turn has brought, if it has brought one.
fn datagram_in(turn: Turn) -> Option<(Address, Vec<u8>)>
    ensures { option_map (λ datagram. (datagram.0, datagram.1.items)) result
        ≡ datagram_taken (taken turn) }
{
    match turn {
        Turn::Got(from, bytes) => Some((from, bytes)),
        Turn::Idle => None,
    }
}
