//! A message as datagrams, for the sites that it goes to.

ghost use Rattle.std.specs.Prelude.{◌≡◌, ◌∷◌, [], map, IfOk};
ghost use Rattle.fed_types.specs.Sites.{members_of};
ghost use Rattle.dgram.specs.Encoding.{datagram_of};
ghost use Rattle.site.specs.Datagrams.{handed_out, datagram};
ghost use Rattle.site.specs.Effects.{to_each};

use crate::answer::Outgoing;
use dgram::{LONGEST_DATAGRAM, Message, encode};
use fed_types::{Members, SiteNo};
use std::alloc::{AllocError, Global};

/// The message for one site.
#[tactic(auto, unfolding(crate::specs::Effects::to_each))]
pub(crate) fn to_one(
    alloc: Global,
    federation: u64,
    message: &Message,
    to: SiteNo,
) -> Result<Vec<Outgoing>, AllocError>
    ensures { IfOk result (λ sends. map handed_out sends.items
        ≡ map (datagram federation) (to_each message.now.slot message.now.body (to ∷ []))) }
{
    let bytes = encoded(alloc, federation, message)?;
    let mut sends = Vec::with_capacity(alloc, 1)?;
    sends.push(Outgoing { to, bytes })?;
    Ok(sends)
}

/// The message for each member, in ascending order. It is encoded once: the bytes are the same.
pub(crate) fn to_all(
    alloc: Global,
    members: Members,
    message: &Message,
) -> Result<Vec<Outgoing>, AllocError>
    ensures { IfOk result (λ sends. map handed_out sends.items
        ≡ map (datagram members.federation)
        (to_each message.now.slot message.now.body (members_of members))) }
{
    let bytes = encoded(alloc, members.federation(), message)?;
    let mut sends = Vec::with_capacity(alloc, usize::from(members.count()))?;
    for to in members.sites() {
        sends.push(addressed(alloc, &bytes, to)?)?;
    }
    Ok(sends)
}

// The message's datagram.
fn encoded(alloc: Global, federation: u64, message: &Message) -> Result<Vec<u8>, AllocError>
    ensures { IfOk result (λ bytes. bytes.items ≡ datagram_of federation message.now) }
{
    let mut bytes = Vec::with_capacity(alloc, LONGEST_DATAGRAM)?;
    encode(federation, message, &mut bytes)?;
    Ok(bytes)
}

// A copy of a datagram, for a site.
fn addressed(alloc: Global, bytes: &[u8], to: SiteNo) -> Result<Outgoing, AllocError>
    ensures { IfOk result (λ sealed. handed_out sealed ≡ (to, bytes.now)) }
{
    let bytes = bytes.to_vec(alloc)?;
    Ok(Outgoing { to, bytes })
}
