//! What a datagram asks of a site.

ghost use Rattle.std.specs.Prelude.{IfOk};
ghost use Rattle.udp_site.specs.inner.Asked.{IsAsked};

use dgram::{Body, DgramFault, FolderPath, Message, decode};
use fed_types::Slot;
use std::alloc::{AllocError, Global};

/// What a datagram asks.
#[derive(Drop)]
pub(crate) enum Asked {
    /// To hear this message of a site.
    Hear(Message),
    /// To deposit the folder of this path.
    Deposit(Slot, FolderPath),
    /// To say which bag the slot has.
    Query(Slot),
    /// To recover the slot.
    Recover(Slot),
    /// Nothing of a site: it is dropped.
    Nothing,
}

/// What the bytes of a datagram ask of a site of this federation.
pub(crate) fn asked_by(alloc: Global, federation: u64, bytes: &[u8]) -> Result<Asked, AllocError>
    ensures { IfOk result (λ asked. IsAsked federation bytes.now asked) }
{
    match decode(alloc, federation, bytes) {
        Ok(Message { slot, body }) => match body {
            Body::Deposit { path } => Ok(Asked::Deposit(slot, path)),
            Body::Query => Ok(Asked::Query(slot)),
            Body::Recover => Ok(Asked::Recover(slot)),
            Body::DepositReply { .. } | Body::QueryReply { .. } => Ok(Asked::Nothing),
            Body::Prepare { .. }
            | Body::Promise { .. }
            | Body::Accept { .. }
            | Body::Accepted { .. }
            | Body::Refused { .. }
            | Body::Ask { .. }
            | Body::Known { .. } => Ok(Asked::Hear(Message { slot, body })),
        },
        Err(DgramFault::Memory) => Err(AllocError),
        Err(DgramFault::NotOurs) => Ok(Asked::Nothing),
        Err(DgramFault::Malformed) => Ok(Asked::Nothing),
    }
}
