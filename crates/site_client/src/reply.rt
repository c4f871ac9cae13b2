//! The replies of a site.

ghost use Rattle.std.specs.Prelude.{◌≡◌, IsErr, IfOk, IsSome};
ghost use Rattle.dgram.specs.Decoded.{message_of};
ghost use Rattle.site_client.specs.Replies.{question_of, wants_deposits, wants_queries};
ghost use Rattle.site_client.specs.Replies.{reply_by, reply_in, reply_from};
ghost use Rattle.site_client.specs.Answers.{wanted_for};
ghost use Rattle.site_client.specs.Exchanges.{wanted_about};
ghost use Rattle.site_client.specs.inner.Heard.{query_in};

use crate::request::Request;
use addresses::Address;
use dgram::{Body, DepositAnswer, DgramFault, FolderPath, Message, QueryAnswer, decode};
use fed_types::SiteNo;
use std::alloc::{AllocError, Global};

/// What a site replies.
#[derive(Clone, Copy)]
pub enum ClientReply {
    ToDeposit(DepositAnswer),
    ToQuery(QueryAnswer),
}

/// Which replies are looked for.
#[derive(Clone, Copy)]
pub enum Wanted {
    ToDeposit,
    ToQuery,
    Any,
}

/// The replies to a deposit of the folder of this path, or to a query.
pub(crate) fn wanted_for(path: &Option<FolderPath>) -> Wanted
    ensures { result ≡ wanted_for path.now }
{
    match path {
        Some(_) => Wanted::ToDeposit,
        None => Wanted::ToQuery,
    }
}

/// The replies to a deposit of the folder of this path; or to a query, or to an earlier deposit.
pub(crate) fn wanted_about(path: &Option<FolderPath>) -> Wanted
    ensures { result ≡ wanted_about path.now }
{
    match path {
        Some(_) => Wanted::ToDeposit,
        None => Wanted::Any,
    }
}

/// The answer to a query, if this is one.
pub(crate) fn query_in(reply: Option<ClientReply>) -> Option<QueryAnswer>
    ensures { result ≡ query_in reply }
{
    match reply {
        Some(ClientReply::ToQuery(answer)) => Some(answer),
        Some(ClientReply::ToDeposit(_)) | None => None,
    }
}

/// The reply of the site for the slot in a datagram from this port, if it is one that is wanted.
/// What doesn't come from the port that was asked isn't even read.
pub(crate) fn reply_from(
    alloc: Global,
    request: &Request<'_>,
    wanted: Wanted,
    port: Address,
    bytes: &[u8],
) -> Result<Option<ClientReply>, AllocError>
    ensures { IfOk result
        (λ reply. reply ≡ reply_from (question_of request.now) wanted port bytes.now) }
{
    if port != request.target {
        return Ok(None);
    }
    reply_in(alloc, request, wanted, bytes)
}

// The reply of the site for the slot in these bytes, if it is one that is wanted.
#[tactic(auto, unfolding(fed_types::specs::Slots::same_slot))]
fn reply_in(
    alloc: Global,
    request: &Request<'_>,
    wanted: Wanted,
    bytes: &[u8],
) -> Result<Option<ClientReply>, AllocError>
    ensures reply { IfOk result
        (λ reply. reply ≡ reply_in (question_of request.now) wanted bytes.now) }
    ensures memory { IsErr result → IsSome (message_of request.now.federation bytes.now) }
{
    match decode(alloc, request.federation, bytes) {
        Ok(Message { slot, body }) => {
            if slot != *request.slot {
                return Ok(None);
            }
            Ok(reply_by(request.to, wanted, &body))
        }
        Err(DgramFault::Memory) => Err(AllocError),
        Err(DgramFault::NotOurs | DgramFault::Malformed) => Ok(None),
    }
}

// The reply of the site, if this is one that is wanted.
fn reply_by(to: SiteNo, wanted: Wanted, body: &Body) -> Option<ClientReply>
    ensures { result ≡ reply_by to wanted body.now }
{
    match body {
        Body::DepositReply { from, answer } if *from == to && wants_deposits(wanted) => {
            Some(ClientReply::ToDeposit(*answer))
        }
        Body::QueryReply { from, answer } if *from == to && wants_queries(wanted) => {
            Some(ClientReply::ToQuery(*answer))
        }
        _ => None,
    }
}

fn wants_deposits(wanted: Wanted) -> bool
    ensures { result ≡ wants_deposits wanted }
{
    matches!(wanted, Wanted::ToDeposit | Wanted::Any)
}

fn wants_queries(wanted: Wanted) -> bool
    ensures { result ≡ wants_queries wanted }
{
    matches!(wanted, Wanted::ToQuery | Wanted::Any)
}
