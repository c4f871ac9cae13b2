//! What a datagram is a sign of.

ghost use Rattle.std.specs.Prelude.{◌≡◌, IfOk};
ghost use Rattle.dgram.specs.Decoded.{message_of};
ghost use Rattle.udp_site.specs.Signs.{sign_by, own_sign_by, signal_by, own_signal_by, signal_at};
ghost use Rattle.udp_site.specs.Signs.{kind_byte, body_byte, is_prepare, is_accept, is_vote};
ghost use Rattle.udp_site.specs.Signs.{is_deposit, is_recover, is_request, is_registered};
ghost use Rattle.udp_site.specs.Signs.{is_pending};

use addresses::Address;
use dgram::{
    ACCEPT, ACCEPTED, Body, DEPOSIT, DEPOSIT_REPLY, DgramFault, IS_PENDING, Message, PREPARE,
    QUERY, QUERY_REPLY, RECOVER, REGISTERED, decode,
};
use fed_types::SiteNo;
use std::alloc::{AllocError, Global};

/// The place of the kind's byte in a datagram.
const KIND_PLACE: usize = 3;

/// The place of the byte that says how long the object's name is.
const LENGTH_PLACE: usize = 13;

/// What a datagram is a sign of, for the pace of a port.
#[derive(Clone, Copy, Debug, PartialEq, Eq)]
pub(crate) enum Sign {
    /// Nothing moves.
    Still,
    /// Something moves.
    Moves,
    /// Something moves, and a proposal has got votes, or a bag is known.
    Decides,
}

/// What a port learns from a datagram.
#[derive(Clone, Copy, Debug)]
pub(crate) struct Signal {
    pub(crate) sign: Sign,
    /// The other site that was heard, if one was.
    pub(crate) sender: Option<SiteNo>,
}

/// Nothing is learned.
const NOTHING: Signal = Signal {
    sign: Sign::Still,
    sender: None,
};

/// What a port learns from these bytes, which came from one. They are decoded, so that what has a
/// wrong checksum or is of another federation moves nothing.
pub(crate) fn signal_of(
    alloc: Global,
    federation: u64,
    own: Address,
    from: Address,
    bytes: &[u8],
) -> Result<Signal, AllocError>
    ensures { IfOk result (λ signal. signal ≡ signal_at own from (message_of federation bytes.now)) }
{
    match decode(alloc, federation, bytes) {
        Ok(Message { body, .. }) => Ok(if own == from {
            own_signal_by(&body)
        } else {
            signal_by(&body)
        }),
        Err(DgramFault::Memory) => Err(AllocError),
        Err(DgramFault::NotOurs) => Ok(NOTHING),
        Err(DgramFault::Malformed) => Ok(NOTHING),
    }
}

// What another says.
fn signal_by(body: &Body) -> Signal
    ensures { result ≡ signal_by body.now }
{
    Signal {
        sign: sign_by(body),
        sender: body.from(),
    }
}

// What a site says to itself.
fn own_signal_by(body: &Body) -> Signal
    ensures { result ≡ own_signal_by body.now }
{
    Signal {
        sign: own_sign_by(body),
        sender: None,
    }
}

fn sign_by(body: &Body) -> Sign
    ensures { result ≡ sign_by body.now }
{
    match body {
        Body::Accept { .. } => Sign::Moves,
        Body::Accepted { .. } | Body::Known { .. } => Sign::Decides,
        Body::Deposit { .. }
        | Body::Prepare { .. }
        | Body::Promise { .. }
        | Body::Refused { .. }
        | Body::Ask { .. }
        | Body::Query
        | Body::Recover
        | Body::DepositReply { .. }
        | Body::QueryReply { .. } => Sign::Still,
    }
}

fn own_sign_by(body: &Body) -> Sign
    ensures { result ≡ own_sign_by body.now }
{
    match body {
        Body::Accepted { from, vote } => {
            if vote.ballot.site() == *from {
                Sign::Decides
            } else {
                Sign::Still
            }
        }
        Body::Accept { .. }
        | Body::Known { .. }
        | Body::Deposit { .. }
        | Body::Prepare { .. }
        | Body::Promise { .. }
        | Body::Refused { .. }
        | Body::Ask { .. }
        | Body::Query
        | Body::Recover
        | Body::DepositReply { .. }
        | Body::QueryReply { .. } => Sign::Still,
    }
}

/// Whether a datagram that is handed out is a Prepare, by its kind.
pub(crate) fn is_prepare(bytes: &[u8]) -> bool
    ensures { result ≡ is_prepare bytes.now }
{
    kind_byte(bytes) == PREPARE
}

/// Whether a datagram that is handed out is an Accept, by its kind.
pub(crate) fn is_accept(bytes: &[u8]) -> bool
    ensures { result ≡ is_accept bytes.now }
{
    kind_byte(bytes) == ACCEPT
}

/// Whether a datagram that came may be a vote, by its kind.
pub(crate) fn is_vote(bytes: &[u8]) -> bool
    ensures { result ≡ is_vote bytes.now }
{
    kind_byte(bytes) == ACCEPTED
}

/// Whether a datagram that came may be a client's request to deposit a folder, by its kind.
pub fn is_deposit(bytes: &[u8]) -> bool
    ensures { result ≡ is_deposit bytes.now }
{
    kind_byte(bytes) == DEPOSIT
}

/// Whether a datagram that came may be a client's request to recover, by its kind.
pub(crate) fn is_recover(bytes: &[u8]) -> bool
    ensures { result ≡ is_recover bytes.now }
{
    kind_byte(bytes) == RECOVER
}

/// Whether a datagram that came may be a client's request, by its kind.
pub(crate) fn is_request(bytes: &[u8]) -> bool
    ensures { result ≡ is_request bytes.now }
{
    is_deposit(bytes) || is_recover(bytes) || kind_byte(bytes) == QUERY
}

/// Whether a datagram that is handed out answers a deposit: the bag is registered.
pub(crate) fn is_registered(bytes: &[u8]) -> bool
    ensures { result ≡ is_registered bytes.now }
{
    kind_byte(bytes) == DEPOSIT_REPLY && body_byte(bytes) == REGISTERED
}

/// Whether a datagram that is handed out answers a query: the bag is pending.
pub(crate) fn is_pending(bytes: &[u8]) -> bool
    ensures { result ≡ is_pending bytes.now }
{
    kind_byte(bytes) == QUERY_REPLY && body_byte(bytes) == IS_PENDING
}

/// The kind's byte, or 0 where there is none.
pub(crate) fn kind_byte(bytes: &[u8]) -> u8
    ensures { result ≡ kind_byte bytes.now }
{
    bytes.get(KIND_PLACE).copied().unwrap_or(0)
}

// The first byte of the body, or 0 where there is none.
fn body_byte(bytes: &[u8]) -> u8
    ensures { result ≡ body_byte bytes.now }
{
    let length = bytes.get(LENGTH_PLACE).copied().unwrap_or(0);
    let place = LENGTH_PLACE + 5 + usize::from(length);
    bytes.get(place).copied().unwrap_or(0)
}
