//! What a message, a record and a line say, in numbers.

use crate::datagram::Kind;
use crate::event::Outcome;
use dgram::Body;
use fed_types::{BagId, Ballot};
use lines::{Line, NamedBag};
use records::Entry;
use site::{Reply, SiteFault};

/// What a message is. Between sites no other kinds are sent.
pub(crate) fn kind_of(body: &Body) -> Kind {
    match body {
        Body::Prepare { .. } => Kind::Prepare,
        Body::Promise { .. } => Kind::Promise,
        Body::Accept { .. } => Kind::Accept,
        Body::Accepted { .. } => Kind::Accepted,
        Body::Refused { .. } => Kind::Refused,
        Body::Known { .. } => Kind::Known,
        _ => Kind::Ask,
    }
}

/// The ballot that a message is about.
pub(crate) fn ballot_of(body: &Body) -> Option<Ballot> {
    match body {
        Body::Prepare { ballot } => Some(*ballot),
        Body::Promise { ballot, .. } => Some(*ballot),
        Body::Accept { vote } => Some(vote.ballot),
        Body::Accepted { vote, .. } => Some(vote.ballot),
        Body::Refused { asked, .. } => Some(*asked),
        _ => None,
    }
}

/// The ballot of the vote that a promise names, or the one that a refusal says was promised.
pub(crate) fn other_ballot_of(body: &Body) -> Option<Ballot> {
    match body {
        Body::Promise { prior, .. } => match prior {
            Some(vote) => Some(vote.ballot),
            None => None,
        },
        Body::Refused { standing, .. } => Some(*standing),
        _ => None,
    }
}

/// The bag that a message names.
pub(crate) fn bag_in(body: &Body) -> Option<BagId> {
    match body {
        Body::Promise { prior, .. } => match prior {
            Some(vote) => Some(vote.bag),
            None => None,
        },
        Body::Accept { vote } => Some(vote.bag),
        Body::Accepted { vote, .. } => Some(vote.bag),
        Body::Known { bag, .. } => Some(*bag),
        _ => None,
    }
}

/// The bag that a record names.
pub(crate) fn bag_on(entry: &Entry) -> Option<BagId> {
    match entry {
        Entry::Deposit(bag) => Some(*bag),
        Entry::Vote(vote) => Some(vote.bag),
        Entry::Known(bag) => Some(*bag),
        Entry::Round(_) | Entry::Promise(_) => None,
    }
}

/// What a line says that came of an event.
pub(crate) fn outcome_of(line: &Line) -> Outcome {
    match line {
        Line::Registered { .. } => Outcome::Registered,
        Line::Known { .. } => Outcome::Learned,
        Line::Replied { reply, .. } => reply_outcome(*reply),
        Line::Refused { fault, .. } => fault_outcome(*fault),
        Line::Dropped { .. } => Outcome::Dropped,
        Line::Skip { reason, .. } => Outcome::Skipped(*reason),
        Line::Down { .. } => Outcome::Down,
        Line::Up { .. } => Outcome::Up,
        Line::Sent { .. } => Outcome::Done,
    }
}

fn reply_outcome(reply: Reply<NamedBag>) -> Outcome {
    match reply {
        Reply::Known(_) => Outcome::Known,
        Reply::Pending(_) => Outcome::Pending,
        Reply::Nothing => Outcome::Nothing,
    }
}

fn fault_outcome(fault: SiteFault) -> Outcome {
    match fault {
        SiteFault::InvalidBag(_) => Outcome::Invalid,
        SiteFault::Device => Outcome::Failed,
        SiteFault::NeedsOpen => Outcome::Unopened,
        _ => Outcome::Refused,
    }
}

/// The tree of the bag that a line names, 0 where it names none.
pub(crate) fn tree_in(line: &Line) -> u32 {
    match line {
        Line::Registered { bag, .. } => bag.tree,
        Line::Known { bag, .. } => bag.tree,
        Line::Replied { reply, .. } => match reply {
            Reply::Known(bag) => bag.tree,
            Reply::Pending(bag) => bag.tree,
            Reply::Nothing => 0,
        },
        _ => 0,
    }
}
