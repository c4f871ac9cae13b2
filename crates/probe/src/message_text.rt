//! Messages in words.

use dgram::{Body, DepositAnswer, Message, QueryAnswer};
use fed_types::{BagId, Ballot, SiteNo, Slot, Vote};
use std::alloc::{AllocError, Global};

/// Appends what a message says, its bags in hex.
pub fn push_message(alloc: Global, text: &mut String, message: &Message) -> Result<(), AllocError> {
    text.push_str(kind_name(&message.body))?;
    push_sender(text, message.from())?;
    push_slot(text, &message.slot)?;
    push_body(alloc, text, &message.body)
}

fn push_sender(text: &mut String, from: Option<SiteNo>) -> Result<(), AllocError> {
    match from {
        None => Ok(()),
        Some(site) => {
            let site = site.number();
            write!(text, " from {site}")
        }
    }
}

fn push_slot(text: &mut String, slot: &Slot) -> Result<(), AllocError> {
    let object = slot.object();
    let version = slot.version();
    write!(text, ", {object} {version}")
}

fn kind_name(body: &Body) -> &'static str {
    match body {
        Body::Prepare { .. } => "Prepare",
        Body::Promise { .. } => "Promise",
        Body::Accept { .. } => "Accept",
        Body::Accepted { .. } => "Accepted",
        Body::Refused { .. } => "Refused",
        Body::Ask { .. } => "Ask",
        Body::Known { .. } => "Known",
        Body::Deposit { .. } => "Deposit",
        Body::Query => "Query",
        Body::Recover => "Recover",
        Body::DepositReply { .. } => "DepositReply",
        Body::QueryReply { .. } => "QueryReply",
    }
}

fn push_body(alloc: Global, text: &mut String, body: &Body) -> Result<(), AllocError> {
    match body {
        Body::Prepare { ballot } => push_ballot(text, *ballot),
        Body::Promise { ballot, prior, .. } => push_promise(alloc, text, *ballot, prior),
        Body::Accept { vote } | Body::Accepted { vote, .. } => push_vote(alloc, text, vote),
        Body::Refused {
            asked,
            standing,
            ..
        } => push_ballots(text, *asked, *standing),
        Body::Ask { .. } | Body::Query | Body::Recover => Ok(()),
        Body::Known { bag, .. } => push_bag(alloc, text, bag),
        Body::Deposit { path } => push_path(text, path.as_str()),
        Body::DepositReply { answer, .. } => push_deposit_answer(alloc, text, answer),
        Body::QueryReply { answer, .. } => push_query_answer(alloc, text, answer),
    }
}

fn push_promise(
    alloc: Global,
    text: &mut String,
    ballot: Ballot,
    prior: &Option<Vote>,
) -> Result<(), AllocError> {
    push_ballot(text, ballot)?;
    match prior {
        None => text.push_str(", no vote"),
        Some(vote) => push_vote(alloc, text, vote),
    }
}

fn push_ballots(text: &mut String, asked: Ballot, standing: Ballot) -> Result<(), AllocError> {
    push_ballot(text, asked)?;
    push_ballot(text, standing)
}

fn push_path(text: &mut String, path: &str) -> Result<(), AllocError> {
    text.push_str(", ")?;
    text.push_str(path)
}

fn push_vote(alloc: Global, text: &mut String, vote: &Vote) -> Result<(), AllocError> {
    push_ballot(text, vote.ballot)?;
    push_bag(alloc, text, &vote.bag)
}

fn push_ballot(text: &mut String, ballot: Ballot) -> Result<(), AllocError> {
    let round = ballot.round();
    let site = ballot.site().number();
    write!(text, ", ballot {round} {site}")
}

fn push_bag(alloc: Global, text: &mut String, bag: &BagId) -> Result<(), AllocError> {
    text.push_str(", bag ")?;
    text.push_str(hex::encode(alloc, bag.0.as_slice())?.as_str())
}

fn push_deposit_answer(
    alloc: Global,
    text: &mut String,
    answer: &DepositAnswer,
) -> Result<(), AllocError> {
    match answer {
        DepositAnswer::Registered(bag) => push_answer(alloc, text, ", registered", bag),
        DepositAnswer::OtherDeposit(bag) => push_answer(alloc, text, ", other deposit", bag),
        DepositAnswer::OtherKnown(bag) => push_answer(alloc, text, ", other known", bag),
        DepositAnswer::Device => text.push_str(", device"),
        DepositAnswer::Memory => text.push_str(", memory"),
        DepositAnswer::NeedsOpen => text.push_str(", needs opening"),
        DepositAnswer::Tree(fault) => {
            let number = fault.number();
            write!(text, ", tree fault {number}")
        }
        DepositAnswer::Bag(fault) => {
            let number = fault.number();
            write!(text, ", bag fault {number}")
        }
    }
}

fn push_query_answer(
    alloc: Global,
    text: &mut String,
    answer: &QueryAnswer,
) -> Result<(), AllocError> {
    match answer {
        QueryAnswer::Known(bag) => push_answer(alloc, text, ", known", bag),
        QueryAnswer::Pending(bag) => push_answer(alloc, text, ", pending", bag),
        QueryAnswer::Nothing => text.push_str(", nothing"),
        QueryAnswer::NeedsOpen => text.push_str(", needs opening"),
    }
}

fn push_answer(
    alloc: Global,
    text: &mut String,
    words: &str,
    bag: &BagId,
) -> Result<(), AllocError> {
    text.push_str(words)?;
    push_bag(alloc, text, bag)
}
