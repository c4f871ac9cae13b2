//! What was asked for, in words.

use dgram::{Body, Message, decode};
use std::alloc::{AllocError, Global};
use tokens::{push_bag, push_ballot, push_escaped, push_slot, push_vote};

/// The message that these bytes are, in words: its kind, the object and the version; then, if it
/// has them, the ballot's round and site, the bag or the folder. Bytes that are no message of this
/// federation have none.
pub(crate) fn request_text(
    alloc: Global,
    federation: u64,
    bytes: &[u8],
) -> Result<String, AllocError> {
    let mut text = String::new(alloc);
    if let Ok(message) = decode(alloc, federation, bytes) {
        push_message(alloc, &mut text, &message)?;
    }
    Ok(text)
}

/// Whether these bytes ask to deposit the folder of this path.
pub(crate) fn asks_for(alloc: Global, federation: u64, bytes: &[u8], path: &str) -> bool {
    let Ok(message) = decode(alloc, federation, bytes) else {
        return false;
    };
    match &message.body {
        Body::Deposit { path: asked } => asked.as_str() == path,
        _ => false,
    }
}

fn push_message(alloc: Global, text: &mut String, message: &Message) -> Result<(), AllocError> {
    text.push_str(kind(&message.body))?;
    text.push(' ')?;
    push_slot(text, &message.slot)?;
    push_body(alloc, text, &message.body)
}

fn kind(body: &Body) -> &'static str {
    match body {
        Body::Prepare { .. } => "prepare",
        Body::Promise { .. } => "promise",
        Body::Accept { .. } => "accept",
        Body::Accepted { .. } => "accepted",
        Body::Refused { .. } => "refused",
        Body::Ask { .. } => "ask",
        Body::Known { .. } => "known",
        Body::Deposit { .. } => "deposit",
        Body::Query => "query",
        Body::Recover => "recover",
        Body::DepositReply { .. } | Body::QueryReply { .. } => "reply",
    }
}

fn push_body(alloc: Global, text: &mut String, body: &Body) -> Result<(), AllocError> {
    match body {
        Body::Prepare { ballot } | Body::Promise { ballot, .. } => push_ballot(text, *ballot),
        Body::Refused { asked, .. } => push_ballot(text, *asked),
        Body::Accept { vote } | Body::Accepted { vote, .. } => push_vote(alloc, text, *vote),
        Body::Known { bag, .. } => push_bag(alloc, text, *bag),
        Body::Deposit { path } => push_word(text, path.as_str()),
        Body::Ask { .. }
        | Body::Query
        | Body::Recover
        | Body::DepositReply { .. }
        | Body::QueryReply { .. } => Ok(()),
    }
}

/// Appends a space and a path, or another name, as one word.
pub(crate) fn push_word(text: &mut String, word: &str) -> Result<(), AllocError> {
    text.push(' ')?;
    push_escaped(text, word)
}
