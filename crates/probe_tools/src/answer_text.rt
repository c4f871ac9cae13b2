//! What a site answers, in words, a line for each thing.

use fed_types::{BagId, Slot};
use site::{Answer, Line, Outgoing, Reply, SiteFault};
use std::alloc::{AllocError, Global};

/// Appends what a call answers: the line, if any, and then each datagram, with its number among all
/// that were sent; `sent` were sent before.
pub(crate) fn push_answer(
    alloc: Global,
    text: &mut String,
    answer: &Answer,
    sent: usize,
) -> Result<(), AllocError> {
    if answer.line.is_none() && answer.sends.is_empty() {
        return text.push_str("nothing\n");
    }
    push_line(alloc, text, &answer.line)?;
    push_sends(alloc, text, answer.sends.as_slice(), sent)
}

fn push_line(alloc: Global, text: &mut String, line: &Option<Line>) -> Result<(), AllocError> {
    match line {
        None => Ok(()),
        Some(Line::Registered(bag)) => push_bag(alloc, text, "registered", bag),
        Some(Line::Known(slot, bag)) => push_known(alloc, text, slot, bag),
        Some(Line::Dropped) => text.push_str("dropped\n"),
    }
}

fn push_known(
    alloc: Global,
    text: &mut String,
    slot: &Slot,
    bag: &BagId,
) -> Result<(), AllocError> {
    let object = slot.object();
    let version = slot.version();
    write!(text, "known {object} {version} ")?;
    push_hex(alloc, text, &bag.0)
}

fn push_sends(
    alloc: Global,
    text: &mut String,
    sends: &[Outgoing],
    sent: usize,
) -> Result<(), AllocError> {
    for (place, datagram) in sends.iter().enumerate() {
        let number = sent.saturating_add(place).saturating_add(1);
        push_sent(alloc, text, number, datagram)?;
    }
    Ok(())
}

fn push_sent(
    alloc: Global,
    text: &mut String,
    number: usize,
    datagram: &Outgoing,
) -> Result<(), AllocError> {
    let to = datagram.to.number();
    write!(text, "{number} to {to} ")?;
    push_hex(alloc, text, datagram.bytes.as_slice())
}

/// Appends what a site replies to a query.
pub(crate) fn push_reply(
    alloc: Global,
    text: &mut String,
    reply: Result<Reply, SiteFault>,
) -> Result<(), AllocError> {
    match reply {
        Ok(Reply::Known(bag)) => push_bag(alloc, text, "reply known", &bag),
        Ok(Reply::Pending(bag)) => push_bag(alloc, text, "reply pending", &bag),
        Ok(Reply::Nothing) => text.push_str("reply nothing\n"),
        Err(fault) => push_refusal(alloc, text, fault),
    }
}

/// Appends a refusal by its number, and by the bag's fault or the bag that is in the way.
pub(crate) fn push_refusal(
    alloc: Global,
    text: &mut String,
    fault: SiteFault,
) -> Result<(), AllocError> {
    let number = fault.number();
    match fault {
        SiteFault::InvalidBag(fault) => {
            let fault = fault.number();
            write!(text, "refused {number} {fault}\n")
        }
        SiteFault::OtherDeposit(bag) => push_bag(alloc, text, "refused 11", &bag),
        SiteFault::OtherKnown(bag) => push_bag(alloc, text, "refused 12", &bag),
        _ => write!(text, "refused {number}\n"),
    }
}

fn push_bag(alloc: Global, text: &mut String, words: &str, bag: &BagId) -> Result<(), AllocError> {
    write!(text, "{words} ")?;
    push_hex(alloc, text, &bag.0)
}

/// Appends how many records an opened site has.
pub(crate) fn push_opened(text: &mut String, count: usize) -> Result<(), AllocError> {
    write!(text, "opened {count}\n")
}

/// Appends why a cell is refused, by the fault's number.
pub(crate) fn push_unopened(text: &mut String, number: u8) -> Result<(), AllocError> {
    write!(text, "unopened {number}\n")
}

/// Appends the bytes of a closed site's cell.
pub(crate) fn push_cell(alloc: Global, text: &mut String, bytes: &[u8]) -> Result<(), AllocError> {
    text.push_str("cell ")?;
    push_hex(alloc, text, bytes)
}

/// Appends bytes in hex, and ends the line.
fn push_hex(alloc: Global, text: &mut String, bytes: &[u8]) -> Result<(), AllocError> {
    let digits = hex::encode(alloc, bytes)?;
    write!(text, "{digits}\n")
}
