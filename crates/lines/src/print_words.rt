ghost use Rattle.std.specs.Prelude.{◌≡◌, [], ◌∷◌};
ghost use Rattle.std.specs.List.{join_with_byte};
ghost use Rattle.hex.specs.Hex.{encode_lower};
ghost use Rattle.tokens.specs.Pushes.{Pushes};
ghost use Rattle.lines.specs.Texts.{words_of, slot_words, bag_word, reply_words};
ghost use Rattle.lines.specs.Texts.{fault_words, reason_word};

use crate::line::{Line, NamedBag, Reason};
use crate::print_line::Options;
use crate::sent_bytes::SentBytes;
use fed_types::Slot;
use site::{Reply, SiteFault};
use std::alloc::{AllocError, Global};
use tokens::push_escaped;

/// Appends the words of a line, one space between them.
pub(crate) fn push_words(
    alloc: Global,
    text: &mut String,
    options: Options,
    line: &Line,
) -> Result<(), AllocError>
    ensures { Pushes result text.old text.new (join_with_byte 32 (words_of options line.now)) }
{
    match line {
        Line::Registered { site, slot, bag } => {
            text.push_str("registered ")?;
            push_slot_and_bag(alloc, text, options, *site, slot, *bag)
        }
        Line::Known { site, slot, bag } => {
            text.push_str("known ")?;
            push_slot_and_bag(alloc, text, options, *site, slot, *bag)
        }
        Line::Replied { site, slot, reply } => {
            text.push_str("reply ")?;
            push_slot_and_reply(alloc, text, options, *site, slot, *reply)
        }
        Line::Refused { site, fault } => {
            write!(text, "refused {site} ")?;
            push_fault(text, *fault)
        }
        Line::Dropped { site } => write!(text, "dropped {site}"),
        Line::Skip { line, reason } => write!(text, "skip {line} {}", reason_word(*reason)),
        Line::Down { site } => write!(text, "down {site}"),
        Line::Up { site, records } => write!(text, "up {site} {records}"),
        Line::Sent {
            number,
            from,
            to,
            bytes,
        } => {
            write!(text, "sent {number} {from} {to} ")?;
            push_bytes(alloc, text, bytes)
        }
    }
}

// The words of a site, a slot and a bag.
#[tactic(auto, using(std::proofs::Common::append_assoc))]
fn push_slot_and_bag(
    alloc: Global,
    text: &mut String,
    options: Options,
    site: u8,
    slot: &Slot,
    named: NamedBag,
) -> Result<(), AllocError>
    ensures { Pushes result text.old text.new
        (join_with_byte 32 (slot_words site slot.now (bag_word options named ∷ []))) }
{
    push_slot(text, site, slot)?;
    push_bag(alloc, text, options, named)
}

// The words of a site, a slot and a reply.
#[tactic(auto, using(std::proofs::Common::append_assoc))]
fn push_slot_and_reply(
    alloc: Global,
    text: &mut String,
    options: Options,
    site: u8,
    slot: &Slot,
    reply: Reply<NamedBag>,
) -> Result<(), AllocError>
    ensures { Pushes result text.old text.new
        (join_with_byte 32 (slot_words site slot.now (reply_words options reply))) }
{
    push_slot(text, site, slot)?;
    push_reply(alloc, text, options, reply)
}

// The words of a site and a slot, and a space after each.
fn push_slot(text: &mut String, site: u8, slot: &Slot) -> Result<(), AllocError>
    ensures { Pushes result text.old text.new
        (join_with_byte 32 (slot_words site slot.now ([] ∷ []))) }
{
    write!(text, "{site} ")?;
    push_escaped(text, slot.object())?;
    let version = slot.version();
    write!(text, " {version} ")
}

fn push_bag(
    alloc: Global,
    text: &mut String,
    options: Options,
    named: NamedBag,
) -> Result<(), AllocError>
    ensures { Pushes result text.old text.new (bag_word options named) }
{
    if options.identities {
        let digits = hex::encode(alloc, named.bag.0)?;
        text.push_str(digits.as_str())
    } else {
        let tree = named.tree;
        write!(text, "#{tree}")
    }
}

fn push_reply(
    alloc: Global,
    text: &mut String,
    options: Options,
    reply: Reply<NamedBag>,
) -> Result<(), AllocError>
    ensures { Pushes result text.old text.new (join_with_byte 32 (reply_words options reply)) }
{
    match reply {
        Reply::Known(named) => {
            text.push_str("known ")?;
            push_bag(alloc, text, options, named)
        }
        Reply::Pending(named) => {
            text.push_str("pending ")?;
            push_bag(alloc, text, options, named)
        }
        Reply::Nothing => text.push_str("nothing"),
    }
}

fn push_fault(text: &mut String, fault: SiteFault) -> Result<(), AllocError>
    ensures { Pushes result text.old text.new (join_with_byte 32 (fault_words fault)) }
{
    match fault {
        SiteFault::InvalidBag(bag_fault) => {
            let number = bag_fault.number();
            write!(text, "10 {number}")
        }
        fault => {
            let number = fault.number();
            write!(text, "{number}")
        }
    }
}

fn reason_word(reason: Reason) -> &'static str
    ensures { result.now ≡ reason_word reason }
{
    match reason {
        Reason::Site => "site",
        Reason::Tree => "tree",
        Reason::Path => "path",
        Reason::Datagram => "datagram",
        Reason::Formed => "formed",
        Reason::Down => "down",
        Reason::Up => "up",
    }
}

fn push_bytes(alloc: Global, text: &mut String, bytes: &SentBytes) -> Result<(), AllocError>
    ensures { Pushes result text.old text.new (encode_lower bytes.now) }
{
    let digits = hex::encode(alloc, bytes.as_slice())?;
    text.push_str(digits.as_str())
}
