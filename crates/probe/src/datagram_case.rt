//! A datagram is decoded, and its message encoded again. Only one allocation ever fails in a test:
//! where one did, the same call is made again, and has to succeed.

use crate::fault::Fault;
use crate::message_text::push_message;
use dgram::{DgramFault, Message, decode, encode};
use std::alloc::Global;

/// What a vector has before a datagram is appended to it.
const BEFORE: [u8; 3] = [7, 0, 255];

/// Appends what these bytes say in this federation, in a line.
pub fn push_datagram(
    alloc: Global,
    text: &mut String,
    federation: u64,
    bytes: &[u8],
) -> Result<(), Fault> {
    match decode(alloc, federation, bytes) {
        Ok(message) => push_decoded(alloc, text, federation, &message, bytes),
        Err(DgramFault::NotOurs) => Ok(text.push_str("not ours\n")?),
        Err(DgramFault::Malformed) => Ok(text.push_str("malformed\n")?),
        Err(DgramFault::Memory) => decode_again(alloc, federation, bytes),
    }
}

fn push_decoded(
    alloc: Global,
    text: &mut String,
    federation: u64,
    message: &Message,
    bytes: &[u8],
) -> Result<(), Fault> {
    encode_again(alloc, federation, message, bytes)?;
    push_message(alloc, text, message)?;
    Ok(text.push_str("\n")?)
}

/// Decodes what found no memory.
fn decode_again(alloc: Global, federation: u64, bytes: &[u8]) -> Result<(), Fault> {
    let message = decode(alloc, federation, bytes)?;
    match encode_again(alloc, federation, &message, bytes) {
        Ok(()) => Err(Fault::Memory),
        Err(fault) => Err(fault),
    }
}

/// Encodes the message after some bytes: they stay, and these follow them, or nothing does.
fn encode_again(
    alloc: Global,
    federation: u64,
    message: &Message,
    bytes: &[u8],
) -> Result<(), Fault> {
    let mut out = Vec::new(alloc);
    let encoded = encode_into(&mut out, federation, message, bytes);
    drop(out);
    encoded
}

fn encode_into(
    out: &mut Vec<u8>,
    federation: u64,
    message: &Message,
    bytes: &[u8],
) -> Result<(), Fault> {
    out.extend_from_slice(&BEFORE)?;
    if encode(federation, message, out).is_ok() {
        return check(out.as_slice(), bytes);
    }
    check(out.as_slice(), &[])?;
    encode(federation, message, out)?;
    check(out.as_slice(), bytes)?;
    Err(Fault::Memory)
}

/// Whether the bytes are those before, and then these.
fn check(bytes: &[u8], after: &[u8]) -> Result<(), Fault> {
    match bytes.split_at_checked(BEFORE.len()) {
        Some((kept, rest)) if kept == BEFORE.as_slice() && rest == after => Ok(()),
        _ => Err(Fault::Wrong),
    }
}
