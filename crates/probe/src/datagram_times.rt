//! Calls to be timed. The message is a Prepare of site 1 for object `a`, version 1; what the calls
//! made is added up and printed, so that none of them is left out.

use crate::example::{FEDERATION, site, slot};
use crate::fault::Fault;
use dgram::{Body, DgramFault, LONGEST_DATAGRAM, Message, decode, encode};
use fed_types::Ballot;
use fields::CHECKSUM_BYTES;
use sha2::{Digest, Sha256};
use std::alloc::{AllocError, Global};

fn prepare(alloc: Global) -> Result<Message, Fault> {
    let ballot = Ballot::new(1, site()?)?;
    Ok(Message {
        slot: slot(alloc)?,
        body: Body::Prepare { ballot },
    })
}

/// Encodes a Prepare so often, each time into the same vector, which has room.
pub fn encoding_line(alloc: Global, count: u32) -> Result<String, Fault> {
    let message = prepare(alloc)?;
    let total = encode_with_room(alloc, &message, count);
    drop(message);
    total_line(alloc, total?)
}

fn encode_with_room(alloc: Global, message: &Message, count: u32) -> Result<u64, AllocError> {
    let mut out = Vec::with_capacity(alloc, LONGEST_DATAGRAM)?;
    encode_often(message, count, &mut out)
}

fn encode_often(message: &Message, count: u32, out: &mut Vec<u8>) -> Result<u64, AllocError> {
    let mut total = 0u64;
    for _ in 0..count {
        out.clear();
        encode(FEDERATION, message, out)?;
        total = total.wrapping_add(out.len() as u64);
    }
    Ok(total)
}

/// Decodes the datagram of a Prepare so often.
pub fn decoding_line(alloc: Global, count: u32) -> Result<String, Fault> {
    let message = prepare(alloc)?;
    let total = decode_encoded(alloc, &message, count);
    drop(message);
    total_line(alloc, total?)
}

fn decode_encoded(alloc: Global, message: &Message, count: u32) -> Result<u64, Fault> {
    let mut bytes = Vec::with_capacity(alloc, LONGEST_DATAGRAM)?;
    match encode(FEDERATION, message, &mut bytes) {
        Ok(()) => Ok(decode_often(alloc, bytes.as_slice(), count)?),
        Err(_) => Err(Fault::Memory),
    }
}

fn decode_often(alloc: Global, bytes: &[u8], count: u32) -> Result<u64, DgramFault> {
    let mut total = 0u64;
    for _ in 0..count {
        total = total.wrapping_add(decoded_version(alloc, bytes)?);
    }
    Ok(total)
}

fn decoded_version(alloc: Global, bytes: &[u8]) -> Result<u64, DgramFault> {
    let message = decode(alloc, FEDERATION, bytes)?;
    Ok(u64::from(message.slot.version()))
}

pub fn total_line(alloc: Global, total: u64) -> Result<String, Fault> {
    Ok(format!(in alloc; "{total}\n")?)
}

/// Takes the SHA-256 of as many bytes as a Prepare's datagram has before its checksum, so often. A
/// byte of each is the first of the next, so that no call can be left out.
pub fn digesting_line(alloc: Global, count: u32) -> Result<String, Fault> {
    let message = prepare(alloc)?;
    let total = digest_encoded(alloc, &message, count);
    drop(message);
    total_line(alloc, total?)
}

fn digest_encoded(alloc: Global, message: &Message, count: u32) -> Result<u64, AllocError> {
    let mut bytes = Vec::with_capacity(alloc, LONGEST_DATAGRAM)?;
    encode(FEDERATION, message, &mut bytes)?;
    bytes.truncate(bytes.len().saturating_sub(CHECKSUM_BYTES));
    Ok(digest_often(&mut bytes, count))
}

/// Takes the SHA-256 of the bytes so often, and adds up the first byte of each.
pub fn digest_often(bytes: &mut Vec<u8>, count: u32) -> u64 {
    let mut total = 0u64;
    for _ in 0..count {
        let [byte, ..] = Sha256::digest(bytes.as_slice());
        if let Some(first) = bytes.first_mut() {
            *first = byte;
        }
        total = total.wrapping_add(u64::from(byte));
    }
    total
}
