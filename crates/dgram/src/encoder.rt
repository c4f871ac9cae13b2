ghost use Rattle.std.specs.Prelude.{◌≡◌, ◌+◌, ◌≤◌, vec_len, vec_capacity, IsOk};
ghost use Rattle.fields.specs.Puts.{Puts, PutsAtomically};
ghost use Rattle.dgram.specs.Numbers.{LONGEST_DATAGRAM};
ghost use Rattle.dgram.specs.Messages.{IsMessage};
ghost use Rattle.dgram.specs.Encoding.{prior_bytes, path_bytes, reply_bytes, body_bytes};
ghost use Rattle.dgram.specs.Encoding.{front_bytes, from_byte, start_bytes, message_bytes};
ghost use Rattle.dgram.specs.Encoding.{datagram_of};

use crate::body::Body;
use crate::layout::{LAYOUT, MAGIC, NO_PRIOR, NO_SITE, PRIOR};
use crate::message::Message;
use crate::path::FolderPath;
use crate::values::messages_are_well_formed;
use fed_types::{BagId, SiteNo, Vote};
use fields::{put_bag, put_ballot, put_checksum, put_slot, put_vote};
use std::alloc::AllocError;

fn put_prior(out: &mut Vec<u8>, prior: Option<Vote>) -> Result<(), AllocError>
    ensures { Puts result out.old out.new (prior_bytes prior) }
{
    match prior {
        None => {
            out.push(NO_PRIOR)?;
            Ok(())
        }
        Some(vote) => {
            out.push(PRIOR)?;
            put_vote(out, vote)
        }
    }
}

fn put_path(out: &mut Vec<u8>, path: &FolderPath) -> Result<(), AllocError>
    ensures { Puts result out.old out.new (path_bytes path.now) }
{
    let text = path.as_str();
    out.extend_from_slice(&(text.len() as u16).to_be_bytes())?;
    out.extend_from_slice(text.as_bytes())
}

fn put_reply(out: &mut Vec<u8>, code: u8, bag: &BagId) -> Result<(), AllocError>
    ensures { Puts result out.old out.new (reply_bytes code bag.now) }
{
    out.push(code)?;
    put_bag(out, bag)
}

fn put_body(out: &mut Vec<u8>, body: &Body) -> Result<(), AllocError>
    ensures { Puts result out.old out.new (body_bytes body.now) }
{
    match body {
        Body::Prepare { ballot } => put_ballot(out, *ballot),
        Body::Promise { ballot, prior, .. } => {
            put_ballot(out, *ballot)?;
            put_prior(out, *prior)
        }
        Body::Accept { vote } | Body::Accepted { vote, .. } => put_vote(out, *vote),
        Body::Refused {
            asked,
            standing,
            ..
        } => {
            put_ballot(out, *asked)?;
            put_ballot(out, *standing)
        }
        Body::Ask { .. } | Body::Query | Body::Recover => Ok(()),
        Body::Known { bag, .. } => put_bag(out, bag),
        Body::Deposit { path } => put_path(out, path),
        Body::DepositReply { answer, .. } => put_reply(out, answer.code(), &answer.bag()),
        Body::QueryReply { answer, .. } => put_reply(out, answer.code(), &answer.bag()),
    }
}

fn put_front(out: &mut Vec<u8>, federation: u64, kind: u8) -> Result<(), AllocError>
    ensures { Puts result out.old out.new (front_bytes federation kind) }
{
    out.extend_from_slice(&[MAGIC[0], MAGIC[1], LAYOUT, kind])?;
    out.extend_from_slice(&federation.to_be_bytes())
}

// The sender's byte.
fn byte_of(from: Option<SiteNo>) -> u8
    ensures { result ≡ from_byte from }
{
    match from {
        None => NO_SITE,
        Some(site) => site.number(),
    }
}

// All before the slot.
fn put_start(out: &mut Vec<u8>, federation: u64, body: &Body) -> Result<(), AllocError>
    ensures { Puts result out.old out.new (start_bytes federation body.now) }
{
    put_front(out, federation, body.kind())?;
    out.push(byte_of(body.from()))?;
    Ok(())
}

// All before the checksum.
fn put_message(federation: u64, message: &Message, out: &mut Vec<u8>) -> Result<(), AllocError>
    ensures { Puts result out.old out.new (message_bytes federation message.now) }
{
    put_start(out, federation, &message.body)?;
    put_slot(out, &message.slot)?;
    put_body(out, &message.body)
}

// The checksum is of what is appended here alone.
fn put_datagram(federation: u64, message: &Message, out: &mut Vec<u8>) -> Result<(), AllocError>
    ensures { Puts result out.old out.new (datagram_of federation message.now) }
{
    let from = out.len();
    put_message(federation, message, out)?;
    put_checksum(out, from)
}

/// Appends the message's datagram in the federation, atomically: where it doesn't fit the capacity
/// and an allocation fails, `out` has the items that it had. With room for `LONGEST_DATAGRAM` bytes
/// more it never fails.
pub fn encode(federation: u64, message: &Message, out: &mut Vec<u8>) -> Result<(), AllocError>
    ensures message { IsMessage message.now }
    ensures puts { PutsAtomically result out.old out.new (datagram_of federation message.now) }
    ensures room { vec_len out.old + LONGEST_DATAGRAM ≤ vec_capacity out.old → IsOk result }
{
    messages_are_well_formed(message);
    let before = out.len();
    let put = put_datagram(federation, message, out);
    if put.is_err() {
        out.truncate(before);
    }
    put
}
