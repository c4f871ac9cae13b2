//! How a site stands, and the datagrams that ask for it and say so. No site sees them: its port
//! answers.

ghost use Rattle.std.specs.Prelude.{◌≡◌, ◌++◌, IfOk, OnOk};
ghost use Rattle.std.specs.Str.{bytes_eq};
ghost use Rattle.dgram.specs.Encoding.{front_bytes};
ghost use Rattle.udp_site.specs.Status.{front, standing_bytes};
ghost use Rattle.udp_site.specs.Status.{status_question, status_answer};

use crate::movement::kind_byte;
use dgram::{LAYOUT, MAGIC};
use fed_types::SiteNo;
use fields::put_checksum;
use std::alloc::{AllocError, Global};

/// The kind of the question.
const STATUS: u8 = 19;

/// The kind of the answer.
const STATUS_REPLY: u8 = 34;

/// The sender's byte where no site sends.
const NO_SITE: u8 = 0;

/// What a question has in the place of the answer's numbers, so that no answer is longer than its
/// question.
const NO_NUMBERS: [u8; 32] = [0; 32];

/// What a site counts.
#[derive(Clone, Copy, Debug, PartialEq, Eq)]
pub struct Counts {
    /// All records.
    pub records: u64,
    /// The versions whose bag is known.
    pub known: u64,
    /// The site's deposits for versions whose bag isn't known.
    pub pending: u64,
}

/// How a site stands.
#[derive(Clone, Copy, Debug, PartialEq, Eq)]
pub struct Standing {
    /// What it counted last: its port counts again after each batch, but spends no more than a
    /// hundredth of its time with that.
    pub counts: Counts,
    /// For how many milliseconds it has heard no quorum; 0 while it hears one.
    pub alone: u64,
}

/// The question how a site of this federation stands.
pub fn status_question(alloc: Global, federation: u64) -> Result<Vec<u8>, AllocError>
    ensures { IfOk result (λ bytes. bytes.items ≡ status_question federation) }
{
    let mut bytes = Vec::new(alloc);
    put_front(&mut bytes, STATUS, federation, NO_SITE)?;
    bytes.extend_from_slice(&NO_NUMBERS)?;
    put_checksum(&mut bytes, 0)?;
    Ok(bytes)
}

/// The answer of this site of the federation.
pub fn status_answer(
    alloc: Global,
    federation: u64,
    site: SiteNo,
    standing: &Standing,
) -> Result<Vec<u8>, AllocError>
    ensures { IfOk result
        (λ bytes. bytes.items ≡ status_answer federation site standing.now) }
{
    let mut bytes = Vec::new(alloc);
    put_front(&mut bytes, STATUS_REPLY, federation, site.number())?;
    put_standing(&mut bytes, standing)?;
    put_checksum(&mut bytes, 0)?;
    Ok(bytes)
}

/// Whether these bytes ask how a site of this federation stands.
pub(crate) fn is_status_question(
    alloc: Global,
    federation: u64,
    bytes: &[u8],
) -> Result<bool, AllocError>
    ensures { IfOk result
        (λ asks. asks ≡ bytes_eq bytes.now (status_question federation)) }
{
    // All others are told by one byte.
    if kind_byte(bytes) != STATUS {
        return Ok(false);
    }
    let question = status_question(alloc, federation)?;
    Ok(bytes == question.as_slice())
}

// Appends what is before the numbers.
fn put_front(out: &mut Vec<u8>, kind: u8, federation: u64, sender: u8) -> Result<(), AllocError>
    ensures { OnOk result (out.new.items ≡ out.old.items ++ front kind federation sender) }
{
    put_kind(out, kind, federation)?;
    out.push(sender)?;
    Ok(())
}

// Appends magic, layout, kind and federation.
fn put_kind(out: &mut Vec<u8>, kind: u8, federation: u64) -> Result<(), AllocError>
    ensures { OnOk result (out.new.items ≡ out.old.items ++ front_bytes federation kind) }
{
    out.extend_from_slice(&[MAGIC[0], MAGIC[1], LAYOUT, kind])?;
    out.extend_from_slice(&federation.to_be_bytes())
}

// Appends the numbers.
fn put_standing(out: &mut Vec<u8>, standing: &Standing) -> Result<(), AllocError>
    ensures { OnOk result (out.new.items ≡ out.old.items ++ standing_bytes standing.now) }
{
    out.extend_from_slice(&standing.counts.records.to_be_bytes())?;
    out.extend_from_slice(&standing.counts.known.to_be_bytes())?;
    out.extend_from_slice(&standing.counts.pending.to_be_bytes())?;
    out.extend_from_slice(&standing.alone.to_be_bytes())
}
