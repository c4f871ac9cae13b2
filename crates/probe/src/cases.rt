//! A line of input is a datagram or a cell: a federation and the hex digits of bytes, or a site and
//! those of a cell with ` | ` between them (`-` for no bytes). After the site may come the weights
//! of the members, and between the two the call that fails in the opening, as `crash` says. Each
//! line is answered in a line, and one that begins with `#` by itself.

use crate::crash::{fuse_of, push_crash};
use crate::datagram_case::push_datagram;
use crate::fault::Fault;
use crate::opened_cells::{owner, push_opening, weighted};
use crate::task::site_of;
use book::Owner;
use cell_device::MemoryCell;
use fed_types::SiteNo;
use std::alloc::Global;

/// The answers to all lines.
pub fn answers(alloc: Global, lines: &str) -> Result<String, Fault> {
    let mut text = String::new(alloc);
    match push_answers(alloc, &mut text, lines) {
        Ok(()) => Ok(text),
        Err(fault) => Err(fault),
    }
}

fn push_answers(alloc: Global, text: &mut String, lines: &str) -> Result<(), Fault> {
    for line in lines.lines() {
        push_answer(alloc, text, line)?;
    }
    Ok(())
}

/// Appends what the datagram says, or what opening the cell gives.
fn push_answer(alloc: Global, text: &mut String, line: &str) -> Result<(), Fault> {
    if line.starts_with("#") {
        return Ok(write!(text, "{line}\n")?);
    }
    match line.split_once(" | ") {
        Some((site, digits)) => push_cell(alloc, text, site, digits),
        None => push_message(alloc, text, line),
    }
}

fn push_cell(alloc: Global, text: &mut String, owner: &str, rest: &str) -> Result<(), Fault> {
    let owner = owner_of(alloc, owner)?;
    match rest.split_once(" | ") {
        Some((words, digits)) => {
            let fuse = fuse_of(words)?;
            push_crash(alloc, text, cell(alloc, digits)?, &owner, fuse)
        }
        None => push_opening(alloc, text, cell(alloc, rest)?, owner),
    }
}

fn cell(alloc: Global, digits: &str) -> Result<MemoryCell, Fault> {
    Ok(MemoryCell::new(alloc, bytes_of(alloc, digits)?))
}

/// The site, and the weights, if there are any.
fn owner_of(alloc: Global, words: &str) -> Result<Owner, Fault> {
    match words.split_once(" ") {
        Some((site, weights)) => {
            let weights = weights_of(alloc, weights)?;
            weighted(site_no(site)?, &weights).or(Err(Fault::Line))
        }
        None => owner(site_no(words)?),
    }
}

fn site_no(digits: &str) -> Result<SiteNo, Fault> {
    site_of(digits).ok_or(Fault::Line)
}

fn weights_of(alloc: Global, words: &str) -> Result<Vec<u8>, Fault> {
    let mut weights = Vec::new(alloc);
    for word in words.split(" ") {
        let weight = word.parse::<u8>().or(Err(Fault::Line))?;
        weights.extend_from_slice(&[weight])?;
    }
    Ok(weights)
}

fn push_message(alloc: Global, text: &mut String, line: &str) -> Result<(), Fault> {
    let (federation, digits) = line.split_once(" ").ok_or(Fault::Line)?;
    let federation = federation.parse::<u64>().or(Err(Fault::Line))?;
    let bytes = bytes_of(alloc, digits)?;
    push_datagram(alloc, text, federation, bytes.as_slice())
}

/// The bytes of these hex digits; none of `-`.
fn bytes_of(alloc: Global, digits: &str) -> Result<Vec<u8>, Fault> {
    if digits == "-" {
        Ok(Vec::new(alloc))
    } else {
        Ok(hex::decode(alloc, digits)?)
    }
}
