//! Calls of a site, one for each slot: versions of object `a`.

use crate::fault::ToolFault;
use crate::kind::Kind;
use crate::push::push;
use bag_tree::Facts;
use cell_device::MemoryCell;
use dgram::{Message, encode};
use fed_types::Slot;
use site::{Answer, Line, Site, SiteFault};
use std::alloc::{AllocError, Global};

pub(crate) const FEDERATION: u64 = 7;

/// The slots: this many versions.
pub(crate) fn slots(alloc: Global, count: u32) -> Result<Vec<Slot>, ToolFault> {
    let mut slots = Vec::with_capacity(alloc, count as usize)?;
    match push_slots(alloc, count, &mut slots) {
        Ok(()) => Ok(slots),
        Err(fault) => Err(fault),
    }
}

fn push_slots(alloc: Global, count: u32, slots: &mut Vec<Slot>) -> Result<(), ToolFault> {
    for version in 1..=count {
        push(slots, slot(alloc, version)?)?;
    }
    Ok(())
}

fn slot(alloc: Global, version: u32) -> Result<Slot, ToolFault> {
    Ok(Slot::new(String::from_str(alloc, "a")?, version)?)
}

/// A datagram of the kind for each slot.
pub(crate) fn datagrams(alloc: Global, count: u32, kind: Kind) -> Result<Vec<Vec<u8>>, ToolFault> {
    let mut datagrams = Vec::with_capacity(alloc, count as usize)?;
    match push_datagrams(alloc, count, kind, &mut datagrams) {
        Ok(()) => Ok(datagrams),
        Err(fault) => Err(fault),
    }
}

fn push_datagrams(
    alloc: Global,
    count: u32,
    kind: Kind,
    datagrams: &mut Vec<Vec<u8>>,
) -> Result<(), ToolFault> {
    for version in 1..=count {
        push(datagrams, datagram(alloc, version, kind)?)?;
    }
    Ok(())
}

fn datagram(alloc: Global, version: u32, kind: Kind) -> Result<Vec<u8>, ToolFault> {
    let body = kind.body()?;
    let slot = slot(alloc, version)?;
    encoded(alloc, &Message { slot, body })
}

fn encoded(alloc: Global, message: &Message) -> Result<Vec<u8>, ToolFault> {
    let mut bytes = Vec::with_capacity(alloc, 100)?;
    match encode(FEDERATION, message, &mut bytes) {
        Ok(()) => Ok(bytes),
        Err(_) => Err(ToolFault::Memory),
    }
}

/// Deposits the tree for each slot. Whether each call has an answer.
pub(crate) fn deposit_all(site: &mut Site<MemoryCell>, slots: &[Slot], facts: &Facts) -> bool {
    for slot in slots.iter() {
        if !is_answered(site.deposit(slot, facts)) {
            return false;
        }
    }
    true
}

/// Proposes the deposit of each slot. Whether each call has an answer.
pub(crate) fn propose_all(site: &mut Site<MemoryCell>, slots: &[Slot]) -> bool {
    for slot in slots.iter() {
        if !is_answered(site.propose(slot)) {
            return false;
        }
    }
    true
}

/// Takes in the datagrams. Whether none of them is dropped or refused.
pub(crate) fn take_all(site: &mut Site<MemoryCell>, datagrams: &[Vec<u8>]) -> bool {
    for datagram in datagrams.iter() {
        if !is_taken(site.arrive(datagram.as_slice())) {
            return false;
        }
    }
    true
}

fn is_answered(answer: Result<Answer, SiteFault>) -> bool {
    let is_answered = answer.is_ok();
    drop(answer);
    is_answered
}

fn is_taken(answer: Result<Answer, SiteFault>) -> bool {
    match answer {
        Ok(answer) => !is_dropped(answer),
        Err(_) => false,
    }
}

fn is_dropped(answer: Answer) -> bool {
    let is_dropped = matches!(answer.line, Some(Line::Dropped));
    drop(answer);
    is_dropped
}
