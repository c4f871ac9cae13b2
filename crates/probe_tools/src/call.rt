use crate::fault::ToolFault;
use crate::push::push;
use bag_tree::Facts;
use cell_device::MemoryCell;
use dgram::{DgramFault, decode};
use fed_types::{SiteNo, Slot};
use site::{Answer, Reply, Site, SiteFault};
use std::alloc::Global;

/// A call of a site.
#[derive(Clone, Copy)]
pub(crate) enum Call<'a> {
    Deposit(&'a Slot, &'a Facts),
    Propose(&'a Slot),
    Recover(&'a Slot),
    Ask(&'a Slot, SiteNo),
    Arrive(&'a [u8]),
}

/// Why a call has no answer.
#[derive(Clone, Copy)]
pub(crate) enum Failure {
    /// The site refuses it.
    Refused(SiteFault),
    /// There is no such call, or its answer is wrong.
    Faulty(ToolFault),
}

impl From<ToolFault> for Failure {
    fn from(fault: ToolFault) -> Failure {
        Failure::Faulty(fault)
    }
}

/// How often a call is made.
#[derive(Clone, Copy)]
pub enum Tries {
    /// Once: where it finds no memory its site is closed, and the script ends.
    Once,
    /// Again where it finds no memory, when it has to find some.
    Twice,
}

/// Makes a call. If it finds no memory, it has to leave unchanged the reply for each slot that has
/// a record, and for its own slot.
pub(crate) fn make(
    alloc: Global,
    site: &mut Site<MemoryCell>,
    call: &Call,
) -> Result<Answer, Failure> {
    let before = replies(alloc, site, call)?;
    make_from(alloc, site, call, before.as_slice())
}

fn make_from(
    alloc: Global,
    site: &mut Site<MemoryCell>,
    call: &Call,
    before: &[Result<Reply, SiteFault>],
) -> Result<Answer, Failure> {
    let made = make_once(site, call);
    if let Err(SiteFault::Memory) = made {
        check_replies(alloc, site, call, before)?;
    }
    match made {
        Ok(answer) => Ok(answer),
        Err(fault) => Err(Failure::Refused(fault)),
    }
}

/// Makes a call, and makes it again where it finds no memory.
pub(crate) fn make_twice(
    alloc: Global,
    site: &mut Site<MemoryCell>,
    call: &Call,
) -> Result<Answer, Failure> {
    match make(alloc, site, call) {
        Err(Failure::Refused(SiteFault::Memory)) => make_again(site, call),
        made => made,
    }
}

fn make_again(site: &mut Site<MemoryCell>, call: &Call) -> Result<Answer, Failure> {
    match make_once(site, call) {
        Ok(answer) => Ok(answer),
        Err(SiteFault::Memory) => Err(Failure::Faulty(ToolFault::Wrong)),
        Err(fault) => Err(Failure::Refused(fault)),
    }
}

fn make_once(site: &mut Site<MemoryCell>, call: &Call) -> Result<Answer, SiteFault> {
    match *call {
        Call::Deposit(slot, facts) => site.deposit(slot, facts),
        Call::Propose(slot) => site.propose(slot),
        Call::Recover(slot) => site.recover(slot),
        Call::Ask(slot, to) => site.ask(slot, to),
        Call::Arrive(bytes) => site.arrive(bytes),
    }
}

/// Whether these are the replies still.
fn check_replies(
    alloc: Global,
    site: &Site<MemoryCell>,
    call: &Call,
    before: &[Result<Reply, SiteFault>],
) -> Result<(), ToolFault> {
    let after = replies(alloc, site, call)?;
    if after.as_slice() == before {
        Ok(())
    } else {
        Err(ToolFault::Wrong)
    }
}

/// What a query says for the slot of each record, in order, and for the slot of the call.
fn replies(
    alloc: Global,
    site: &Site<MemoryCell>,
    call: &Call,
) -> Result<Vec<Result<Reply, SiteFault>>, ToolFault> {
    let mut replies = Vec::new(alloc);
    match push_replies(alloc, site, call, &mut replies) {
        Ok(()) => Ok(replies),
        Err(fault) => Err(fault),
    }
}

fn push_replies(
    alloc: Global,
    site: &Site<MemoryCell>,
    call: &Call,
    replies: &mut Vec<Result<Reply, SiteFault>>,
) -> Result<(), ToolFault> {
    for record in site.records() {
        push(replies, site.query(&record.slot))?;
    }
    match *call {
        Call::Deposit(slot, _) | Call::Propose(slot) | Call::Recover(slot) | Call::Ask(slot, _) => {
            push(replies, site.query(slot))?;
        }
        Call::Arrive(bytes) => push_reply_of(alloc, site, bytes, replies)?,
    }
    Ok(())
}

/// Adds the reply for a datagram's slot; for bytes that are no datagram it adds nothing.
fn push_reply_of(
    alloc: Global,
    site: &Site<MemoryCell>,
    bytes: &[u8],
    replies: &mut Vec<Result<Reply, SiteFault>>,
) -> Result<(), ToolFault> {
    match decode(alloc, site.members().federation(), bytes) {
        Ok(message) => push(replies, site.query(&message.slot)),
        Err(DgramFault::Memory) => Err(ToolFault::Memory),
        Err(_) => Ok(()),
    }
}
