ghost use Rattle.site.specs.inner.Begun.{BeginsBallot};

use crate::answer::Answer;
use crate::datagrams::to_all;
use crate::fault::SiteFault;
use crate::tables::Tables;
use dgram::{Body, Message};
use fed_types::Slot;
use records::{Entry, Owner, Record, Round};
use std::alloc::Global;

/// Begins the slot's next ballot: the record of its round, and the answer that asks all members to
/// promise it.
pub(crate) fn begin_ballot(
    alloc: Global,
    owner: &Owner,
    tables: &mut Tables,
    slot: &Slot,
) -> Result<(Record, Answer), SiteFault>
    ensures { BeginsBallot owner.now tables.old tables.new slot.now result }
{
    let ballot = tables.begin(slot)?;
    let body = Body::Prepare { ballot };
    let slot = slot.copy(alloc)?;
    let message = Message { slot, body };
    let sends = to_all(alloc, owner.members, &message)?;
    let new = Record {
        slot: message.slot,
        body: Entry::Round(Round::of(ballot)),
    };
    Ok((new, Answer { line: None, sends }))
}
