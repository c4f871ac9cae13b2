use crate::fault::ToolFault;
use cell_device::MemoryCell;
use records::{Owner, Record, header};
use site::Site;
use std::alloc::Global;

/// The bytes of the site's cell, by its records; none of its calls has failed.
pub(crate) fn text_of(alloc: Global, site: &Site<MemoryCell>) -> Result<Vec<u8>, ToolFault> {
    let owner = Owner {
        members: site.members(),
        site: site.number(),
    };
    let mut text = header(alloc, &owner)?;
    match push_records(alloc, site.records(), &mut text) {
        Ok(()) => Ok(text),
        Err(fault) => Err(fault),
    }
}

fn push_records(alloc: Global, records: &[Record], text: &mut Vec<u8>) -> Result<(), ToolFault> {
    for record in records {
        text.extend_from_slice(record.to_bytes(alloc)?.as_slice())?;
    }
    Ok(())
}
