ghost use Rattle.std.specs.Prelude.{List, IfOk};
ghost use Rattle.records.specs.declared.record.Record.{Record};
ghost use Rattle.sim_stations.specs.Stations.{Keeps, IsOpened};

use cell_device::MemoryCell;
use records::Owner;
use site::Site;
use std::alloc::{AllocError, Global};

/// Opens the owner's site over a cell that is at rest.
pub(crate) fn open(
    alloc: Global,
    cell: MemoryCell,
    owner: &Owner,
) -> Result<Site<MemoryCell>, AllocError>
    ensures { IfOk result (λ site. (records : List Record) → Keeps owner.now cell records
        → IsOpened owner.now records site) }
{
    let mut cell = cell;
    cell.restart();
    match Site::open(alloc, cell, *owner) {
        Ok(site) => Ok(site),
        // A cell that keeps records causes no other fault.
        Err(_) => Err(AllocError),
    }
}
