//! How a start begins with its cell.

ghost use Rattle.std.specs.Prelude.{◌≡◌, ◌≢◌, ◌↔◌, Some, Ok, IfErr, OnOk, IsErrOf, IsTrue};
ghost use Rattle.cell_device.specs.declared.fault.CellFault.TheVariants as cell_faults;
ghost use Rattle.cell_device.specs.declared.fuse.FuseState.TheVariants.{Clear};
ghost use Rattle.cell_device.specs.Calls.{HasCause};
ghost use Rattle.cell_device.specs.Images.{IfKnown};
ghost use Rattle.cell_device.specs.Time.{LeavesOnly};
ghost use Rattle.records.specs.Layout.{header_bytes};
ghost use Rattle.site_commands.specs.declared.first_start.Unprepared.TheVariants as unprepared;
ghost use Rattle.site_commands.specs.FirstStarts.{HoldsOldHeader, HoldsWeights, HoldsNewHeader};
ghost use Rattle.site_commands.specs.FirstStarts.{HoldsHeader, IsPrepared, LeavesBegun};
ghost use Rattle.site_commands.specs.inner.Begun.{HasNone, RestsAtNone, RestsAtAll, LeavesHeader};

use cell_device::{Cell, CellFault};
use fed_types::MOST_MEMBERS;
use records::{FRONT, MAGIC, OLD_MAGIC, Owner, header};
use std::alloc::{AllocError, Global};

/// Why a site can't begin with its cell.
#[derive(Clone, Copy, Debug, PartialEq, Eq)]
pub enum Unprepared {
    /// The cell has to be there, and begins with no whole header.
    NoHeader,
    /// The device failed.
    Device,
    /// Out of memory; the cell gives the bytes that it gave.
    Memory,
}

impl From<CellFault> for Unprepared {
    ghost use Rattle.site_commands.specs.inner.Begun.{unprepared_by};

    ghost from_gives = { λ fault e. e ≡ unprepared_by fault };

    fn from(fault: CellFault) -> Unprepared {
        match fault {
            CellFault::Device => Unprepared::Device,
            CellFault::Memory => Unprepared::Memory,
        }
    }
}

/// Sees to it that a site can begin with this cell. One that has to be there needs a whole header,
/// of whichever layout, federation and site, and isn't changed: so a cell that was emptied is never
/// taken for a new one. Otherwise a cell of no bytes gets the owner's header, synced, and any other
/// isn't changed: what it holds is found out where it is opened.
pub fn prepare_cell<C: Cell>(
    alloc: Global,
    cell: &mut C,
    owner: &Owner,
    existing: bool,
) -> Result<(), Unprepared>
    ensures prepared { IfKnown (C.device cell.old).image (λ i.
        IsPrepared existing owner.now i result (C.device cell.new).image) }
    ensures any_moment { LeavesOnly (C.device cell.old) (C.device cell.new)
        (LeavesBegun existing owner.now (C.device cell.old).image) }
    ensures cause { HasCause unprepared.Device
        (C.device cell.old).failures (C.device cell.new).failures result }
    ensures clear { (C.device cell.old).fuse ≡ Some Clear
        → ((C.device cell.new).fuse ≡ Some Clear)
        × IfErr result (λ fault. fault ≢ unprepared.Device) }
{
    let bytes = cell.load(alloc)?;
    if existing {
        return expect_header(&bytes);
    }
    if !bytes.is_empty() {
        return Ok(());
    }
    Ok(write_header(alloc, cell, owner)?)
}

// Writes the owner's header into a cell of no bytes.
fn write_header<C: Cell>(alloc: Global, cell: &mut C, owner: &Owner) -> Result<(), CellFault>
    requires none { HasNone (C.device cell.old).image }
    ensures begun { OnOk result
        (RestsAtAll (header_bytes owner.now) (C.device cell.old).image (C.device cell.new).image) }
    ensures memory { IsErrOf result cell_faults.Memory → HasNone (C.device cell.new).image }
    ensures any_moment { LeavesOnly (C.device cell.old) (C.device cell.new)
        (LeavesHeader (header_bytes owner.now) (C.device cell.old).image) }
    ensures cause { HasCause cell_faults.Device
        (C.device cell.old).failures (C.device cell.new).failures result }
    ensures clear { (C.device cell.old).fuse ≡ Some Clear
        → ((C.device cell.new).fuse ≡ Some Clear)
        × IfErr result (λ fault. fault ≢ cell_faults.Device) }
{
    // Memory is taken before the cell is changed.
    let header = header(alloc, owner)?;
    // What was cut off before is gone for good, and bytes can be appended.
    cell.sync()?;
    append_header(cell, &header)
}

// Appends a header to a cell that rests at no bytes, and syncs.
fn append_header<C: Cell>(cell: &mut C, header: &[u8]) -> Result<(), CellFault>
    requires none { RestsAtNone (C.device cell.old).image }
    ensures begun { OnOk result
        (RestsAtAll header.now (C.device cell.old).image (C.device cell.new).image) }
    ensures memory { IsErrOf result cell_faults.Memory → HasNone (C.device cell.new).image }
    ensures any_moment { LeavesOnly (C.device cell.old) (C.device cell.new)
        (LeavesHeader header.now (C.device cell.old).image) }
    ensures cause { HasCause cell_faults.Device
        (C.device cell.old).failures (C.device cell.new).failures result }
    ensures clear { (C.device cell.old).fuse ≡ Some Clear
        → ((C.device cell.new).fuse ≡ Some Clear)
        × IfErr result (λ fault. fault ≢ cell_faults.Device) }
{
    cell.append(header)?;
    cell.sync()
}

// Refuses bytes that begin with no whole header.
fn expect_header(bytes: &[u8]) -> Result<(), Unprepared>
    ensures header { result ≡ Ok tt ↔ HoldsHeader bytes.now }
    ensures fault { IfErr result (λ fault. fault ≡ unprepared.NoHeader) }
{
    if holds_old_header(bytes) || holds_new_header(bytes) {
        return Ok(());
    }
    Err(Unprepared::NoHeader)
}

// Whether the bytes begin with a whole header of the first layout.
fn holds_old_header(bytes: &[u8]) -> bool
    ensures { IsTrue result ↔ HoldsOldHeader bytes.now }
{
    FRONT <= bytes.len() && &bytes[..4] == OLD_MAGIC.as_slice()
}

// Whether the bytes begin with a whole header of the second layout.
fn holds_new_header(bytes: &[u8]) -> bool
    ensures { IsTrue result ↔ HoldsNewHeader bytes.now }
{
    FRONT <= bytes.len() && &bytes[..4] == MAGIC.as_slice() && holds_weights(&bytes[FRONT..])
}

// Whether the bytes begin with how many members there are, and the weight of each.
fn holds_weights(bytes: &[u8]) -> bool
    ensures { IsTrue result ↔ HoldsWeights bytes.now }
{
    match bytes {
        [] => false,
        [count, rest @ ..] => {
            let count = usize::from(*count);
            1 <= count
                && count <= usize::from(MOST_MEMBERS)
                && count <= rest.len()
                && !rest[..count].contains(&0)
        }
    }
}
