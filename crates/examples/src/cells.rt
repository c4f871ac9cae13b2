//! Cells in memory from which nothing was cut.

ghost use Rattle.std.specs.Prelude.{◌≡◌, ◌≤◌, length, IfOk};
ghost use Rattle.cell_device.specs.Images.{at_rest};
ghost use Rattle.cell_device.specs.Memory.{image_of};

use cell_device::{Cell, CellFault, MemoryCell};
use std::alloc::{AllocError, Global};

/// A new cell rests at its bytes.
pub fn new_cell(alloc: Global, bytes: &[u8]) -> Result<MemoryCell, AllocError>
    ensures { IfOk result (λ cell. image_of cell ≡ at_rest bytes.now) }
{
    Ok(MemoryCell::new(alloc, bytes.to_vec(alloc)?))
}

/// An append to a cell from which nothing is cut, which stays so.
pub fn push(cell: &mut MemoryCell, bytes: &[u8]) -> Result<(), CellFault>
    requires newest { length (image_of cell.old).synced ≤ length (image_of cell.old).newest }
    requires seen { length (image_of cell.old).synced ≤ length (image_of cell.old).seen }
    ensures newest { length (image_of cell.new).synced ≤ length (image_of cell.new).newest }
    ensures seen { length (image_of cell.new).synced ≤ length (image_of cell.new).seen }
{
    cell.append(bytes)
}

/// The same of a sync.
pub fn keep(cell: &mut MemoryCell) -> Result<(), CellFault>
    requires newest { length (image_of cell.old).synced ≤ length (image_of cell.old).newest }
    requires seen { length (image_of cell.old).synced ≤ length (image_of cell.old).seen }
    ensures newest { length (image_of cell.new).synced ≤ length (image_of cell.new).newest }
    ensures seen { length (image_of cell.new).synced ≤ length (image_of cell.new).seen }
{
    cell.sync()
}

/// The same of a load that fails.
pub fn fails_to_read(cell: &mut MemoryCell, alloc: Global) -> bool
    requires newest { length (image_of cell.old).synced ≤ length (image_of cell.old).newest }
    requires seen { length (image_of cell.old).synced ≤ length (image_of cell.old).seen }
    ensures newest { length (image_of cell.new).synced ≤ length (image_of cell.new).newest }
    ensures seen { length (image_of cell.new).synced ≤ length (image_of cell.new).seen }
{
    cell.load(alloc).is_err()
}
