//! Rows of a table, by their slot.

ghost use Rattle.std.specs.Prelude.{◌≡◌, Some, IsSome};
ghost use Rattle.slot_table.specs.Rows.{row_at, IsWith};

use fed_types::Slot;
use slot_table::SlotTable;

/// What a caller knows of a row that it wrote in place.
pub fn write(table: &mut SlotTable<u32>, slot: &Slot, row: u32)
    requires { IsSome (row_at table.old slot.now) }
    ensures { IsWith table.old table.new slot.now row }
{
    if let Some(old) = table.get_mut(slot) {
        *old = row;
    }
}

/// And if it doesn't write.
pub fn look(table: &mut SlotTable<u32>, slot: &Slot) -> u32
    requires { IsSome (row_at table.old slot.now) }
    ensures value { Some result ≡ row_at table.old slot.now }
    ensures unchanged { table.new ≡ table.old }
{
    match table.get_mut(slot) {
        Some(row) => *row,
        None => 0,
    }
}
