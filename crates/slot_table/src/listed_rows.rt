ghost use Rattle.std.specs.Prelude.{◌≡◌, [], length, OnOk, OnErr};
ghost use Rattle.std.specs.Option.{option_copied};
ghost use Rattle.slot_table.specs.Listings.{listed};
ghost use Rattle.slot_table.specs.Rows.{row_at, IsWith};

use crate::slot_table::SlotTable;
use fed_types::Slot;
use std::alloc::{AllocError, Global};
use std::marker::Model;

/// A row for each slot that has one, and the slots in the order in which they got their first rows.
#[derive(Drop)]
pub struct ListedRows<R: Drop> {
    alloc: Global,
    slots: Vec<Slot>,
    rows: SlotTable<R>,
}

impl<R: Drop> Model for ListedRows<R> {
    ghost use Rattle.slot_table.specs.Listings.{Listing, AreListed};

    ghost Value = { Listing R };

    ghost view = { λ l. record { slots = l.slots.items; rows = l.rows } };

    ghost invariant = { λ l. AreListed l.slots.items l.rows };
}

impl<R: Drop> ListedRows<R> {
    /// No slot has a row.
    pub fn new(alloc: Global) -> ListedRows<R>
        ensures slots { result.slots ≡ [] }
        ensures rows { result.rows ≡ [] }
    {
        ListedRows {
            alloc,
            slots: Vec::new(alloc),
            rows: SlotTable::new(alloc),
        }
    }

    /// The slots that have a row, in the order in which they got their first rows.
    pub fn slots(&self) -> &[Slot]
        ensures { result.now ≡ self.now.slots }
    {
        self.slots.as_slice()
    }

    /// The slot's row, if it has one.
    pub fn get(&self, slot: &Slot) -> Option<&R>
        ensures { option_copied result ≡ row_at self.now.rows slot.now }
    {
        self.rows.get(slot)
    }

    /// Gives the slot this row, in place of the one that it has, if it has one.
    pub fn put(&mut self, slot: &Slot, row: R) -> Result<(), AllocError>
        ensures slots { OnOk result (self.new.slots ≡ listed self.old.slots slot.now) }
        ensures rows { OnOk result (IsWith self.old.rows self.new.rows slot.now row) }
        ensures err { OnErr result (self.new ≡ self.old) }
    {
        if self.rows.has(slot) {
            return self.rows.put(slot.copy(self.alloc)?, row);
        }
        self.slots.reserve(1)?;
        let listed = slot.copy(self.alloc)?;
        self.rows.put(slot.copy(self.alloc)?, row)?;
        self.slots.push_reserved(listed);
        Ok(())
    }
}
