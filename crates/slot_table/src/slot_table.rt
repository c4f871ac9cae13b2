ghost use Rattle.std.specs.Borrow.{sem};
ghost use Rattle.std.specs.Prelude.{◌≡◌, [], OnOk, OnErr, is_some, IsSome, IsOk};
ghost use Rattle.std.specs.Option.{option_copied, option_copied_mut};
ghost use Rattle.fed_types.specs.Slots.{SlotName};
ghost use Rattle.slot_table.specs.Lends.{lends_row};
ghost use Rattle.slot_table.specs.Rows.{row_at, row_of, IsWith, HasRoomFor, HasRooms, HasSameRows};

use fed_types::Slot;
use std::alloc::{AllocError, Global};
use std::collections::BTreeMap;
use std::marker::Model;

/// A row for each slot that has one. A clause sees the slots and their rows.
///
/// A row is found in a time that grows with the logarithm of the number of rows, whatever the slots
/// are: an adversary may choose names, so the table isn't hashed.
#[derive(Drop)]
pub struct SlotTable<R: Drop> {
    alloc: Global,
    rows: BTreeMap<Slot, R>,
}

impl<R: Drop> Model for SlotTable<R> {
    ghost use Rattle.slot_table.specs.Rows.{Rows};

    ghost Value = { Rows R };

    ghost view = { λ t. t.rows.entries };
}

impl<R: Drop> SlotTable<R> {
    /// No slot has a row.
    pub fn new(alloc: Global) -> SlotTable<R>
        ensures { result ≡ [] }
    {
        SlotTable {
            alloc,
            rows: BTreeMap::new(alloc),
        }
    }

    /// The slot's row, if it has one.
    pub fn get(&self, slot: &Slot) -> Option<&R>
        ensures { option_copied result ≡ row_at self.now slot.now }
    {
        self.rows.get(slot)
    }

    /// The slot's row, if it has one, to be changed in place.
    pub fn get_mut(&mut self, slot: &Slot) -> Option<&mut R>
        ensures value { option_copied_mut result ≡ row_at self.old slot.now }
        ensures* writes_back { sem 𝓛 (lends_row R.row self.entry slot.now result) }
    {
        self.rows.get_mut(slot)
    }

    /// Gives the slot this row, in place of the one that it has, if it has one.
    pub fn put(&mut self, slot: Slot, row: R) -> Result<(), AllocError>
        ensures ok { OnOk result (IsWith self.old self.new slot row) }
        ensures err { OnErr result (self.new ≡ self.old) }
    {
        match self.rows.insert(slot, row) {
            Ok(_) => Ok(()),
            Err(_) => Err(AllocError),
        }
    }

    /// Gives the slot this row if it has none, so that a change of its row takes no memory.
    pub fn reserve(&mut self, slot: &Slot, empty: R) -> Result<(), AllocError>
        ensures present { OnOk result (IsSome (row_at self.new slot.now)) }
        ensures added { OnOk result (HasRoomFor empty self.old self.new slot.now) }
        ensures unchanged { OnErr result (HasSameRows self.old self.new) }
        ensures rooms { HasRooms self.old self.new }
        ensures same { (s : SlotName) → row_of empty self.new s ≡ row_of empty self.old s }
        ensures succeeds { IsSome (row_at self.old slot.now) → IsOk result }
    {
        if self.has(slot) {
            return Ok(());
        }
        let key = slot.copy(self.alloc)?;
        self.put(key, empty)
    }

    /// Whether the slot has a row.
    pub fn has(&self, slot: &Slot) -> bool
        ensures { result ≡ is_some (row_at self.now slot.now) }
    {
        self.rows.contains_key(slot)
    }
}
