ghost use Rattle.std.specs.Prelude.{◌≡◌, ◌<◌, [], Some, IsSome, OnOk, IsOk};
ghost use Rattle.slot_table.specs.Rows.{row_at, row_of, IsWith};
ghost use Rattle.std.specs.Option.{option_copied};
ghost use Rattle.site.specs.Contents.{slot_at, unless_there};

use fed_types::{BagId, Slot};
use slot_table::SlotTable;
use std::alloc::{AllocError, Global};
use std::marker::Model;

/// The site's deposits, one a slot, in the order in which they were recorded.
#[derive(Drop)]
pub(crate) struct Deposits {
    in_order: Vec<(Slot, BagId)>,
    // The same by slot. A slot without a deposit may have a row too, and then it is empty.
    by_slot: SlotTable<Option<BagId>>,
}

impl Model for Deposits {
    ghost use Rattle.std.specs.Prelude.{vec_capacity, vec_len, ◌-◌};
    ghost use Rattle.site.specs.inner.Kept.{Kept, AreSame};

    ghost Value = { Kept };

    ghost view = { λ d. record {
      bags = d.in_order.items;
      room = vec_capacity d.in_order - vec_len d.in_order;
      by_slot = d.by_slot;
    } };

    ghost invariant = { λ d. AreSame d.in_order.items d.by_slot };
}

impl Deposits {
    /// No slot has a deposit.
    pub(crate) fn new(alloc: Global) -> Deposits
        ensures { result.bags ≡ [] }
    {
        Deposits {
            in_order: Vec::new(alloc),
            by_slot: SlotTable::new(alloc),
        }
    }

    /// The slot's deposit.
    pub(crate) fn of(&self, slot: &Slot) -> Option<BagId>
        ensures { result ≡ row_at self.now.bags slot.now }
    {
        match self.by_slot.get(slot) {
            Some(bag) => *bag,
            None => None,
        }
    }

    /// The slot at this place, counted from 0.
    pub(crate) fn slot_at(&self, place: usize) -> Option<&Slot>
        ensures { option_copied result ≡ slot_at self.now.bags place }
    {
        match self.in_order.get(place) {
            Some(deposit) => Some(&deposit.0),
            None => None,
        }
    }

    /// Makes room for a deposit of this slot.
    pub(crate) fn reserve(&mut self, slot: &Slot) -> Result<(), AllocError>
        ensures same { self.new.bags ≡ self.old.bags }
        ensures room { OnOk result (0 < self.new.room) }
        ensures row { OnOk result (IsSome (row_at self.new.by_slot slot.now)) }
        ensures succeeds { 0 < self.old.room → IsSome (row_at self.old.by_slot slot.now)
            → IsOk result }
    {
        self.in_order.reserve(1)?;
        self.by_slot.reserve(slot, None)
    }

    /// Notes a deposit, unless the slot has one.
    pub(crate) fn note(&mut self, slot: Slot, bag: BagId)
        requires room { 0 < self.old.room }
        requires row { IsSome (row_at self.old.by_slot slot) }
        ensures { self.new.bags ≡ unless_there self.old.bags slot bag (row_at self.old.bags slot) }
    {
        if self.of(&slot).is_some() {
            return;
        }
        keep(&mut self.by_slot, &slot, bag);
        self.in_order.push_reserved((slot, bag));
    }
}

// The slot, which has a row, has this deposit.
fn keep(by_slot: &mut SlotTable<Option<BagId>>, slot: &Slot, bag: BagId)
    requires { IsSome (row_at by_slot.old slot.now) }
    ensures { IsWith by_slot.old by_slot.new slot.now (Some bag) }
{
    if let Some(own) = by_slot.get_mut(slot) {
        *own = Some(bag);
    }
}
