ghost use Rattle.std.specs.Prelude.{◌≡◌, ◌++◌, [], ◌∷◌, IfOk, not, true};
ghost use Rattle.deposit_list.specs.Lists.{has_slot};

use crate::deposit::Deposit;
use slot_table::SlotTable;
use std::alloc::{AllocError, Global};
use std::marker::Model;

/// Deposits in order, of which no two are of one version. A clause sees the list of them.
#[derive(Drop)]
pub(crate) struct ListedDeposits {
    alloc: Global,
    deposits: Vec<Deposit>,
    /// The versions that they are of, so that one is found soon.
    slots: SlotTable<bool>,
}

impl Model for ListedDeposits {
    ghost use Rattle.std.specs.Prelude.{List};
    ghost use Rattle.slot_table.specs.Listings.{AreListed};
    ghost use Rattle.deposit_list.specs.declared.deposit.Deposit.{Deposit};
    ghost use Rattle.deposit_list.specs.Lists.{slots_of};

    ghost Value = { List Deposit };

    ghost view = { λ l. l.deposits.items };

    ghost invariant = { λ l. AreListed (slots_of l.deposits.items) l.slots };
}

impl ListedDeposits {
    /// None.
    pub(crate) fn new(alloc: Global) -> ListedDeposits
        ensures { result ≡ [] }
    {
        ListedDeposits {
            alloc,
            deposits: Vec::new(alloc),
            slots: SlotTable::new(alloc),
        }
    }

    /// Appends a deposit, unless one of its version is there, and gives whether it did.
    pub(crate) fn push(&mut self, deposit: Deposit) -> Result<bool, AllocError>
        ensures is { IfOk result (λ is. is ≡ not (has_slot self.old deposit.slot)) }
        ensures pushed { IfOk result (λ is. is ≡ true → self.new ≡ self.old ++ deposit ∷ []) }
    {
        if self.slots.has(&deposit.slot) {
            return Ok(false);
        }
        self.deposits.reserve(1)?;
        self.slots.put(deposit.slot.copy(self.alloc)?, true)?;
        self.deposits.push_reserved(deposit);
        Ok(true)
    }

    /// All of them.
    pub(crate) fn into_vec(self) -> Vec<Deposit>
        ensures { result.items ≡ self }
    {
        self.deposits
    }
}
