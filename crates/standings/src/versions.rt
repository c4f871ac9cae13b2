//! How many versions files know.

ghost use Rattle.std.specs.Prelude.{◌≡◌, IfOk, OnOk};
ghost use Rattle.slot_table.specs.Listings.{listed};
ghost use Rattle.standings.specs.Versions.{versions_in};

use known_bags::KnownBag;
use slot_table::ListedRows;
use std::alloc::{AllocError, Global};

/// How many versions these are. One of which several bags are told counts once.
#[tactic(auto, unfolding(crate::specs::Versions::versions_in))]
pub fn versions_in(alloc: Global, bags: &[KnownBag]) -> Result<usize, AllocError>
    ensures { IfOk result (λ count. count ≡ versions_in bags.now) }
{
    let mut listed = ListedRows::new(alloc);
    for known in bags {
        list(&mut listed, known)?;
    }
    Ok(listed.slots().len())
}

// Lists the version of this bag.
fn list(slots: &mut ListedRows<bool>, known: &KnownBag) -> Result<(), AllocError>
    ensures { OnOk result (slots.new.slots ≡ listed slots.old.slots known.now.slot) }
{
    slots.put(&known.slot, true)
}
