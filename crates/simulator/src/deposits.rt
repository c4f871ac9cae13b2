//! Deposits: a tree is checked, its bag is seen, and then the site is called, which trusts nobody
//! and checks it again.

ghost use Rattle.std.specs.Prelude.{◌<◌, ◌+◌, length, OnOk, IfOk, List, Result};
ghost use Rattle.fed_types.specs.Faults.{IsOrFault};
ghost use Rattle.fed_types.specs.Values.{IsBag};
ghost use Rattle.fed_types.specs.declared.bag_id.BagId.{BagId};
ghost use Rattle.bag_check.specs.Check.{check_of};
ghost use Rattle.bag_check.specs.declared.fault.BagFault.{BagFault};
ghost use Rattle.lines.specs.Named.{SeenBag};
ghost use Rattle.world_law.specs.Trees.{tree_at};
ghost use Rattle.world_law.specs.Worlds.{World, on_deposit, on_checked};
ghost use Rattle.sim_stations.specs.Firsts as firsts;
ghost use Rattle.simulator.specs.Federations.{Represents};
ghost use Rattle.simulator.specs.Seen.{seen_with};

use crate::federation::Federation;
use bag_check::{BagFault, check};
use bag_tree::{Facts, facts_of};
use fed_types::{BagId, Slot, bags_are_well_formed, slots_are_well_formed};
use lines::Reason;
use schedule::{Fate, TreeNo};
use sim_stations::{SeenBags, SiteCall};
use std::alloc::AllocError;

impl Federation {
    /// Hands a member the tree, as it is now.
    pub(crate) fn deposit(
        &mut self,
        number: usize,
        place: usize,
        tree: TreeNo,
        slot: &Slot,
        fate: Fate,
    ) -> Result<(), AllocError>
        requires { place < length self.old.stations.items }
        ensures { OnOk result ((w : World) → Represents self.old w
            → Represents self.new (on_deposit w number (place + 1) tree slot.now fate
            (tree_at tree w.trees))) }
    {
        let Some(files) = self.trees.get(tree) else {
            return self.skip(number, Reason::Tree);
        };
        let facts = facts_of(self.alloc, files)?;
        self.deposit_facts(number, place, tree, slot, fate, &facts)
    }

    // Hands a member a tree of these facts.
    fn deposit_facts(
        &mut self,
        number: usize,
        place: usize,
        tree: TreeNo,
        slot: &Slot,
        fate: Fate,
        facts: &Facts,
    ) -> Result<(), AllocError>
        requires { place < length self.old.stations.items }
        ensures { OnOk result ((w : World) → Represents self.old w
            → Represents self.new (on_checked w number (place + 1) tree slot.now fate
            (check_of facts.now))) }
    {
        if self.is_down(place) {
            return self.skip(number, Reason::Down);
        }
        slots_are_well_formed(slot);
        see(&mut self.seen, tree, check(self.alloc, facts))?;
        self.undergo(place, &SiteCall::Deposit(slot, facts), fate)
    }
}

// Sees the bag that the check of a tree found, if it is one.
fn see(
    seen: &mut SeenBags,
    tree: TreeNo,
    checked: Result<BagId, BagFault>,
) -> Result<(), AllocError>
    ensures well_formed { OnOk result ((found : Result BagId BagFault)
        → IsOrFault BagFault.Memory checked found → IfOk found IsBag) }
    ensures seen { OnOk result ((found : Result BagId BagFault)
        → IsOrFault BagFault.Memory checked found
        → (bags : List SeenBag) → firsts.Represents seen.old bags
        → firsts.Represents seen.new (seen_with tree found bags)) }
{
    match checked {
        Err(BagFault::Memory) => Err(AllocError),
        Err(_) => Ok(()),
        Ok(bag) => {
            bags_are_well_formed(&bag);
            seen.see(bag, tree)
        }
    }
}
