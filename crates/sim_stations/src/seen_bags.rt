ghost use Rattle.std.specs.Prelude.{◌≡◌, ◌++◌, ◌∷◌, [], List, OnOk, OnErr};
ghost use Rattle.lines.specs.Named.{SeenBag, first_tree};
ghost use Rattle.sim_stations.specs.Firsts.{Represents, RepresentsSame};

use fed_types::BagId;
use schedule::TreeNo;
use std::alloc::{AllocError, Global};
use std::collections::BTreeMap;
use std::marker::Model;

/// The valid bags that were deposited, each with the tree of its first deposit. A clause sees the
/// bags and their trees.
#[derive(Drop)]
pub struct SeenBags {
    firsts: BTreeMap<BagId, TreeNo>,
}

impl Model for SeenBags {
    ghost use Rattle.sim_stations.specs.Firsts.{Firsts};

    ghost Value = { Firsts };

    ghost view = { λ s. s.firsts.entries };
}

impl SeenBags {
    /// No bag was seen.
    pub fn new(alloc: Global) -> SeenBags
        ensures { Represents result [] }
    {
        SeenBags {
            firsts: BTreeMap::new(alloc),
        }
    }

    /// Sees the bag in a deposit of this tree.
    pub fn see(&mut self, bag: BagId, tree: TreeNo) -> Result<(), AllocError>
        ensures ok { OnOk result ((seen : List SeenBag) → Represents self.old seen
            → Represents self.new (seen ++ record { bag = bag; tree = tree } ∷ [])) }
        ensures err { OnErr result (RepresentsSame self.old self.new) }
    {
        if self.firsts.contains_key(&bag) {
            return Ok(());
        }
        self.firsts.insert(bag, tree)?;
        Ok(())
    }

    /// The number of the tree in which the bag was seen first, or 0 if none has held it.
    pub fn first_tree(&self, bag: BagId) -> u32
        ensures { (seen : List SeenBag) → Represents self.now seen → result ≡ first_tree bag seen }
    {
        match self.firsts.get(&bag) {
            Some(tree) => tree.number(),
            None => 0,
        }
    }
}
