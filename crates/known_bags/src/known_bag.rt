ghost use Rattle.std.specs.Prelude.{◌≡◌};
ghost use Rattle.known_bags.specs.Lists.{known_for};

use fed_types::{BagId, Slot};

/// A version, and the bag that a source knows for it.
#[derive(Debug, Drop)]
pub struct KnownBag {
    pub slot: Slot,
    pub bag: BagId,
    /// Whether it was found where it is looked for.
    pub is_found: bool,
}

impl KnownBag {
    pub(crate) fn new(slot: Slot, bag: BagId) -> KnownBag
        ensures { result ≡ known_for slot bag }
    {
        KnownBag {
            slot,
            bag,
            is_found: false,
        }
    }
}
