//! Comparisons of ballots, bags and slots.

ghost use Rattle.std.specs.Prelude.{◌≡◌, ◌↔◌, IsTrue};
ghost use Rattle.fed_types.specs.Bags as bags;
ghost use Rattle.fed_types.specs.Ballots as ballots;
ghost use Rattle.fed_types.specs.Ballots.{below};

use fed_types::{BagId, Ballot, Slot};

/// A ballot is less if it is below.
pub fn is_below(a: Ballot, b: Ballot) -> bool
    ensures { result ≡ below a b }
{
    a < b
}

/// And greater if it is above.
#[tactic(auto, using(fed_types::specs::Laws::Ballots::above_below))]
pub fn is_above(a: Ballot, b: Ballot) -> bool
    ensures { result ≡ below b a }
{
    a > b
}

/// Equal ballots are the same.
pub fn same_ballot(a: Ballot, b: Ballot) -> bool
    ensures value { result ≡ ballots.same_ballot a b }
    ensures equal { IsTrue result ↔ (a ≡ b) }
{
    a == b
}

/// Equal bags are the same.
pub fn same_bag(a: BagId, b: BagId) -> bool
    ensures value { result ≡ bags.same_bag a b }
    ensures equal { IsTrue result ↔ (a ≡ b) }
{
    a == b
}

/// Equal slots are the same.
#[tactic(auto, using(fed_types::specs::Laws::Slots::same_slot_decides))]
pub fn same_slot(a: &Slot, b: &Slot) -> bool
    ensures { IsTrue result ↔ (a.now ≡ b.now) }
{
    a == b
}
