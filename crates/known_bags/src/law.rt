ghost use Rattle.std.specs.Prelude.{◌≡◌, ℕ, List, false};
ghost use Rattle.known_bags.specs.declared.known_bag.KnownBag.{KnownBag};
ghost use Rattle.known_bags.specs.Lists.{is_of_damage};
ghost use Rattle.known_bags.specs.Sources.{is_cell, Knows};

/// A list knows nothing if a line of it begins with the word `damaged`: it isn't all that its cell
/// knew. It does nothing: its contract is the law.
pub fn lists_of_damaged_cells_know_nothing()
    ensures { (bytes : List ℕ) (bags : List KnownBag) → Knows bytes bags → is_cell bytes ≡ false
        → is_of_damage bytes ≡ false }
{}
