ghost use Rattle.std.specs.Prelude.{◌≡◌, ◌≤◌, ◌↔◌, ℕ, IsSome, IfSome};

use std::marker::Model;

/// The number by which a schedule names a tree of files, at least 1. A clause sees the number.
#[derive(Clone, Copy, Debug, PartialEq, Eq)]
pub struct TreeNo {
    number: u32,
}

impl Model for TreeNo {
    ghost Value = { ℕ };

    ghost view = { λ t. t.number };

    ghost invariant = { λ t. 1 ≤ t.number };

    ghost inverse = { λ n. record { number = n } };
}

impl TreeNo {
    /// The tree of this number, unless it is 0.
    pub fn new(number: u32) -> Option<TreeNo>
        ensures some { IsSome result ↔ (1 ≤ number) }
        ensures value { IfSome result (λ t. t ≡ number) }
    {
        if number == 0 {
            return None;
        }
        Some(TreeNo { number })
    }

    /// The number, at least 1.
    pub fn number(self) -> u32
        ensures value { result ≡ self }
        ensures in_range { 1 ≤ result }
    {
        self.number
    }
}
