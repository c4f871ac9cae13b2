ghost use Rattle.std.specs.Prelude.{◌≡◌, ◌↔◌, IsSome, IfSome};
ghost use Rattle.dgram.specs.Limits.{IsFaultNo};

use std::marker::Model;

/// The number of a fault, 1 to `GREATEST`. A clause sees the number.
#[derive(Clone, Copy, Debug, PartialEq, Eq)]
pub struct FaultNo<const GREATEST: u8> {
    number: u8,
}

impl<const GREATEST: u8> Model for FaultNo<GREATEST> {
    ghost use Rattle.std.specs.Prelude.{ℕ};
    ghost use Rattle.dgram.specs.Limits.{IsFaultNo};

    ghost Value = { ℕ };

    ghost view = { λ f. f.number };

    ghost invariant = { λ f. IsFaultNo GREATEST f.number };

    ghost inverse = { λ n. record { number = n } };
}

impl<const GREATEST: u8> FaultNo<GREATEST> {
    /// The fault of this number, unless it is 0 or more than `GREATEST`.
    pub fn new(number: u8) -> Option<FaultNo<GREATEST>>
        ensures some { IsSome result ↔ IsFaultNo GREATEST number }
        ensures value { IfSome result (λ f. f ≡ number) }
    {
        if number == 0 || GREATEST < number {
            return None;
        }
        Some(FaultNo { number })
    }

    /// The number, 1 to `GREATEST`.
    pub fn number(self) -> u8
        ensures value { result ≡ self.entry }
        ensures in_range { IsFaultNo GREATEST result }
    {
        self.number
    }
}
