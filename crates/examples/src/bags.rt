//! A check of a bag.

ghost use Rattle.std.specs.Prelude.{◌↔◌, IfOk, IsTrue};
ghost use Rattle.bag_check.specs.Valid.{IsValid};

use bag_check::{BagFault, check, valid_law};
use bag_tree::Facts;
use std::alloc::{AllocError, Global};

/// What a check tells a caller in the standard's own words.
pub fn is_valid(alloc: Global, facts: &Facts) -> Result<bool, AllocError>
    ensures { IfOk result (λ valid. IsTrue valid ↔ IsValid facts.now) }
{
    valid_law();
    match check(alloc, facts) {
        Ok(_) => Ok(true),
        Err(BagFault::Memory) => Err(AllocError),
        Err(_) => Ok(false),
    }
}
