ghost use Rattle.std.specs.Prelude.{◌≡◌, IfOk};
ghost use Rattle.registered_checks.specs.Held.{held_by};

use fed_types::BagId;
use std::alloc::{AllocError, Global};
use std::marker::Model;

/// The path of a folder, and the identity of the valid bag that it is. A clause sees a `Held`.
#[derive(Debug, Drop)]
pub struct HeldBag {
    path: String,
    bag: BagId,
}

impl Model for HeldBag {
    ghost use Rattle.std.specs.Prelude.{string_bytes};
    ghost use Rattle.registered_checks.specs.Held.{Held};

    ghost Value = { Held };

    ghost view = { λ h. record { path = string_bytes h.path; bag = h.bag } };
}

impl HeldBag {
    /// The bag of the folder of this path.
    pub fn new(alloc: Global, path: &str, bag: BagId) -> Result<HeldBag, AllocError>
        ensures { IfOk result (λ held. held ≡ held_by path.now bag) }
    {
        Ok(HeldBag {
            path: String::from_str(alloc, path)?,
            bag,
        })
    }

    /// The folder's path.
    pub fn path(&self) -> &str
        ensures { result.now ≡ self.now.path }
    {
        self.path.as_str()
    }

    /// The bag's identity.
    pub fn bag(&self) -> BagId
        ensures { result ≡ self.now.bag }
    {
        self.bag
    }
}
