ghost use Rattle.std.specs.Prelude.{◌≡◌, ◌≤◌, ◌↔◌, ◌++◌, length, string_bytes, IsOk, IfOk, IsErrOf};
ghost use Rattle.std.specs.Prelude.{refl};
ghost use Rattle.std.specs.Ordering.{as_partial_cmp};
ghost use Rattle.std.specs.Hash as fed;
ghost use Rattle.fed_types.specs.Limits.{greatest_version};
ghost use Rattle.fed_types.specs.Slots.{IsObjectName, same_slot, slot_cmp, slot_name};
ghost use Rattle.fed_types.specs.Laws.Slots.{same_slot_laws, same_slot_equivalence, same_slot_hash};
ghost use Rattle.fed_types.specs.Laws.Slots.{slot_cmp_total, slot_cmp_partial, slot_eq_ties};

use crate::limits::LONGEST_OBJECT;
use crate::type_fault::TypeFault;
use std::alloc::{AllocError, Global};
use std::cmp::Ordering;
use std::hash::{Hash, Hasher};
use std::marker::Model;

/// A slot: an object's name, 1 to `LONGEST_OBJECT` bytes, and a version, at least 1. A clause sees
/// a `SlotName`.
#[derive(Debug, Drop)]
pub struct Slot {
    object: String,
    version: u32,
}

impl Model for Slot {
    ghost use Rattle.std.specs.Prelude.{string_bytes};
    ghost use Rattle.fed_types.specs.Slots.{SlotName, IsSlotName, slot_name};

    ghost Value = { SlotName };

    ghost view = { λ s. record { object = string_bytes s.object; version = s.version } };

    ghost invariant = { λ s. IsSlotName (slot_name (string_bytes s.object) s.version) };
}

impl Slot {
    /// The slot of this object and version. `BadObject` if the name doesn't have 1 to
    /// `LONGEST_OBJECT` bytes, else `ZeroVersion` if the version is 0.
    pub fn new(object: String, version: u32) -> Result<Slot, TypeFault>
        ensures ok { IsOk result ↔ (IsObjectName (string_bytes object) × (1 ≤ version)) }
        ensures value { IfOk result (λ s. s ≡ slot_name (string_bytes object) version) }
        ensures greatest { IfOk result (λ s. s.version ≤ greatest_version) }
        ensures bad_object { IsErrOf result TypeFault.BadObject
            ↔ ¬ IsObjectName (string_bytes object) }
        ensures zero_version { IsErrOf result TypeFault.ZeroVersion
            ↔ (IsObjectName (string_bytes object) × (version ≡ 0)) }
    {
        if object.is_empty() || LONGEST_OBJECT < object.len() {
            return Err(TypeFault::BadObject);
        }
        if version == 0 {
            return Err(TypeFault::ZeroVersion);
        }
        Ok(Slot { object, version })
    }

    /// The object's name, 1 to `LONGEST_OBJECT` bytes.
    pub fn object(&self) -> &str
        ensures value { result.now ≡ self.now.object }
        ensures in_range { IsObjectName result.now }
    {
        self.object.as_str()
    }

    /// The version, at least 1.
    pub fn version(&self) -> u32
        ensures value { result ≡ self.now.version }
        ensures in_range { 1 ≤ result }
        ensures greatest { result ≤ greatest_version }
    {
        self.version
    }

    /// A copy of the slot.
    pub fn copy(&self, alloc: Global) -> Result<Slot, AllocError>
        ensures { IfOk result (λ s. s ≡ self.now) }
    {
        Ok(Slot {
            object: String::from_str(alloc, self.object.as_str())?,
            version: self.version,
        })
    }
}

impl PartialEq for Slot {
    ghost eq = { same_slot };

    ghost laws = { same_slot_laws };

    #[tactic(auto, unfolding(crate::specs::Slots::same_slot))]
    fn eq(&self, other: &Slot) -> bool {
        self.version == other.version && self.object == other.object
    }
}

impl Eq for Slot {
    ghost laws = { same_slot_equivalence };
}

impl Hash for Slot {
    ghost hash_input = { λ s. fed.str s.object ++ fed.u32 s.version };

    ghost respects_eq = { same_slot_hash };

    fn hash<H: Hasher>(&self, state: &mut H) {
        self.object.hash(state);
        self.version.hash(state);
    }
}

impl Ord for Slot {
    ghost cmp = { slot_cmp };

    ghost total = { slot_cmp_total };

    ghost matches_partial_cmp = { λ a b. refl };

    ghost matches_eq = { slot_eq_ties };

    #[tactic(auto, unfolding(crate::specs::Slots::slot_cmp))]
    fn cmp(&self, other: &Slot) -> Ordering {
        let by_object = self.object.cmp(&other.object);
        by_object.then(self.version.cmp(&other.version))
    }
}

impl PartialOrd for Slot {
    ghost partial_cmp = { as_partial_cmp slot_cmp };

    ghost laws = { slot_cmp_partial };

    fn partial_cmp(&self, other: &Slot) -> Option<Ordering> {
        Some(self.cmp(other))
    }
}
