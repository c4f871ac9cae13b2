ghost use Rattle.std.specs.Prelude.{◌≡◌, IfOk};
ghost use Rattle.tokens.specs.Slots.{slot_of};

use crate::number::parse_number;
use crate::text::parse_text;
use fed_types::Slot;
use std::alloc::{AllocError, Global};

/// The slot of two words: an object's name, and a version. It fails only if memory runs out.
#[tactic(auto, unfolding(crate::specs::Slots::slot_of, crate::specs::Slots::object_of))]
pub fn parse_slot(alloc: Global, object: &[u8], version: &[u8]) -> Result<Option<Slot>, AllocError>
    ensures { IfOk result (λ slot. slot ≡ slot_of object.now version.now) }
{
    let Some(name) = parse_text(alloc, object)? else {
        return Ok(None);
    };
    let Some(version) = parse_number(1, u64::from(u32::MAX), version) else {
        return Ok(None);
    };
    Ok(Slot::new(name, version as u32).ok())
}
