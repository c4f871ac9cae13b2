//! What is said of each version, and at last of all.

ghost use Rattle.std.specs.Prelude.{◌≡◌, ◌++◌, IfOk, string_bytes};
ghost use Rattle.catch_up.specs.Lines.{known_line, open_line, count_line};

use fed_types::{BagId, Slot};
use std::alloc::{AllocError, Global};
use tokens::{push_bag, push_slot};

/// `known OBJ V HEX`: the site knows the bag that the source knows; or `other OBJ V HEX HEX`: it
/// knows the first, and the source knows the second.
#[tactic(auto, unfolding(crate::specs::Lines::known_line))]
pub fn known_line(
    alloc: Global,
    slot: &Slot,
    bag: BagId,
    wanted: BagId,
) -> Result<String, AllocError>
    ensures { IfOk result (λ line. string_bytes line ≡ known_line slot.now bag wanted) }
{
    let mut line = String::new(alloc);
    line.push_str(if bag == wanted { "known " } else { "other " })?;
    push_slot(&mut line, slot)?;
    push_bag(alloc, &mut line, bag)?;
    if bag != wanted {
        push_bag(alloc, &mut line, wanted)?;
    }
    line.push('\n')?;
    Ok(line)
}

/// `open OBJ V`: the site doesn't know the version.
#[tactic(auto, unfolding(crate::specs::Lines::open_line))]
pub fn open_line(alloc: Global, slot: &Slot) -> Result<String, AllocError>
    ensures { IfOk result (λ line. string_bytes line ≡ open_line slot.now) }
{
    let mut line = String::new(alloc);
    line.push_str("open ")?;
    push_slot(&mut line, slot)?;
    line.push('\n')?;
    Ok(line)
}

/// `K of N`.
#[tactic(auto, unfolding(crate::specs::Lines::count_line))]
pub fn count_line(alloc: Global, same: usize, count: usize) -> Result<String, AllocError>
    ensures { IfOk result (λ line. string_bytes line ≡ count_line same count) }
{
    format!(in alloc; "{same} of {count}\n")
}
