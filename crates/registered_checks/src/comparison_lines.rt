//! The report on the bags that are held and those that are known.

ghost use Rattle.std.specs.Prelude.{◌≡◌, IfOk, string_bytes};
ghost use Rattle.std.specs.List.{flat_map};
ghost use Rattle.tokens.specs.Pushes.{Pushes};
ghost use Rattle.registered_checks.specs.Comparisons.{slot_line, version_line, unknown_line};
ghost use Rattle.registered_checks.specs.Comparisons.{held_lines, missing_line, comparison_text};

use crate::equality::{is_bag, is_held, is_known};
use crate::held_bag::HeldBag;
use fed_types::Slot;
use known_bags::KnownBag;
use std::alloc::{AllocError, Global};
use tokens::{push_escaped, push_slot};

/// For each bag that is held: a line for each version whose known bag it is, or a line that it is
/// no known bag. And a line for each version whose known bag isn't held.
#[tactic(auto, unfolding(crate::specs::Comparisons::comparison_text))]
pub fn comparison_text(
    alloc: Global,
    held: &[HeldBag],
    known: &[KnownBag],
) -> Result<String, AllocError>
    ensures { IfOk result (λ text. string_bytes text ≡ comparison_text held.now known.now) }
{
    let mut text = String::new(alloc);
    push_all_held(&mut text, held, known)?;
    push_all_missing(&mut text, held, known)?;
    Ok(text)
}

// The lines of all bags that are held.
fn push_all_held(text: &mut String, held: &[HeldBag], known: &[KnownBag]) -> Result<(), AllocError>
    ensures { Pushes result text.old text.new (flat_map (held_lines known.now) held.now) }
{
    for bag in held {
        push_held(text, bag, known)?;
    }
    Ok(())
}

// The lines of a bag that is held.
#[tactic(auto, unfolding(crate::specs::Comparisons::held_lines))]
fn push_held(text: &mut String, held: &HeldBag, known: &[KnownBag]) -> Result<(), AllocError>
    ensures { Pushes result text.old text.new (held_lines known.now held.now) }
{
    if is_known(known, held) {
        push_versions(text, held, known)
    } else {
        push_unknown(text, held)
    }
}

// Appends that it is the known bag of no version.
#[tactic(auto, using(std::proofs::Common::append_assoc))]
fn push_unknown(text: &mut String, held: &HeldBag) -> Result<(), AllocError>
    ensures { Pushes result text.old text.new (unknown_line held.now) }
{
    push_escaped(text, held.path())?;
    text.push_str(" is no registered bag\n")
}

// A line for each version whose known bag it is.
fn push_versions(text: &mut String, held: &HeldBag, known: &[KnownBag]) -> Result<(), AllocError>
    ensures { Pushes result text.old text.new (flat_map (version_line held.now) known.now) }
{
    for version in known {
        push_version(text, held, version)?;
    }
    Ok(())
}

// A line, if it is the known bag of this version.
#[tactic(auto, using(std::proofs::Common::append_assoc))]
fn push_version(text: &mut String, held: &HeldBag, version: &KnownBag) -> Result<(), AllocError>
    ensures { Pushes result text.old text.new (version_line held.now version.now) }
{
    if !is_bag(held, version) {
        return Ok(());
    }
    push_escaped(text, held.path())?;
    text.push_str(" is ")?;
    push_slot_line(text, &version.slot)
}

// The lines of the versions whose known bags aren't held.
fn push_all_missing(
    text: &mut String,
    held: &[HeldBag],
    known: &[KnownBag],
) -> Result<(), AllocError>
    ensures { Pushes result text.old text.new (flat_map (missing_line held.now) known.now) }
{
    for version in known {
        push_missing(text, held, version)?;
    }
    Ok(())
}

// A line, if the known bag of this version isn't held.
#[tactic(auto, using(std::proofs::Common::append_assoc))]
fn push_missing(text: &mut String, held: &[HeldBag], version: &KnownBag) -> Result<(), AllocError>
    ensures { Pushes result text.old text.new (missing_line held.now version.now) }
{
    if is_held(held, version) {
        return Ok(());
    }
    text.push_str("not among these: ")?;
    push_slot_line(text, &version.slot)
}

// An object and a version, to the end of the line.
#[tactic(auto, using(std::proofs::Common::append_assoc))]
fn push_slot_line(text: &mut String, slot: &Slot) -> Result<(), AllocError>
    ensures { Pushes result text.old text.new (slot_line slot.now) }
{
    push_slot(text, slot)?;
    text.push('\n')
}
