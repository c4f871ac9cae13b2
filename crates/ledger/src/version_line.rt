//! The lines of versions.

ghost use Rattle.std.specs.Prelude.{◌≡◌, ◌∷◌, ◌++◌, List, IfOk, string_bytes};
ghost use Rattle.std.specs.List.{flat_map};
ghost use Rattle.tokens.specs.Pushes.{Pushes};
ghost use Rattle.records.specs.declared.record.Record.{Record};
ghost use Rattle.ledger.specs.Lines.{ending_line};
ghost use Rattle.ledger.specs.Ledgers.{word_of, named_bag, version_line, listed_line};
ghost use Rattle.ledger.specs.Ledgers.{versions_text};
ghost use Rattle.ledger.specs.inner.Rows.{listed_in, slot_at, text_if, Represents};

use crate::cell_text::push_ending;
use crate::ending::Ending;
use crate::standing::Standing;
use crate::version_filter::VersionFilter;
use crate::versions::{Versions, slot_at, standing_in};
use fed_types::Slot;
use std::alloc::{AllocError, Global};
use tokens::{push_bag, push_slot};

// What is said of a version.
fn word_of(standing: Standing) -> &'static str
    ensures { result.now ≡ word_of standing }
{
    match standing {
        Standing::Known(_) => "known ",
        Standing::Pending(_) => "pending ",
        Standing::Voted(_) => "voted ",
        Standing::Asked => "asked ",
    }
}

// The bag that is named, if one is.
fn push_bag_of(alloc: Global, text: &mut String, standing: Standing) -> Result<(), AllocError>
    ensures { Pushes result text.old text.new (named_bag standing) }
{
    match standing {
        Standing::Known(bag) | Standing::Pending(bag) | Standing::Voted(bag) => {
            push_bag(alloc, text, bag)
        }
        Standing::Asked => Ok(()),
    }
}

// The line of a version.
#[tactic(auto, unfolding(crate::specs::Ledgers::version_line), using(std::proofs::Common::append_assoc))]
fn push_version(
    alloc: Global,
    text: &mut String,
    slot: &Slot,
    standing: Standing,
) -> Result<(), AllocError>
    ensures { Pushes result text.old text.new (version_line slot.now standing) }
{
    text.push_str(word_of(standing))?;
    push_slot(text, slot)?;
    push_bag_of(alloc, text, standing)?;
    text.push('\n')
}

// The line of a version, where it is listed.
fn push_listed(
    alloc: Global,
    text: &mut String,
    wanted: VersionFilter,
    slot: &Slot,
    standing: Standing,
) -> Result<(), AllocError>
    ensures { Pushes result text.old text.new (listed_line wanted slot.now standing) }
{
    if wanted.has(standing) {
        push_version(alloc, text, slot, standing)
    } else {
        Ok(())
    }
}

// The line of the version at this place, if there is one, and it is listed.
fn push_at(
    alloc: Global,
    text: &mut String,
    wanted: VersionFilter,
    versions: &Versions,
    place: usize,
) -> Result<(), AllocError>
    ensures { Pushes result text.old text.new
        (text_if (listed_in wanted versions.now.rows) (slot_at versions.now place)) }
{
    match slot_at(versions, place) {
        Some(slot) => push_listed(alloc, text, wanted, slot, standing_in(versions, slot)),
        None => Ok(()),
    }
}

// The lines of the versions that are listed.
fn push_versions(
    alloc: Global,
    text: &mut String,
    wanted: VersionFilter,
    versions: &Versions,
) -> Result<(), AllocError>
    ensures { Pushes result text.old text.new
        (flat_map (listed_in wanted versions.now.rows) versions.now.slots) }
{
    for place in 0..versions.slots().len() {
        push_at(alloc, text, wanted, versions, place)?;
    }
    Ok(())
}

/// The lines of versions, in the order of their first records, and how their cell ends. It fails
/// only if memory runs out.
pub(crate) fn versions_text(
    alloc: Global,
    versions: &Versions,
    wanted: VersionFilter,
    ending: Ending,
) -> Result<String, AllocError>
    ensures { IfOk result (λ text. (records : List Record)
        → Represents versions.now records
        → string_bytes text ≡ versions_text wanted records ++ ending_line ending) }
{
    let mut text = String::new(alloc);
    push_versions(alloc, &mut text, wanted, versions)?;
    push_ending(&mut text, ending)?;
    Ok(text)
}
