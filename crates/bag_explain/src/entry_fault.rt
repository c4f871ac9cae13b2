ghost use Rattle.std.specs.Prelude.{[], ◌∷◌};
ghost use Rattle.tokens.specs.Pushes.{Pushes};
ghost use Rattle.bag_explain.specs.Places.{when, entry_place, digest_place};
ghost use Rattle.bag_explain.specs.Findings.{printed_places};
ghost use Rattle.bag_explain.specs.inner.Stages.{entry_fault_of, faulty_at};

use crate::numbered_listing::{NumberedEntry, NumberedListing};
use crate::print::{push_digest, push_entry};
use bag_check::{BagFault, FilesByPath, is_astray, is_wrong};
use std::alloc::AllocError;

/// A fault of an entry, whatever else its manifest lists.
#[derive(Clone, Copy, Debug)]
pub enum EntryFault {
    /// Its path is unsafe, or on the wrong side of the payload's folder.
    Astray,
    /// Its file isn't there.
    Missing,
    /// Its digest isn't that of its file.
    Wrong,
}

/// Appends the line of the fault, where the entry has it.
pub(crate) fn push_if_faulty(
    text: &mut String,
    fault: EntryFault,
    files: &FilesByPath<'_>,
    listing: &NumberedListing<'_>,
    entry: &NumberedEntry<'_>,
) -> Result<(), AllocError>
    ensures { Pushes result text.old text.new (printed_places (entry_fault_of fault)
        (faulty_at fault files.now listing.now entry.now)) }
{
    match fault {
        EntryFault::Astray => {
            let is_faulty = is_astray(listing.kind(), entry.entry());
            push_path_if(text, is_faulty, BagFault::UnsafePath, listing, entry)
        }
        EntryFault::Missing => {
            let is_faulty = !files.has_file(entry.entry().path());
            push_path_if(text, is_faulty, BagFault::MissingFile, listing, entry)
        }
        EntryFault::Wrong => {
            let is_faulty = is_wrong(listing.algorithm(), files, entry.entry());
            push_digest_if(text, is_faulty, listing, entry)
        }
    }
}

/// Appends the line of a fault of the path of an entry, if that is at fault.
pub(crate) fn push_path_if(
    text: &mut String,
    is_faulty: bool,
    fault: BagFault,
    listing: &NumberedListing<'_>,
    entry: &NumberedEntry<'_>,
) -> Result<(), AllocError>
    ensures { Pushes result text.old text.new
        (printed_places fault (when is_faulty (entry_place listing.now entry.now ∷ []))) }
{
    if !is_faulty {
        return Ok(());
    }
    push_entry(
        text,
        fault,
        entry.entry().path(),
        listing.name(),
        entry.line(),
    )
}

// Appends the line for a wrong digest that an entry lists, if that is the fault.
fn push_digest_if(
    text: &mut String,
    is_faulty: bool,
    listing: &NumberedListing<'_>,
    entry: &NumberedEntry<'_>,
) -> Result<(), AllocError>
    ensures { Pushes result text.old text.new (printed_places BagFault.WrongDigest
        (when is_faulty (digest_place listing.now entry.now ∷ []))) }
{
    if !is_faulty {
        return Ok(());
    }
    push_digest(
        text,
        BagFault::WrongDigest,
        entry.entry().path(),
        listing.algorithm(),
        listing.name(),
        entry.line(),
    )
}
