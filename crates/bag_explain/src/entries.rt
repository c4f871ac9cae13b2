ghost use Rattle.std.specs.Prelude.{◌≡◌, ℕ, not, ◌&&◌, ◌∷◌, [], List, IfOk};
ghost use Rattle.std.specs.Cmp.Lexicographic.{slice_cmp};
ghost use Rattle.std.specs.Ordering.{nat_cmp};
ghost use Rattle.std.specs.List.{flat_map};
ghost use Rattle.std.specs.BTreeSet.{contains_by};
ghost use Rattle.bag_tree.specs.Path.{is_payload};
ghost use Rattle.bag_check.specs.Manifests.{is_listed};
ghost use Rattle.tokens.specs.Pushes.{Pushes};
ghost use Rattle.bag_explain.specs.Places.{when, at_unlisted, files_in, repeated_at, unlisted_at};
ghost use Rattle.bag_explain.specs.Places.{malformed_places, repeated_places, unlisted_places};
ghost use Rattle.bag_explain.specs.Places.{repeated_after};
ghost use Rattle.bag_explain.specs.Findings.{printed_places};
ghost use Rattle.bag_explain.specs.declared.entries.ListingFault.TheVariants.{OfEntry};
ghost use Rattle.bag_explain.specs.inner.Stages.{fault_of, places_in, printed_in, printed_listings};
ghost use Rattle.bag_explain.specs.inner.Stages.{printed_gaps};

use crate::entry_fault::{EntryFault, push_if_faulty, push_path_if};
use crate::numbered_listing::{NumberedEntry, NumberedListing};
use crate::print::{push_line, push_unlisted};
use bag_check::{BagFault, FilesByPath, Kind};
use bag_tree::{FileFacts, is_payload};
use std::alloc::{AllocError, Global};
use std::collections::BTreeSet;

/// The faults of what manifests list.
#[derive(Clone, Copy, Debug)]
pub enum ListingFault {
    /// A line is malformed.
    Malformed,
    /// An entry is at fault, whatever the others are.
    OfEntry(EntryFault),
    /// A payload manifest lists a path again.
    Repeated,
    /// A payload manifest doesn't list a payload file.
    Unlisted,
}

/// Appends the lines of the faults of what manifests list.
pub(crate) fn push_listings(
    alloc: Global,
    text: &mut String,
    files: &FilesByPath<'_>,
    listings: &[NumberedListing<'_>],
) -> Result<(), AllocError>
    ensures { Pushes result text.old text.new (printed_listings files.now listings.now) }
{
    push_gaps(alloc, text, files, listings)?;
    push_fault(
        alloc,
        text,
        ListingFault::OfEntry(EntryFault::Wrong),
        files,
        listings,
    )
}

/// Appends the lines of the same faults, but for wrong digests.
pub(crate) fn push_gaps(
    alloc: Global,
    text: &mut String,
    files: &FilesByPath<'_>,
    listings: &[NumberedListing<'_>],
) -> Result<(), AllocError>
    ensures { Pushes result text.old text.new (printed_gaps files.now listings.now) }
{
    push_fault(alloc, text, ListingFault::Malformed, files, listings)?;
    push_fault(
        alloc,
        text,
        ListingFault::OfEntry(EntryFault::Astray),
        files,
        listings,
    )?;
    push_fault(alloc, text, ListingFault::Repeated, files, listings)?;
    push_fault(
        alloc,
        text,
        ListingFault::OfEntry(EntryFault::Missing),
        files,
        listings,
    )?;
    push_fault(alloc, text, ListingFault::Unlisted, files, listings)
}

// Appends the lines of a fault in these manifests.
fn push_fault(
    alloc: Global,
    text: &mut String,
    fault: ListingFault,
    files: &FilesByPath<'_>,
    listings: &[NumberedListing<'_>],
) -> Result<(), AllocError>
    ensures { Pushes result text.old text.new (printed_in fault files.now listings.now) }
{
    for listing in listings {
        push_places(alloc, text, fault, files, listing)?;
    }
    Ok(())
}

// Appends the lines of a fault in one manifest.
fn push_places(
    alloc: Global,
    text: &mut String,
    fault: ListingFault,
    files: &FilesByPath<'_>,
    listing: &NumberedListing<'_>,
) -> Result<(), AllocError>
    ensures { Pushes result text.old text.new
        (printed_places (fault_of fault) (places_in fault files.now listing.now)) }
{
    match fault {
        ListingFault::Malformed => push_malformed(text, listing),
        ListingFault::OfEntry(fault) => push_entries(text, fault, files, listing),
        ListingFault::Repeated => push_repeated(alloc, text, listing),
        ListingFault::Unlisted => push_all_unlisted(alloc, text, files.files(), listing),
    }
}

// ---- malformed lines

fn push_malformed(text: &mut String, listing: &NumberedListing<'_>) -> Result<(), AllocError>
    ensures { Pushes result text.old text.new
        (printed_places BagFault.MalformedLine (malformed_places listing.now)) }
{
    let name = listing.name();
    for line in listing.malformed() {
        push_line(text, BagFault::MalformedLine, name, *line)?;
    }
    Ok(())
}

// ---- entries that are at fault by themselves

fn push_entries(
    text: &mut String,
    fault: EntryFault,
    files: &FilesByPath<'_>,
    listing: &NumberedListing<'_>,
) -> Result<(), AllocError>
    ensures { Pushes result text.old text.new (printed_places (fault_of (OfEntry fault))
        (places_in (OfEntry fault) files.now listing.now)) }
{
    for entry in listing.entries() {
        push_if_faulty(text, fault, files, listing, entry)?;
    }
    Ok(())
}

// ---- paths that a payload manifest lists again

fn push_repeated(
    alloc: Global,
    text: &mut String,
    listing: &NumberedListing<'_>,
) -> Result<(), AllocError>
    ensures { Pushes result text.old text.new
        (printed_places BagFault.DuplicateEntry (repeated_places listing.now)) }
{
    match listing.kind() {
        Kind::Payload => push_all_repeated(alloc, text, listing),
        Kind::Tag => Ok(()),
    }
}

fn push_all_repeated(
    alloc: Global,
    text: &mut String,
    listing: &NumberedListing<'_>,
) -> Result<(), AllocError>
    ensures { Pushes result text.old text.new (printed_places BagFault.DuplicateEntry
        (flat_map (repeated_at listing.now) (repeated_after [] listing.now.files))) }
{
    let mut seen = BTreeSet::new(alloc);
    for entry in listing.entries() {
        let added = seen.insert(entry.entry().path())?;
        push_path_if(text, !added, BagFault::DuplicateEntry, listing, entry)?;
    }
    Ok(())
}

// ---- files of the payload that a payload manifest doesn't list

fn push_all_unlisted(
    alloc: Global,
    text: &mut String,
    files: &[FileFacts],
    listing: &NumberedListing<'_>,
) -> Result<(), AllocError>
    ensures { Pushes result text.old text.new
        (printed_places BagFault.UnlistedFile (unlisted_places files.now listing.now)) }
{
    if !listing.malformed().is_empty() {
        return Ok(());
    }
    match listing.kind() {
        Kind::Payload => push_left_out(alloc, text, files, listing),
        Kind::Tag => Ok(()),
    }
}

fn push_left_out(
    alloc: Global,
    text: &mut String,
    files: &[FileFacts],
    listing: &NumberedListing<'_>,
) -> Result<(), AllocError>
    ensures { Pushes result text.old text.new (printed_places BagFault.UnlistedFile
        (flat_map (unlisted_at listing.now) files.now)) }
{
    let listed = listed_paths(alloc, listing.entries())?;
    for file in files {
        push_if_outside(text, &listed, file, listing.name())?;
    }
    Ok(())
}

fn push_if_outside(
    text: &mut String,
    listed: &BTreeSet<&str>,
    file: &FileFacts,
    name: &str,
) -> Result<(), AllocError>
    ensures { Pushes result text.old text.new (printed_places BagFault.UnlistedFile
        (when (is_payload file.now.path
        && not (contains_by (λ k. slice_cmp nat_cmp file.now.path k.now) listed.now))
        (at_unlisted file.now.path name.now ∷ []))) }
{
    if !is_outside(listed, file) {
        return Ok(());
    }
    push_unlisted(text, BagFault::UnlistedFile, file.path(), name)
}

fn is_outside(listed: &BTreeSet<&str>, file: &FileFacts) -> bool
    ensures { result ≡ (is_payload file.now.path
        && not (contains_by (λ k. slice_cmp nat_cmp file.now.path k.now) listed.now)) }
{
    is_payload(file.path().as_bytes()) && !listed.contains(file.path())
}

fn listed_paths<'a>(
    alloc: Global,
    entries: &'a [NumberedEntry<'_>],
) -> Result<BTreeSet<&'a str>, AllocError>
    ensures { IfOk result (λ listed. (q : List ℕ) →
        contains_by (λ k. slice_cmp nat_cmp q k.now) listed ≡ is_listed q (files_in entries.now)) }
{
    let mut listed = BTreeSet::new(alloc);
    for entry in entries {
        listed.insert(entry.entry().path())?;
    }
    Ok(listed)
}
