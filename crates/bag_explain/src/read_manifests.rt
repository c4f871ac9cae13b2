ghost use Rattle.std.specs.Prelude.{◌≡◌, ◌++◌, IfOk, OnOk, map};
ghost use Rattle.bag_text.specs.Lines.{lines_of};
ghost use Rattle.bag_text.specs.Readers.{entries_of};
ghost use Rattle.bag_check.specs.Manifests.{manifest_at, manifests_of_kind};
ghost use Rattle.bag_explain.specs.Lines.{numbered, if_malformed};
ghost use Rattle.bag_explain.specs.Listings.{listing_of, listings_of};

use crate::numbered_listing::{NumberedEntry, NumberedListing};
use bag_check::{FilesByPath, Kind};
use bag_text::{Algorithm, Entry, TextFault, lines, manifest};
use std::alloc::{AllocError, Global};

/// What each manifest lists.
pub(crate) fn listings<'a>(
    alloc: Global,
    files: &FilesByPath<'a>,
) -> Result<Vec<NumberedListing<'a>>, AllocError>
    ensures { IfOk result (λ found. found.items ≡ listings_of files.now) }
{
    let mut found = Vec::new(alloc);
    read_kind(alloc, files, Kind::Payload, &mut found)?;
    read_kind(alloc, files, Kind::Tag, &mut found)?;
    Ok(found)
}

// Reads the manifests of this kind.
fn read_kind<'a>(
    alloc: Global,
    files: &FilesByPath<'a>,
    kind: Kind,
    found: &mut Vec<NumberedListing<'a>>,
) -> Result<(), AllocError>
    ensures { OnOk result (found.new.items
        ≡ found.old.items ++ map listing_of (manifests_of_kind kind files.now)) }
{
    read(alloc, files, kind, Algorithm::Md5, found)?;
    read(alloc, files, kind, Algorithm::Sha1, found)?;
    read(alloc, files, kind, Algorithm::Sha256, found)?;
    read(alloc, files, kind, Algorithm::Sha512, found)
}

// Reads the manifest of this kind and algorithm, where there is one.
fn read<'a>(
    alloc: Global,
    files: &FilesByPath<'a>,
    kind: Kind,
    algorithm: Algorithm,
    found: &mut Vec<NumberedListing<'a>>,
) -> Result<(), AllocError>
    ensures { OnOk result (found.new.items
        ≡ found.old.items ++ map listing_of (manifest_at kind algorithm files.now)) }
{
    let Some(text) = files.text_at(kind.manifest_name(algorithm)) else {
        return Ok(());
    };
    let listing = read_text(alloc, kind, algorithm, text)?;
    found.push(listing)?;
    Ok(())
}

// Reads the text of a manifest, line by line.
fn read_text(
    alloc: Global,
    kind: Kind,
    algorithm: Algorithm,
    text: &[u8],
) -> Result<NumberedListing<'_>, AllocError>
    ensures { IfOk result (λ listing. listing ≡ listing_of record {
      kind = kind;
      algorithm = algorithm;
      text = text.now;
    }) }
{
    let lines = lines_in(alloc, text)?;
    let mut malformed = Vec::new(alloc);
    let mut entries = Vec::new(alloc);
    let mut number: usize = 0;
    for line in &lines {
        number += 1;
        read_line(alloc, algorithm, number, line, &mut malformed, &mut entries)?;
    }
    Ok(NumberedListing::new(kind, algorithm, malformed, entries))
}

fn lines_in(alloc: Global, text: &[u8]) -> Result<Vec<&[u8]>, AllocError>
    ensures { IfOk result (λ found. map (λ line. line.now) found.items ≡ lines_of text.now) }
{
    match lines(alloc, text) {
        Ok(found) => Ok(found),
        Err(_) => Err(AllocError),
    }
}

// Reads the line of this number: the entry that it is, or that it is malformed.
fn read_line<'a>(
    alloc: Global,
    algorithm: Algorithm,
    number: usize,
    line: &'a [u8],
    malformed: &mut Vec<usize>,
    entries: &mut Vec<NumberedEntry<'a>>,
) -> Result<(), AllocError>
    ensures malformed { OnOk result (malformed.new.items
        ≡ malformed.old.items ++ if_malformed number (entries_of algorithm line.now)) }
    ensures entries { OnOk result (entries.new.items
        ≡ entries.old.items ++ numbered number (entries_of algorithm line.now)) }
{
    match manifest(alloc, algorithm, line) {
        Ok(listed) => push_listed(number, listed, entries),
        Err(TextFault::Malformed(_)) => {
            malformed.push(number)?;
            Ok(())
        }
        Err(TextFault::Memory) => Err(AllocError),
    }
}

// Adds the one entry that a line lists, if it does.
fn push_listed<'a>(
    number: usize,
    listed: Vec<Entry<'a>>,
    entries: &mut Vec<NumberedEntry<'a>>,
) -> Result<(), AllocError>
    ensures { OnOk result (entries.new.items
        ≡ entries.old.items ++ numbered number (Ok listed.entry.items)) }
{
    let mut listed = listed;
    if listed.is_empty() {
        return Ok(());
    }
    let entry = listed.remove(0);
    entries.push(NumberedEntry::new(number, entry))?;
    Ok(())
}
