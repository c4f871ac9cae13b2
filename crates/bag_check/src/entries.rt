ghost use Rattle.std.specs.Prelude.{◌≡◌, ℕ, not, false, ◌&&◌, List, length, IfOk, IsTrue};
ghost use Rattle.std.specs.Cmp.Lexicographic.{slice_cmp};
ghost use Rattle.std.specs.Ordering.{nat_cmp};
ghost use Rattle.std.specs.List.{list_any, filter};
ghost use Rattle.std.specs.BTreeSet.{contains_by};
ghost use Rattle.bag_tree.specs.Path.{is_payload};
ghost use Rattle.bag_check.specs.Manifests.{is_listed};
ghost use Rattle.bag_check.specs.Check.{is_astray, is_missing, is_wrong};
ghost use Rattle.bag_check.specs.Check.{has_other_digest};
ghost use Rattle.bag_check.specs.Check.{repeats, is_unlisted};
ghost use Rattle.bag_check.specs.inner.Order.{fault_of_listings, has_astray, has_repeat};
ghost use Rattle.bag_check.specs.inner.Order.{has_missing, has_unlisted, has_wrong};

use crate::fault::BagFault;
use crate::files_by_path::FilesByPath;
use crate::listing::Listing;
use crate::manifests::Kind;
use bag_text::{Algorithm, Entry};
use bag_tree::{FileFacts, has_unsafe_part, is_payload};
use std::alloc::{AllocError, Global};
use std::collections::BTreeSet;

/// The first fault in what the manifests list. Each fault is looked for in all manifests before the
/// next one.
#[tactic(auto, unfolding(crate::specs::inner::Order::fault_of_listings))]
pub(crate) fn fault_of_listings(
    alloc: Global,
    listings: &[Listing<'_>],
    files: &FilesByPath<'_>,
) -> Result<Option<BagFault>, AllocError>
    ensures { IfOk result (λ fault. fault ≡ fault_of_listings files.now listings.now) }
{
    if some_astray(listings) {
        return Ok(Some(BagFault::UnsafePath));
    }
    if some_repeat(alloc, listings)? {
        return Ok(Some(BagFault::DuplicateEntry));
    }
    let compared = compare(files, listings);
    let fault = if compared.missing {
        Some(BagFault::MissingFile)
    } else if some_unlisted(alloc, files, listings)? {
        Some(BagFault::UnlistedFile)
    } else if compared.wrong {
        Some(BagFault::WrongDigest)
    } else {
        None
    };
    Ok(fault)
}

// ---- paths that are unsafe, or on the wrong side of the payload's folder

fn some_astray(listings: &[Listing<'_>]) -> bool
    ensures { result ≡ list_any has_astray listings.now }
{
    listings.iter().any(|listing| has_astray(listing))
}

fn has_astray(listing: &Listing<'_>) -> bool
    ensures { result ≡ has_astray listing.now }
{
    let kind = listing.kind();
    listing.entries().iter().any(|entry| is_astray(kind, entry))
}

/// Whether an entry's path is unsafe, or on the wrong side of the payload's folder for this kind of
/// manifest.
pub fn is_astray(kind: Kind, entry: &Entry<'_>) -> bool
    ensures { result ≡ is_astray kind entry.now }
{
    let path = entry.path().as_bytes();
    has_unsafe_part(path)
        || match kind {
            Kind::Payload => !is_payload(path),
            Kind::Tag => is_payload(path),
        }
}

// ---- paths that a payload manifest lists twice

/// Whether a payload manifest lists a path twice.
fn some_repeat(alloc: Global, listings: &[Listing<'_>]) -> Result<bool, AllocError>
    ensures { IfOk result (λ found. found ≡ list_any has_repeat listings.now) }
{
    for listing in listings {
        if has_repeat(alloc, listing)? {
            return Ok(true);
        }
    }
    Ok(false)
}

fn has_repeat(alloc: Global, listing: &Listing<'_>) -> Result<bool, AllocError>
    ensures { IfOk result (λ found. found ≡ has_repeat listing.now) }
{
    match listing.kind() {
        Kind::Payload => repeats(alloc, listing.entries()),
        Kind::Tag => Ok(false),
    }
}

fn repeats(alloc: Global, entries: &[Entry<'_>]) -> Result<bool, AllocError>
    ensures { IfOk result (λ found. found ≡ repeats entries.now) }
{
    // Paths that ascend differ, which takes no set to see.
    if is_ascending(entries) {
        return Ok(false);
    }
    let mut seen = BTreeSet::new(alloc);
    for entry in entries {
        let added = seen.insert(entry.path())?;
        if !added {
            return Ok(true);
        }
    }
    Ok(false)
}

/// Whether each path is greater than the one before it.
fn is_ascending(entries: &[Entry<'_>]) -> bool
    ensures { IsTrue result → repeats entries.now ≡ false }
{
    let mut last = "";
    for entry in entries {
        if last >= entry.path() {
            return false;
        }
        last = entry.path();
    }
    true
}

// ---- listed files that aren't there, or have other digests

/// What entries have found of their files: each is looked up once.
#[derive(Clone, Copy)]
struct Compared {
    /// Whether a listed file isn't there.
    missing: bool,
    /// Whether a listed file has another digest than the listed one.
    wrong: bool,
}

/// Compares what all manifests list with the files.
fn compare(files: &FilesByPath<'_>, listings: &[Listing<'_>]) -> Compared
    ensures missing { result.missing ≡ list_any (has_missing files.now) listings.now }
    ensures wrong { result.wrong ≡ list_any (has_wrong files.now) listings.now }
{
    let mut missing = false;
    let mut wrong = false;
    for listing in listings {
        let found = compare_entries(files, listing.algorithm(), listing.entries());
        missing = missing || found.missing;
        wrong = wrong || found.wrong;
    }
    Compared { missing, wrong }
}

/// Compares what a manifest of this algorithm lists with the files.
fn compare_entries(files: &FilesByPath<'_>, algorithm: Algorithm, entries: &[Entry<'_>]) -> Compared
    ensures missing { result.missing ≡ list_any (is_missing files.now) entries.now }
    ensures wrong { result.wrong ≡ list_any (is_wrong algorithm files.now) entries.now }
{
    let mut missing = false;
    let mut wrong = false;
    for entry in entries {
        match files.file_at(entry.path()) {
            None => missing = true,
            Some(file) => wrong = wrong || has_other_digest(algorithm, entry, file),
        }
    }
    Compared { missing, wrong }
}

/// Whether an entry's file is there, and its digest by the manifest's algorithm isn't the entry's;
/// a digest that wasn't computed is never wrong.
pub fn is_wrong(algorithm: Algorithm, files: &FilesByPath<'_>, entry: &Entry<'_>) -> bool
    ensures { result ≡ is_wrong algorithm files.now entry.now }
{
    match files.file_at(entry.path()) {
        None => false,
        Some(file) => has_other_digest(algorithm, entry, file),
    }
}

/// Whether the file's digest by this algorithm isn't the entry's.
fn has_other_digest(algorithm: Algorithm, entry: &Entry<'_>, file: &FileFacts) -> bool
    ensures { result ≡ has_other_digest algorithm entry.now.digest (Some file.now) }
{
    !file.has_digest(algorithm, entry.digest())
}

// ---- files of the payload that a payload manifest doesn't list

/// Whether a payload file isn't listed in some payload manifest. What manifests list was found to
/// be there, in its place, and listed once.
fn some_unlisted(
    alloc: Global,
    files: &FilesByPath<'_>,
    listings: &[Listing<'_>],
) -> Result<bool, AllocError>
    requires placed { list_any has_astray listings.now ≡ false }
    requires once { list_any has_repeat listings.now ≡ false }
    requires there { list_any (has_missing files.now) listings.now ≡ false }
    ensures { IfOk result (λ found. found ≡ list_any (has_unlisted files.now) listings.now) }
{
    for listing in listings {
        if has_unlisted(alloc, files.files(), listing)? {
            return Ok(true);
        }
    }
    Ok(false)
}

fn has_unlisted(
    alloc: Global,
    files: &[FileFacts],
    listing: &Listing<'_>,
) -> Result<bool, AllocError>
    requires placed { has_astray listing.now ≡ false }
    requires once { has_repeat listing.now ≡ false }
    requires there { has_missing files.now listing.now ≡ false }
    ensures { IfOk result (λ found. found ≡ has_unlisted files.now listing.now) }
{
    match listing.kind() {
        Kind::Payload => leaves_out(alloc, listing.entries(), files),
        Kind::Tag => Ok(false),
    }
}

/// Whether the entries, each of another payload file, leave one out.
fn leaves_out(alloc: Global, entries: &[Entry<'_>], files: &[FileFacts]) -> Result<bool, AllocError>
    requires placed { list_any (is_astray Kind.Payload) entries.now ≡ false }
    requires once { repeats entries.now ≡ false }
    requires there { list_any (is_missing files.now) entries.now ≡ false }
    ensures { IfOk result (λ found. found ≡ list_any (is_unlisted entries.now) files.now) }
{
    // If there are no more files than entries, each has one.
    if payload_count(files) <= entries.len() {
        return Ok(false);
    }
    let listed = listed_paths(alloc, entries)?;
    Ok(some_outside(&listed, files))
}

/// How many files of the payload there are.
fn payload_count(files: &[FileFacts]) -> usize
    ensures { result ≡ length (filter (λ f. is_payload f.path) files.now) }
{
    files
        .iter()
        .filter(|file| is_payload(file.path().as_bytes()))
        .count()
}

/// Whether a payload file is none of the listed ones.
fn some_outside(listed: &BTreeSet<&str>, files: &[FileFacts]) -> bool
    ensures { result ≡ list_any (λ file. is_payload file.path
        && not (contains_by (λ k. slice_cmp nat_cmp file.path k.now) listed.now)) files.now }
{
    files.iter().any(|file| is_outside(listed, file))
}

fn is_outside(listed: &BTreeSet<&str>, file: &FileFacts) -> bool
    ensures { result ≡ (is_payload file.now.path
        && not (contains_by (λ k. slice_cmp nat_cmp file.now.path k.now) listed.now)) }
{
    is_payload(file.path().as_bytes()) && !listed.contains(file.path())
}

fn listed_paths<'a>(
    alloc: Global,
    entries: &'a [Entry<'_>],
) -> Result<BTreeSet<&'a str>, AllocError>
    ensures { IfOk result (λ listed. (q : List ℕ) →
        contains_by (λ k. slice_cmp nat_cmp q k.now) listed ≡ is_listed q entries.now) }
{
    let mut listed = BTreeSet::new(alloc);
    for entry in entries {
        listed.insert(entry.path())?;
    }
    Ok(listed)
}
