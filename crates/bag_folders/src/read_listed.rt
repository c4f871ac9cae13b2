ghost use Rattle.std.specs.Prelude.{◌≡◌, IfOk, IfErr, map, string_bytes};
ghost use Rattle.bag_check.specs.Named.{named_of};
ghost use Rattle.bag_folders.specs.Disk.{HasNamedDigests, HasNeededDigests, HasNoDigests};
ghost use Rattle.bag_folders.specs.Disk.{IsFactBy};
ghost use Rattle.bag_folders.specs.Folders.{IsWalkFault};

use crate::failure::Failure;
use crate::first_look::{bare_facts, shows_fault};
use crate::folder_listing::{FolderListing, ListedFile, list_bag, too_many, unlisted};
use crate::hash_listed::hash_listed;
use crate::open_bag::OpenBag;
use crate::texts_at_hand::TextsAtHand;
use crate::watcher::{Silent, Watcher};
use bag_check::named_by;
use bag_tree::{Algorithms, Facts, FileFacts, TreeFault, is_read_text, is_text_named};
use std::alloc::Global;
use std::fs::Files;

/// Which files have their bytes read.
#[derive(Clone, Copy, Debug, PartialEq, Eq)]
pub(crate) enum Reading {
    /// The texts that describe the bag, and the others if nothing else is wrong.
    Needed,
    /// All files.
    All,
}

/// The facts of the tree in this folder. Its files are read in pieces once all are listed: first
/// the texts that describe the bag, and then all files, if the texts and the list show no fault. No
/// contract knows a disk's bytes; whatever they are, each file's facts are those of some bytes,
/// with the digests that are needed: none if a fault shows without them, else those by the
/// algorithms that the manifests among the files name, and no other.
///
/// Links are followed in two cases only: the folder's own path, and a link that takes a file's
/// place in the moment between the last look at it and its opening.
///
/// The refusals are `Listing`, if a folder is missing or can't be listed or a name in it isn't
/// UTF-8; `NotAFile`, if an entry is neither a file nor a folder; `TooDeep`; `TooMany`, if there
/// are more than `MOST_FILES` files and folders; `TextTooLong`; `Device`, if a file can't be read
/// or is exchanged meanwhile; or `Memory`.
pub fn read_folder<R: Files + AllocGlobal + Clone + Drop>(
    rt: &R,
    folder: &str,
) -> Result<Facts, TreeFault>
    ensures digests { IfOk result HasNeededDigests }
    ensures faults { IfErr result IsWalkFault }
{
    match read_watched(rt, folder, Reading::Needed, &mut Silent) {
        Ok(facts) => Ok(facts),
        Err(failure) => Err(failure.fault),
    }
}

/// The same, with the place of a failure, while the watcher sees how far it is.
pub(crate) fn read_watched<R: Files + AllocGlobal + Clone + Drop, W: Watcher>(
    rt: &R,
    folder: &str,
    reading: Reading,
    watcher: &mut W,
) -> Result<Facts, Failure>
    ensures digests { IfOk result HasNeededDigests }
    ensures faults { IfErr result (λ failure. IsWalkFault failure.fault) }
{
    let mut bag = open_bag(rt, folder)?;
    let listing = list_bag(rt.alloc(), &mut bag)?;
    read_listed(rt.alloc(), &mut bag, listing, reading, watcher)
}

/// The facts of the tree in this folder, of which only the texts that describe the bag are read: no
/// file has a digest. The watcher sees for how many files that is done.
pub(crate) fn read_bare<R: Files + AllocGlobal + Clone + Drop, W: Watcher>(
    rt: &R,
    folder: &str,
    watcher: &mut W,
) -> Result<Facts, Failure>
    ensures digests { IfOk result HasNoDigests }
    ensures faults { IfErr result (λ failure. IsWalkFault failure.fault) }
{
    let mut bag = open_bag(rt, folder)?;
    let listing = list_bag(rt.alloc(), &mut bag)?;
    watcher.listed(listing.files.len() as u64, listing.bytes());
    bare_facts(rt.alloc(), &mut bag, &listing, watcher)
}

/// Opens the folder of this path.
pub(crate) fn open_bag<'a, R: Files + AllocGlobal + Clone + Drop>(
    rt: &'a R,
    folder: &'a str,
) -> Result<OpenBag<'a, R>, Failure>
    ensures { IfErr result (λ failure. IsWalkFault failure.fault) }
{
    match OpenBag::of_path(rt, folder) {
        Ok(bag) => Ok(bag),
        Err(error) => Err(unlisted(rt.alloc(), "", &error)?),
    }
}

/// All files in the folder. If they have more bytes together it is `TooMany`.
pub(crate) fn list_within<R: Files + AllocGlobal + Clone + Drop>(
    alloc: Global,
    bag: &mut OpenBag<'_, R>,
    most_bytes: u64,
) -> Result<FolderListing, Failure>
    ensures { IfErr result (λ failure. IsWalkFault failure.fault) }
{
    let listing = list_bag(alloc, bag)?;
    if most_bytes < listing.bytes() {
        return Err(too_many(alloc)?);
    }
    Ok(listing)
}

/// The facts of the files that were listed, while the watcher sees how far it is.
pub(crate) fn read_listed<R: Files + AllocGlobal + Clone + Drop, W: Watcher>(
    alloc: Global,
    bag: &mut OpenBag<'_, R>,
    listing: FolderListing,
    reading: Reading,
    watcher: &mut W,
) -> Result<Facts, Failure>
    ensures digests { IfOk result HasNeededDigests }
    ensures faults { IfErr result (λ failure. IsWalkFault failure.fault) }
{
    watcher.listed(listing.files.len() as u64, listing.bytes());
    if reading == Reading::All {
        return hashed_facts(alloc, bag, listing, TextsAtHand::none(alloc), watcher);
    }
    let facts = bare_facts(alloc, bag, &listing, &mut Silent)?;
    if shows_fault(alloc, &facts)? {
        return Ok(facts);
    }
    let texts = TextsAtHand::of(alloc, facts)?;
    hashed_facts(alloc, bag, listing, texts, watcher)
}

/// The facts of all files that were listed, of which these texts were read before.
fn hashed_facts<R: Files + AllocGlobal + Clone + Drop, W: Watcher>(
    alloc: Global,
    bag: &mut OpenBag<'_, R>,
    listing: FolderListing,
    texts: TextsAtHand,
    watcher: &mut W,
) -> Result<Facts, Failure>
    ensures digests { IfOk result HasNamedDigests }
    ensures faults { IfErr result (λ failure. IsWalkFault failure.fault) }
{
    let wanted = named_by_files(listing.files.as_slice());
    let of_texts = named_by_tag_manifests(listing.files.as_slice());
    let mut texts = texts;
    let mut files = Vec::with_capacity(alloc, listing.files.len())?;
    let payload = listing.payload;
    for file in listing.files {
        files.push(hashed_fact(alloc, bag, &file, wanted, &mut texts, watcher)?)?;
    }
    let mut facts = Facts::new(files, payload);
    // Each of these is asked for as often as a tag manifest lists the text.
    facts.compute_digests(of_texts);
    Ok(facts)
}

/// The facts of a file that was listed. A text that was read before isn't read again.
fn hashed_fact<R: Files + AllocGlobal + Clone + Drop, W: Watcher>(
    alloc: Global,
    bag: &mut OpenBag<'_, R>,
    listed: &ListedFile,
    wanted: Algorithms,
    texts: &mut TextsAtHand,
    watcher: &mut W,
) -> Result<FileFacts, Failure>
    ensures digests { IfOk result (λ facts. IsFactBy wanted (string_bytes listed.now.path) facts) }
    ensures faults { IfErr result (λ failure. IsWalkFault failure.fault) }
{
    let path = listed.path.as_str();
    if !is_read_text(path.as_bytes()) {
        return hash_listed(alloc, bag, listed, wanted, watcher);
    }
    let Some(bytes) = texts.take(path) else {
        return hash_listed(alloc, bag, listed, wanted, watcher);
    };
    watcher.hashed(bytes.len() as u64);
    watcher.file_done();
    Ok(FileFacts::kept(String::from_str(alloc, path)?, wanted, bytes))
}

/// The algorithms that the manifests among these files name.
fn named_by_files(files: &[ListedFile]) -> Algorithms
    ensures { result ≡ named_of (map (λ file. string_bytes file.path) files.now) }
{
    let mut wanted = Algorithms::none();
    for file in files {
        wanted = wanted.or(named_by(file.path.as_str()));
    }
    wanted
}

/// The algorithms that the tag manifests among these files name.
fn named_by_tag_manifests(files: &[ListedFile]) -> Algorithms {
    let mut named = Algorithms::none();
    for file in files {
        if is_text_named(b"tagmanifest-", file.path.as_bytes()) {
            named = named.or(named_by(file.path.as_str()));
        }
    }
    named
}
