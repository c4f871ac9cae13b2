ghost use Rattle.std.specs.Prelude.{◌≡◌, ◌≢◌, true, false, IfOk, IfErr, string_bytes};
ghost use Rattle.bag_tree.specs.Algorithms.{no_algorithms};
ghost use Rattle.bag_tree.specs.Path.{is_read_text};
ghost use Rattle.bag_check.specs.Check.{first_fault};
ghost use Rattle.bag_folders.specs.Disk.{IsFactBy, HasNoDigests, shows, is_shown};
ghost use Rattle.bag_folders.specs.Folders.{IsWalkFault};

use crate::failure::Failure;
use crate::folder_listing::{FolderListing, ListedFile};
use crate::hash_listed::hash_listed;
use crate::open_bag::OpenBag;
use crate::watcher::{Silent, Watcher};
use bag_check::{BagFault, check, named_by};
use bag_tree::{Algorithms, Digests, Facts, FileFacts, LONGEST_TEXT, TreeFault, is_read_text};
use std::alloc::{AllocError, Global};
use std::fs::Files;

/// Whether the first fault shows in the texts and in the list of the files.
pub(crate) fn shows_fault(alloc: Global, facts: &Facts) -> Result<bool, AllocError>
    ensures { IfOk result (λ found. found ≡ is_shown (first_fault facts.now)) }
{
    match check(alloc, facts) {
        Ok(_) => Ok(false),
        Err(fault) => shows(fault),
    }
}

/// Whether this fault shows so. `Memory` is no fault of the bag.
fn shows(fault: BagFault) -> Result<bool, AllocError>
    ensures ok { IfOk result (λ found. found ≡ shows fault) }
    ensures memory { IfOk result (λ _. fault ≢ BagFault.Memory) }
{
    match fault {
        BagFault::Memory => Err(AllocError),
        BagFault::WrongDigest => Ok(false),
        _ => Ok(true),
    }
}

/// What is known of the files that were listed, without any digest, while the watcher sees for how
/// many of them it is.
pub(crate) fn bare_facts<R: Files + AllocGlobal + Clone + Drop, W: Watcher>(
    alloc: Global,
    bag: &mut OpenBag<'_, R>,
    listing: &FolderListing,
    watcher: &mut W,
) -> Result<Facts, Failure>
    ensures digests { IfOk result HasNoDigests }
    ensures faults { IfErr result (λ failure. IsWalkFault failure.fault) }
{
    let mut files = Vec::with_capacity(alloc, listing.files.len())?;
    for file in listing.files.as_slice() {
        files.push(bare_fact(alloc, bag, file)?)?;
        watcher.file_done();
    }
    Ok(Facts::new(files, listing.payload))
}

/// What is known of a file that was listed. A text that describes the bag is read, unless the list
/// shows that there may be no manifest of its algorithm.
fn bare_fact<R: Files + AllocGlobal + Clone + Drop>(
    alloc: Global,
    bag: &mut OpenBag<'_, R>,
    listed: &ListedFile,
) -> Result<FileFacts, Failure>
    ensures digests { IfOk result (λ facts.
        IsFactBy no_algorithms (string_bytes listed.now.path) facts) }
    ensures faults { IfErr result (λ failure. IsWalkFault failure.fault) }
{
    if !is_read_text(listed.path.as_bytes()) {
        unread_fact(alloc, listed.path.as_str())
    } else if is_of_no_algorithm(listed.path.as_str()) {
        unread_text(alloc, listed)
    } else {
        hash_listed(alloc, bag, listed, Algorithms::none(), &mut Silent)
    }
}

/// Whether a text that describes the bag is a manifest of an algorithm that isn't read.
fn is_of_no_algorithm(path: &str) -> bool {
    path != "bagit.txt" && named_by(path) == Algorithms::none()
}

/// What is known of such a manifest. None of its bytes are asked for, since the bag has that fault
/// or one before it. So there may be many of them, and together they take no memory.
fn unread_text(alloc: Global, listed: &ListedFile) -> Result<FileFacts, Failure>
    requires { is_read_text (string_bytes listed.now.path) ≡ true }
    ensures digests { IfOk result (λ facts.
        IsFactBy no_algorithms (string_bytes listed.now.path) facts) }
    ensures faults { IfErr result (λ failure. IsWalkFault failure.fault) }
{
    let path = String::from_str(alloc, listed.path.as_str())?;
    if listed.look.length > LONGEST_TEXT as u64 {
        return Err(Failure::at(path, TreeFault::TextTooLong));
    }
    Ok(FileFacts::kept(path, Algorithms::none(), Vec::new(alloc)))
}

/// What is known of a file of this path that isn't read and is no text that describes a bag.
fn unread_fact(alloc: Global, path: &str) -> Result<FileFacts, Failure>
    requires { is_read_text path.now ≡ false }
    ensures digests { IfOk result (λ facts. IsFactBy no_algorithms path.now facts) }
    ensures faults { IfErr result (λ failure. IsWalkFault failure.fault) }
{
    let path = String::from_str(alloc, path)?;
    Ok(FileFacts::hashed(path, Digests::none()))
}
