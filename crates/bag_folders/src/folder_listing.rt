ghost use Rattle.std.specs.Prelude.{◌≡◌, ◌⊎◌, IfOk, IfErr};
ghost use Rattle.bag_folders.specs.Folders.{IsWalkFault};

use crate::failure::Failure;
use crate::look::{EntryKind, Look};
use crate::open_bag::{BagPlace, OpenBag};
use bag_tree::{DEEPEST_PATH, MOST_FILES, PAYLOAD_FOLDER, TreeFault, part_count};
use std::alloc::{AllocError, Global};
use std::fs::Files;
use std::io;
use std::io::ErrorKind;

/// How many bytes of names are asked for at a time.
const NAMES: usize = 8192;

/// A file that was found in a folder.
#[derive(Drop)]
pub(crate) struct ListedFile {
    /// Its path below the bag's folder.
    pub(crate) path: String,
    /// What it was when it was found.
    pub(crate) look: Look,
}

/// What was found of a folder so far.
#[derive(Drop)]
pub(crate) struct FolderListing {
    alloc: Global,
    pub(crate) files: Vec<ListedFile>,
    /// Whether the payload's folder was found.
    pub(crate) payload: bool,
    /// The folders that wait to be listed, by their paths below the bag's.
    waiting: Vec<String>,
    /// How many files and folders were found.
    found: usize,
    /// How many there are at most.
    most: usize,
}

impl FolderListing {
    fn new(alloc: Global, most: usize) -> FolderListing {
        FolderListing {
            alloc,
            files: Vec::new(alloc),
            payload: false,
            waiting: Vec::new(alloc),
            found: 0,
            most,
        }
    }

    /// How many bytes the files had together when they were found.
    pub(crate) fn bytes(&self) -> u64 {
        let mut bytes = 0u64;
        for file in self.files.as_slice() {
            bytes = bytes.saturating_add(file.look.length);
        }
        bytes
    }

    /// Whether a later change of a file gives it another time, in this second since 1970: all were
    /// changed before the last second. A system may give several changes within milliseconds the
    /// same time.
    pub(crate) fn is_settled(&self, second: i64) -> bool {
        let files = self.files.as_slice();
        files.iter().all(|file| file.look.changed_second() < second.saturating_sub(1))
    }

    /// Takes the entries of the subfolder `below` of the bag.
    fn list<R: Files + AllocGlobal + Clone + Drop>(
        &mut self,
        bag: &mut OpenBag<'_, R>,
        below: &str,
    ) -> Result<(), Failure>
        ensures { IfErr result (λ failure. IsWalkFault failure.fault) }
    {
        let place = bag.place();
        let folder = match bag.folder_below(below) {
            Ok(folder) => folder,
            Err(error) => return Err(unlisted(self.alloc, below, &error)?),
        };
        let mut buffer = [0u8; NAMES];
        // Each turn except the last takes at least one entry; `.` and `..` aren't counted.
        'turns: for _ in 0..MOST_FILES + 3 {
            match folder.next_names(&mut buffer) {
                Ok(names) if names.is_empty() => return Ok(()),
                Ok(names) => self.take_names(&place, names, below)?,
                Err(error) => return Err(unlisted(self.alloc, below, &error)?),
            }
        }
        Err(too_many(self.alloc)?)
    }

    /// Takes the entries of these names, each of which is followed by a NUL.
    fn take_names<R: Files + AllocGlobal + Clone + Drop>(
        &mut self,
        place: &BagPlace<'_, R>,
        names: &[u8],
        below: &str,
    ) -> Result<(), Failure>
        ensures { IfErr result (λ failure. IsWalkFault failure.fault) }
    {
        for name in names.split(|byte| *byte == 0) {
            if !matches!(name, b"" | b"." | b"..") {
                self.take(place, name, below)?;
            }
        }
        Ok(())
    }

    /// Takes one entry: keeps a file, and has a folder wait.
    fn take<R: Files + AllocGlobal + Clone + Drop>(
        &mut self,
        place: &BagPlace<'_, R>,
        name: &[u8],
        below: &str,
    ) -> Result<(), Failure>
        ensures { IfErr result (λ failure. IsWalkFault failure.fault) }
    {
        let Ok(name) = str::from_utf8(name) else {
            let error = ErrorKind::InvalidFilename.into();
            return Err(unlisted(self.alloc, below, &error)?);
        };
        if self.found >= self.most {
            return Err(too_many(self.alloc)?);
        }
        self.found += 1;
        let path = joined(self.alloc, below, name)?;
        if part_count(path.as_bytes()) > DEEPEST_PATH {
            return Err(Failure::at(path, TreeFault::TooDeep));
        }
        match place.look(path.as_str()) {
            Ok(look) => self.keep(path, look),
            Err(error) => Err(Failure::at(path, fault_of(&error, TreeFault::Listing))),
        }
    }

    fn keep(&mut self, path: String, look: Look) -> Result<(), Failure>
        ensures { IfErr result (λ failure. IsWalkFault failure.fault) }
    {
        match look.kind {
            EntryKind::Folder => {
                self.payload = self.payload || path.as_str() == PAYLOAD_FOLDER;
                self.waiting.push(path)?;
            }
            EntryKind::File => self.files.push(ListedFile { path, look })?,
            EntryKind::Other => return Err(Failure::at(path, TreeFault::NotAFile)),
        }
        Ok(())
    }
}

/// All files in the bag's folder and below it.
pub(crate) fn list_bag<R: Files + AllocGlobal + Clone + Drop>(
    alloc: Global,
    bag: &mut OpenBag<'_, R>,
) -> Result<FolderListing, Failure>
    ensures { IfErr result (λ failure. IsWalkFault failure.fault) }
{
    list_at_most(alloc, bag, MOST_FILES)
}

/// The same, if there are no more files and folders than this, which is `MOST_FILES` at most.
pub(crate) fn list_at_most<R: Files + AllocGlobal + Clone + Drop>(
    alloc: Global,
    bag: &mut OpenBag<'_, R>,
    most: usize,
) -> Result<FolderListing, Failure>
    ensures { IfErr result (λ failure. IsWalkFault failure.fault) }
{
    let mut listing = FolderListing::new(alloc, most);
    listing.list(bag, "")?;
    // Each turn lists one of the folders that were found, at most `MOST_FILES` of them.
    'folders: for _ in 0..MOST_FILES {
        let Some(below) = listing.waiting.pop() else {
            break;
        };
        listing.list(bag, below.as_str())?;
    }
    if !listing.waiting.is_empty() {
        return Err(too_many(alloc)?);
    }
    Ok(listing)
}

/// The subfolder `below` of the bag can't be listed.
pub(crate) fn unlisted(alloc: Global, below: &str, error: &io::Error) -> Result<Failure, AllocError>
    ensures { IfOk result (λ failure. IsWalkFault failure.fault) }
{
    let place = if below.is_empty() { "." } else { below };
    let place = String::from_str(alloc, place)?;
    Ok(Failure::at(place, fault_of(error, TreeFault::Listing)))
}

/// The bag's folder has too many files and folders.
pub(crate) fn too_many(alloc: Global) -> Result<Failure, AllocError>
    ensures { IfOk result (λ failure. IsWalkFault failure.fault) }
{
    let place = String::from_str(alloc, ".")?;
    Ok(Failure::at(place, TreeFault::TooMany))
}

/// A folder's path, and a path below it.
pub(crate) fn joined(alloc: Global, folder: &str, below: &str) -> Result<String, AllocError> {
    let mut path = String::with_capacity(alloc, folder.len() + 1 + below.len())?;
    path.push_str(folder)?;
    if !folder.is_empty() && !below.is_empty() {
        path.push('/')?;
    }
    path.push_str(below)?;
    Ok(path)
}

/// The fault that an error of the system is.
pub(crate) fn fault_of(error: &io::Error, fault: TreeFault) -> TreeFault
    ensures { (result ≡ fault) ⊎ (result ≡ TreeFault.Memory) }
{
    if error.kind() == ErrorKind::OutOfMemory {
        TreeFault::Memory
    } else {
        fault
    }
}
