//! All of a folder that can be read, past what can't.

ghost use Rattle.std.specs.Prelude.{◌≡◌, false};
ghost use Rattle.bag_tree.specs.Path.{is_read_text};

use crate::unread::{Reason, Unread};
use bag_check::named_by;
use bag_folders::hash_reader;
use bag_tree::{
    Algorithms, DEEPEST_PATH, Digests, Facts, FileFacts, MOST_FILES, PAYLOAD_FOLDER, TreeFault,
    is_read_text, part_count,
};
use std::alloc::AllocError;
use std::fs::{self, DirEntry, File};
use std::io;

/// What a folder has that can be read, and the places that can't.
#[derive(Drop)]
pub(crate) struct Gathered {
    /// None where the folder itself can't be listed, or has too many files and folders.
    pub(crate) facts: Option<Facts>,
    pub(crate) places: Vec<Unread>,
}

/// What was found of a folder so far.
#[derive(Drop)]
struct Walk<'a> {
    rt: &'a HostRuntime,
    folder: &'a str,
    files: Vec<String>,
    /// The folders that wait to be listed, by their paths below the first.
    waiting: Vec<String>,
    places: Vec<Unread>,
    payload: bool,
    found: usize,
}

/// What can be read in this folder and below it. The folder's own path is the only link that is
/// followed. If no digests are asked for, no file is read but the bag's texts.
pub(crate) fn gather<'a>(
    rt: &'a HostRuntime,
    folder: &'a str,
    with_digests: bool,
) -> Result<Gathered, AllocError> {
    let alloc = rt.alloc();
    let mut walk = Walk {
        rt,
        folder,
        files: Vec::new(alloc),
        waiting: Vec::new(alloc),
        places: Vec::new(alloc),
        payload: false,
        found: 0,
    };
    walk.waiting.push(String::new(alloc))?;
    'folders: for _ in 0..=MOST_FILES {
        let Some(below) = walk.waiting.pop() else {
            break;
        };
        walk.list(below.as_str())?;
    }
    if walk.found == 0 && !walk.places.is_empty() {
        let Walk { places, .. } = walk;
        return Ok(Gathered {
            facts: None,
            places,
        });
    }
    if walk.found > MOST_FILES {
        walk.note(".", Reason::TooMany)?;
        let Walk { places, .. } = walk;
        return Ok(Gathered {
            facts: None,
            places,
        });
    }
    walk.hash(with_digests)
}

impl Walk<'_> {
    fn note(&mut self, path: &str, reason: Reason) -> Result<(), AllocError> {
        let path = if path.is_empty() { "." } else { path };
        let path = String::from_str(self.rt.alloc(), path)?;
        self.places.push(Unread { path, reason })?;
        Ok(())
    }

    fn path_of(&self, below: &str) -> Result<String, AllocError> {
        let folder = self.folder;
        if below.is_empty() {
            return String::from_str(self.rt.alloc(), folder);
        }
        format!(in self.rt.alloc(); "{folder}/{below}")
    }

    // Takes the entries of one folder.
    fn list(&mut self, below: &str) -> Result<(), AllocError> {
        let path = self.path_of(below)?;
        let entries = match fs::read_dir(self.rt, path.as_str()) {
            Ok(entries) => entries,
            Err(error) => {
                let reason = Reason::of_path(self.rt, path.as_str(), &error);
                return self.note(below, reason);
            }
        };
        for entry in entries {
            match entry {
                Ok(entry) => self.take(&entry, below)?,
                Err(error) => self.note(below, Reason::of_error(&error))?,
            }
        }
        Ok(())
    }

    fn take(&mut self, entry: &DirEntry<HostRuntime>, below: &str) -> Result<(), AllocError> {
        self.found = self.found.saturating_add(1);
        if self.found > MOST_FILES {
            return Ok(());
        }
        let name = entry.file_name();
        let path = if below.is_empty() {
            String::from_str(self.rt.alloc(), name)?
        } else {
            format!(in self.rt.alloc(); "{below}/{name}")?
        };
        if part_count(path.as_bytes()) > DEEPEST_PATH {
            return self.note(path.as_str(), Reason::TooDeep);
        }
        self.keep(path, entry)
    }

    fn keep(&mut self, path: String, entry: &DirEntry<HostRuntime>) -> Result<(), AllocError> {
        match entry.metadata() {
            Ok(metadata) if metadata.is_dir() => {
                self.payload = self.payload || path.as_str() == PAYLOAD_FOLDER;
                self.waiting.push(path)?;
                Ok(())
            }
            Ok(metadata) if metadata.is_file() => {
                self.files.push(path)?;
                Ok(())
            }
            Ok(metadata) => self.note(path.as_str(), Reason::of_entry(&metadata)),
            Err(error) => self.note(path.as_str(), Reason::of_error(&error)),
        }
    }

    // Reads the files that were found.
    fn hash(self, with_digests: bool) -> Result<Gathered, AllocError> {
        let mut walk = self;
        let none = Vec::new(walk.rt.alloc());
        let files = std::mem::replace(&mut walk.files, none);
        let wanted = wanted_of(files.as_slice());
        let mut known = Vec::new(walk.rt.alloc());
        for path in files {
            match walk.fact_of(path.as_str(), wanted, with_digests)? {
                Ok(facts) => known.push(facts)?,
                Err(reason) => walk.note(path.as_str(), reason)?,
            }
        }
        let facts = Some(Facts::new(known, walk.payload));
        let Walk { places, .. } = walk;
        Ok(Gathered { facts, places })
    }

    fn fact_of(
        &self,
        path: &str,
        wanted: Algorithms,
        with_digests: bool,
    ) -> Result<Result<FileFacts, Reason>, AllocError> {
        if with_digests || is_read_text(path.as_bytes()) {
            self.hash_file(path, wanted)
        } else {
            self.list_file(path)
        }
    }

    // A file without its digests, if it is there still.
    fn list_file(&self, path: &str) -> Result<Result<FileFacts, Reason>, AllocError>
        requires { is_read_text path.now ≡ false }
    {
        let place = self.path_of(path)?;
        match fs::symlink_metadata(self.rt, place.as_str()) {
            Ok(metadata) if metadata.is_file() => {
                let path = String::from_str(self.rt.alloc(), path)?;
                Ok(Ok(FileFacts::hashed(path, Digests::none())))
            }
            Ok(metadata) => Ok(Err(Reason::of_entry(&metadata))),
            Err(error) => out_of(&error),
        }
    }

    fn hash_file(
        &self,
        path: &str,
        wanted: Algorithms,
    ) -> Result<Result<FileFacts, Reason>, AllocError> {
        let place = self.path_of(path)?;
        // A pipe that took its place would be waited for.
        match fs::symlink_metadata(self.rt, place.as_str()) {
            Ok(metadata) if metadata.is_file() => {}
            Ok(metadata) => return Ok(Err(Reason::of_entry(&metadata))),
            Err(error) => return out_of(&error),
        }
        let mut file = match File::open(self.rt, place.as_str()) {
            Ok(file) => file,
            Err(error) => return out_of(&error),
        };
        match hash_reader(self.rt.alloc(), path, wanted, &mut file) {
            Ok(facts) => Ok(Ok(facts)),
            Err(TreeFault::Memory) => Err(AllocError),
            Err(fault) => Ok(Err(Reason::of_fault(fault))),
        }
    }
}

fn out_of(error: &io::Error) -> Result<Result<FileFacts, Reason>, AllocError> {
    if error.kind() == io::ErrorKind::OutOfMemory {
        return Err(AllocError);
    }
    Ok(Err(Reason::of_error(error)))
}

// The algorithms that the manifests among these files name.
fn wanted_of(files: &[String]) -> Algorithms {
    let mut wanted = Algorithms::none();
    for path in files {
        wanted = wanted.or(named_by(path.as_str()));
    }
    wanted
}
