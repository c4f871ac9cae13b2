use crate::folders::Folders;
use crate::read_listed::{Reading, read_watched};
use crate::watcher::{Silent, Watcher};
use bag_check::BagFault;
use bag_tree::{Facts, TreeFault};
use std::fs::Files;

/// Folders of the file system. No contract knows what their files hold. Whatever it is, the digests
/// of each file are those that are needed: those that the manifests among the files name, or none
/// if a fault shows without reading more than the texts that describe the bag.
#[derive(Drop)]
pub struct DiskFolders<R: Files + AllocGlobal + Clone + Drop, W: Watcher + Drop = Silent> {
    rt: R,
    watcher: W,
    reading: Reading,
    failed_at: Option<String>,
}

impl<R: Files + AllocGlobal + Clone + Drop> DiskFolders<R, Silent> {
    /// The folders that this runtime reaches.
    pub fn new(rt: R) -> DiskFolders<R, Silent> {
        DiskFolders::watched(rt, Silent)
    }
}

impl<R: Files + AllocGlobal + Clone + Drop, W: Watcher + Drop> DiskFolders<R, W> {
    /// The same, while the watcher sees how far each read is.
    pub fn watched(rt: R, watcher: W) -> DiskFolders<R, W> {
        DiskFolders {
            rt,
            watcher,
            reading: Reading::Needed,
            failed_at: None,
        }
    }

    /// The same, with the digests that manifests name even if a fault shows without them.
    pub fn with_all_digests(self) -> DiskFolders<R, W> {
        DiskFolders {
            rt: self.rt,
            watcher: self.watcher,
            reading: Reading::All,
            failed_at: self.failed_at,
        }
    }

    /// The watcher, which sees how far each read is.
    pub fn watcher(&self) -> &W {
        &self.watcher
    }
}

// It remembers no refusals.
impl<R: Files + AllocGlobal + Clone + Drop, W: Watcher + Drop> Folders for DiskFolders<R, W> {
    ghost use Rattle.std.specs.Prelude.{IfOk, IfErr};
    ghost use Rattle.bag_folders.specs.Disk.{HasNeededDigests};
    ghost use Rattle.bag_folders.specs.Folders.{IsWalkFault};

    fn read(&mut self, path: &str) -> Result<Facts, TreeFault>
        ensures digests { IfOk result HasNeededDigests }
        ensures faults { IfErr result IsWalkFault }
    {
        self.failed_at = None;
        match read_watched(&self.rt, path, self.reading, &mut self.watcher) {
            Ok(facts) => Ok(facts),
            Err(failure) => {
                self.failed_at = failure.place;
                Err(failure.fault)
            }
        }
    }

    fn refused(&mut self, _fault: BagFault) {}

    fn failed_at(&self) -> Option<&str> {
        match &self.failed_at {
            Some(place) => Some(place.as_str()),
            None => None,
        }
    }
}
