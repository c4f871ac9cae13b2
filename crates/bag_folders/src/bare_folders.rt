use crate::folders::Folders;
use crate::read_listed::read_bare;
use crate::watcher::Watcher;
use bag_check::BagFault;
use bag_tree::{Facts, TreeFault};
use std::fs::Files;

/// Folders of the file system of which only the texts that describe a bag are read, and the list of
/// all files: enough to say whether a bag is complete. No file has a digest, so none is taken for
/// one of a valid bag unless its manifests list nothing.
#[derive(Drop)]
pub struct BareFolders<R: Files + AllocGlobal + Clone + Drop, W: Watcher + Drop> {
    rt: R,
    watcher: W,
    failed_at: Option<String>,
}

impl<R: Files + AllocGlobal + Clone + Drop, W: Watcher + Drop> BareFolders<R, W> {
    /// The folders that this runtime reaches, while the watcher sees how far each read is.
    pub fn watched(rt: R, watcher: W) -> BareFolders<R, W> {
        BareFolders {
            rt,
            watcher,
            failed_at: None,
        }
    }

    /// The watcher, which sees how far each read is.
    pub fn watcher(&self) -> &W {
        &self.watcher
    }
}

// It remembers no refusals.
impl<R: Files + AllocGlobal + Clone + Drop, W: Watcher + Drop> Folders for BareFolders<R, W> {
    ghost use Rattle.std.specs.Prelude.{IfOk, IfErr};
    ghost use Rattle.bag_folders.specs.Disk.{HasNoDigests};
    ghost use Rattle.bag_folders.specs.Folders.{IsWalkFault};

    fn read(&mut self, path: &str) -> Result<Facts, TreeFault>
        ensures digests { IfOk result HasNoDigests }
        ensures faults { IfErr result IsWalkFault }
    {
        self.failed_at = None;
        match read_bare(&self.rt, path, &mut self.watcher) {
            Ok(facts) => Ok(facts),
            Err(failure) => {
                self.failed_at = failure.place;
                Err(failure.fault)
            }
        }
    }

    fn refused(&mut self, _fault: BagFault) {}

    fn failed_at(&self) -> Option<&str> {
        match &self.failed_at {
            Some(place) => Some(place.as_str()),
            None => None,
        }
    }
}
