//! Folders of the file system, of which it is said which of how many is read.

use crate::measure::{Measure, Measured};
use crate::read_folders::{Digests, ReadFolders};
use crate::tally::{TalliedProgress, Tally};
use bag_check::BagFault;
use bag_folders::Folders;
use bag_tree::{Facts, TreeFault};
use std::alloc::AllocError;
use std::io::Stderr;
use std::time::Instant;

type Disk = ReadFolders<TalliedProgress<HostRuntime, Stderr>>;

/// The folders of the file system, which are read one after the other.
#[derive(Drop)]
pub struct TalliedFolders<'a> {
    rt: &'a HostRuntime,
    digests: Digests,
    tally: Tally,
    /// What read the last folder, if there was memory for it.
    last: Option<Disk>,
    measure: Measure,
}

impl<'a> TalliedFolders<'a> {
    pub fn new(rt: &'a HostRuntime, digests: Digests, tally: Tally) -> TalliedFolders<'a> {
        TalliedFolders {
            rt,
            digests,
            tally,
            last: None,
            measure: Measure::unknown(),
        }
    }

    /// Takes back the line of a terminal, if it is there.
    pub fn end(&self) {
        if self.tally.is_shown {
            let _ = self.rt.eprint("\r\x1b[K");
        }
    }

    // Takes back the line of a terminal for the folder's line, unless it stays: a fault may show
    // before all files are read. That of a folder that can't be read is taken back by who says so.
    fn take_back(&mut self, is_unread: bool) {
        if is_unread {
            self.tally.is_shown = false;
        } else if !self.tally.stays {
            self.end();
            self.tally.is_shown = false;
        }
    }

    fn next(&self) -> Result<Disk, AllocError> {
        let rt = self.rt;
        let watcher = TalliedProgress::new(rt.alloc(), rt.clone()?, rt.stderr(), self.tally);
        Ok(ReadFolders::new(rt.clone()?, watcher, self.digests))
    }
}

impl Folders for TalliedFolders<'_> {
    fn read(&mut self, path: &str) -> Result<Facts, TreeFault> {
        self.tally.folder = self.tally.folder.saturating_add(1);
        self.last = None;
        self.measure = Measure::unknown();
        let Ok(mut folders) = self.next() else {
            return Err(TreeFault::Memory);
        };
        let start = Instant::now(self.rt).ok();
        let read = folders.read(path);
        self.tally = folders.watcher().tally();
        self.take_back(read.is_err());
        self.measure = Measure {
            bytes: folders.watcher().bytes(),
            seconds: seconds_since(self.rt, start),
        };
        self.last = Some(folders);
        read
    }

    fn refused(&mut self, _fault: BagFault) {}

    fn failed_at(&self) -> Option<&str> {
        match &self.last {
            Some(folders) => folders.failed_at(),
            None => None,
        }
    }
}

impl Measured for TalliedFolders<'_> {
    fn measure(&self) -> Measure {
        self.measure
    }
}

// How many whole seconds have passed since then, if the clock can be read.
fn seconds_since(rt: &HostRuntime, start: Option<Instant>) -> Option<u64> {
    match start?.elapsed(rt) {
        Ok(passed) => Some(passed.as_secs()),
        Err(_) => None,
    }
}
