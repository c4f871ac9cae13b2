//! Folders of the file system, as a check reads them.

use crate::report::Question;
use bag_check::BagFault;
use bag_folders::{BareFolders, DiskFolders, Folders, Watcher};
use bag_tree::{Facts, TreeFault};

/// Which digests of a folder's files are computed.
#[derive(Clone, Copy, Debug, PartialEq, Eq)]
pub enum Digests {
    /// None: it is asked whether the bag is complete.
    None,
    /// Those that the verdict needs.
    Needed,
    /// All that manifests name, even if a fault shows without them.
    All,
}

impl Digests {
    /// Those for this question. All that is wrong is known by all of them.
    pub(crate) fn for_question(question: Question, is_all_told: bool) -> Digests {
        match question {
            Question::Completeness => Digests::None,
            Question::Validity if is_all_told => Digests::All,
            Question::Validity => Digests::Needed,
        }
    }
}

/// Folders of the file system, while a watcher sees how far each read is.
#[derive(Drop)]
pub enum ReadFolders<W: Watcher + Drop> {
    /// Their files are hashed.
    Hashed(DiskFolders<HostRuntime, W>),
    /// They aren't.
    Bare(BareFolders<HostRuntime, W>),
}

impl<W: Watcher + Drop> ReadFolders<W> {
    /// The folders that this runtime reaches.
    pub(crate) fn new(rt: HostRuntime, watcher: W, digests: Digests) -> ReadFolders<W> {
        match digests {
            Digests::None => ReadFolders::Bare(BareFolders::watched(rt, watcher)),
            Digests::Needed => ReadFolders::Hashed(DiskFolders::watched(rt, watcher)),
            Digests::All => {
                ReadFolders::Hashed(DiskFolders::watched(rt, watcher).with_all_digests())
            }
        }
    }

    /// The watcher.
    pub(crate) fn watcher(&self) -> &W {
        match self {
            ReadFolders::Hashed(folders) => folders.watcher(),
            ReadFolders::Bare(folders) => folders.watcher(),
        }
    }
}

impl<W: Watcher + Drop> Folders for ReadFolders<W> {
    fn read(&mut self, path: &str) -> Result<Facts, TreeFault> {
        match self {
            ReadFolders::Hashed(folders) => folders.read(path),
            ReadFolders::Bare(folders) => folders.read(path),
        }
    }

    fn refused(&mut self, _fault: BagFault) {}

    fn failed_at(&self) -> Option<&str> {
        match self {
            ReadFolders::Hashed(folders) => folders.failed_at(),
            ReadFolders::Bare(folders) => folders.failed_at(),
        }
    }
}
