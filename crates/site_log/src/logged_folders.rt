//! Folders of which each that can't be read is noted.

use crate::site_log::SiteLog;
use bag_check::BagFault;
use bag_folders::Folders;
use bag_tree::{Facts, TreeFault};

/// Folders that tell the log which reads failed, and where. Otherwise it delegates to
/// the folders.
#[derive(Drop)]
pub struct LoggedFolders<'a, F> {
    log: &'a SiteLog<'a>,
    folders: F,
}

impl<'a, F: Folders> LoggedFolders<'a, F> {
    /// These folders, with this log.
    pub fn new(log: &'a SiteLog<'a>, folders: F) -> LoggedFolders<'a, F> {
        LoggedFolders { log, folders }
    }
}

impl<F: Folders> Folders for LoggedFolders<'_, F> {
    ghost gives = { λ f. F.gives f.folders };

    ghost fails_at = { λ f. F.fails_at f.folders };

    fn read(&mut self, path: &str) -> Result<Facts, TreeFault> {
        self.log.reads(path);
        match self.folders.read(path) {
            Ok(facts) => Ok(facts),
            Err(fault) => {
                self.log.unread(fault, self.folders.failed_at());
                Err(fault)
            }
        }
    }

    fn refused(&mut self, fault: BagFault) {
        self.folders.refused(fault);
    }

    fn weighs(&self, path: &str, most: u64) -> Option<u64> {
        self.folders.weighs(path, most)
    }

    fn failed_at(&self) -> Option<&str> {
        self.folders.failed_at()
    }
}
