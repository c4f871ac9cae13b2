use crate::open_folder::OpenFolder;
use std::alloc::Global;
use std::io;

/// The way from a bag's folder to the folder below it that was asked for last: each folder on it is
/// open. So a tree that is walked folder by folder has each of them opened by its name alone.
#[derive(Drop)]
pub(crate) struct FolderWay {
    alloc: Global,
    bag: OpenFolder,
    /// The folders below the bag's, each in the one before it.
    steps: Vec<Step>,
}

/// A folder on the way, and its name in the one before it.
#[derive(Drop)]
struct Step {
    name: String,
    folder: OpenFolder,
}

impl FolderWay {
    /// The way to the bag's folder itself.
    pub(crate) fn new(alloc: Global, bag: OpenFolder) -> FolderWay {
        FolderWay {
            alloc,
            bag,
            steps: Vec::new(alloc),
        }
    }

    /// The folder at this path below the bag's. No part of the path may be a link. The part of the
    /// way that is as before isn't opened again.
    pub(crate) fn lead_to(&mut self, path: &str) -> io::Result<&OpenFolder> {
        let mut depth = 0usize;
        if !path.is_empty() {
            for name in path.split('/') {
                if !self.leads_by(depth, name) {
                    self.steps.truncate(depth);
                    self.enter(name)?;
                }
                depth = depth.saturating_add(1);
            }
        }
        self.steps.truncate(depth);
        Ok(self.last())
    }

    /// Whether the folder at this depth on the way has this name.
    fn leads_by(&self, depth: usize, name: &str) -> bool {
        match self.steps.get(depth) {
            Some(step) => step.name.as_str() == name,
            None => false,
        }
    }

    /// Goes on to the folder of this name.
    fn enter(&mut self, name: &str) -> io::Result<()> {
        let folder = self.last().enter(name)?;
        let name = String::from_str(self.alloc, name)?;
        self.steps.push(Step { name, folder })?;
        Ok(())
    }

    fn last(&self) -> &OpenFolder {
        match self.steps.last() {
            Some(step) => &step.folder,
            None => &self.bag,
        }
    }
}
