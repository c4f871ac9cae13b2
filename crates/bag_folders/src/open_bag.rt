ghost use Rattle.std.specs.Prelude.{IfErr};
ghost use Rattle.bag_folders.specs.Folders.{IsWalkFault};

use crate::folder_listing::{ListedFile, fault_of, joined};
use crate::folder_way::FolderWay;
use crate::look::Look;
use crate::open_folder::OpenFolder;
use bag_tree::TreeFault;
use std::fs::{Files, OpenFile};
use std::{fs, io};

/// Where a bag's folder is, whatever is open of it.
#[derive(Drop)]
pub(crate) struct BagPlace<'a, R: Files + AllocGlobal + Clone + Drop> {
    rt: &'a R,
    /// Its path, which may be a link.
    path: &'a str,
}

impl<R: Files + AllocGlobal + Clone + Drop> BagPlace<'_, R> {
    /// What the entry at this path below it is. A link is taken as the link itself. A folder on the
    /// way may have been exchanged for one: what is opened is looked at again.
    pub(crate) fn look(&self, path: &str) -> io::Result<Look> {
        let path = joined(self.rt.alloc(), self.path, path)?;
        Ok(Look::of(&fs::symlink_metadata(self.rt, path.as_str())?))
    }
}

/// A bag's folder, which is open.
#[derive(Drop)]
pub(crate) struct OpenBag<'a, R: Files + AllocGlobal + Clone + Drop> {
    rt: &'a R,
    /// Its path, which may be a link.
    path: &'a str,
    /// Whether the system shows what is open as files, so that a file is opened in its open folder,
    /// whatever that folder's path leads to by now. Else it is opened by its path.
    shows_open: bool,
    /// The way to the folder of the last file. The files of a folder are listed one after the
    /// other.
    way: FolderWay,
}

impl<'a, R: Files + AllocGlobal + Clone + Drop> OpenBag<'a, R> {
    /// The folder of this path.
    pub(crate) fn of_path(rt: &'a R, path: &'a str) -> io::Result<OpenBag<'a, R>> {
        let folder = OpenFolder::of_path(rt.alloc(), path)?;
        let number = folder.number();
        let shown = format!(in rt.alloc(); "/proc/self/fd/{number}")?;
        let shows_open = fs::metadata(rt, shown.as_str()).is_ok();
        Ok(OpenBag {
            rt,
            path,
            shows_open,
            way: FolderWay::new(rt.alloc(), folder),
        })
    }

    /// Where it is.
    pub(crate) fn place(&self) -> BagPlace<'a, R> {
        BagPlace {
            rt: self.rt,
            path: self.path,
        }
    }

    /// The folder at this path below it.
    pub(crate) fn folder_below(&mut self, path: &str) -> io::Result<&OpenFolder> {
        self.way.lead_to(path)
    }

    /// Opens a file that was listed. The refusals are `Device`, if it can't be opened or isn't the
    /// one that was listed, and `Memory`.
    pub(crate) fn open(&mut self, listed: &ListedFile) -> Result<R::File, TreeFault>
        ensures { IfErr result IsWalkFault }
    {
        match self.open_same(listed) {
            Ok(Some(file)) => Ok(file),
            Ok(None) => Err(TreeFault::Device),
            Err(error) => Err(fault_of(&error, TreeFault::Device)),
        }
    }

    /// The file that was listed, if it is still there.
    fn open_same(&mut self, listed: &ListedFile) -> io::Result<Option<R::File>> {
        let path = listed.path.as_str();
        let (below, name) = path.rsplit_once('/').unwrap_or(("", path));
        let shown = if self.shows_open {
            let number = self.way.lead_to(below)?.number();
            format!(in self.rt.alloc(); "/proc/self/fd/{number}/{name}")?
        } else {
            joined(self.rt.alloc(), self.path, path)?
        };
        let found = fs::symlink_metadata(self.rt, shown.as_str())?;
        if !Look::of(&found).is_same_file(&listed.look) {
            return Ok(None);
        }
        // A pipe that takes its place right now is waited for: the toolchain's library has no way
        // to open a file without waiting.
        let file = fs::open(self.rt, shown.as_str())?;
        let opened = file.metadata()?;
        if Look::of(&opened).is_same_file(&listed.look) {
            Ok(Some(file))
        } else {
            Ok(None)
        }
    }
}
