//! Folders, with a note of which bags they hold.

ghost use Rattle.std.specs.Prelude.{◌≡◌, false, map, string_bytes};
ghost use Rattle.std.specs.Option.{ForSome};
ghost use Rattle.registered_checks.specs.inner.Notes.{AreHeld};

use crate::held_bag::HeldBag;
use crate::notes::{are_paths, note};
use bag_check::BagFault;
use bag_folders::Folders;
use bag_tree::{Facts, TreeFault};
use std::alloc::Global;

/// Folders that note which bags they hold. They are the folders otherwise.
#[derive(Drop)]
pub(crate) struct NotedFolders<F: Folders> {
    alloc: Global,
    folders: F,
    /// The paths of the folders that were read, in order.
    paths: Vec<String>,
    /// The bags that these hold, in order.
    held: Vec<HeldBag>,
    /// Whether a folder couldn't be noted, out of memory.
    lacks_one: bool,
    ghost are_noted: { lacks_one ≡ false
        → ForSome (F.gives folders)
        (λ gives. AreHeld gives (map string_bytes paths.items) held.items) },
}

impl<F: Folders> NotedFolders<F> {
    ghost use Rattle.std.specs.Prelude.{◌≢◌, ◌⊎◌, true, IfSome, IfNone};

    /// These folders; none was read yet.
    #[tactic(auto, using(crate::proofs::Noted::none_held))]
    pub(crate) fn new(alloc: Global, folders: F) -> NotedFolders<F>
        ensures { result.folders ≡ folders }
    {
        NotedFolders {
            alloc,
            folders,
            paths: Vec::new(alloc),
            held: Vec::new(alloc),
            lacks_one: false,
        }
    }

    /// The bags that the folders of these paths hold, in order; `None` if memory ran out. This
    /// checks that these folders were read: the contract of a check doesn't say which it reads.
    pub(crate) fn held(&self, paths: &[&str]) -> Option<&[HeldBag]>
        ensures held { IfSome result (λ held. ForSome (F.gives self.now.folders) (λ gives.
            AreHeld gives (map (λ path. path.now) paths.now) held.now)) }
        ensures none { IfNone result ((self.now.lacks_one ≡ true)
            ⊎ (map string_bytes self.now.paths.items ≢ map (λ path. path.now) paths.now)) }
    {
        if self.lacks_one {
            return None;
        }
        if !are_paths(self.paths.as_slice(), paths) {
            return None;
        }
        Some(self.held.as_slice())
    }

    /// The folders.
    pub(crate) fn into_folders(self) -> F
        ensures { result ≡ self.folders }
    {
        let NotedFolders { folders, .. } = self;
        folders
    }
}

impl<F: Folders> Folders for NotedFolders<F> {
    ghost gives = { λ f. F.gives f.folders };

    ghost fails_at = { λ f. F.fails_at f.folders };

    fn read(&mut self, path: &str) -> Result<Facts, TreeFault> {
        let read = self.folders.read(path);
        if note(self.alloc, &mut self.paths, &mut self.held, path, &read).is_err() {
            self.lacks_one = true;
        }
        read
    }

    fn refused(&mut self, fault: BagFault) {
        self.folders.refused(fault);
    }

    fn failed_at(&self) -> Option<&str> {
        self.folders.failed_at()
    }
}
