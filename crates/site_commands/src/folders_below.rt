//! Folders below one.

ghost use Rattle.std.specs.Prelude.{◌≡◌};
ghost use Rattle.site_commands.specs.Paths.{leads_out, goes_up, is_parent};

use bag_check::BagFault;
use bag_folders::Folders;
use bag_tree::{Facts, TreeFault};
use std::alloc::{AllocError, Global};

/// Folders by their paths from one folder, if there is one: then a path that leads out of it, an
/// absolute one or one with `..`, is that of a folder that isn't there. Links are followed.
#[derive(Drop)]
pub(crate) struct FoldersBelow<'a, F> {
    alloc: Global,
    top: Option<&'a str>,
    folders: F,
    /// Whether the last path led out.
    has_left: bool,
}

impl<'a, F: Folders> FoldersBelow<'a, F> {
    ghost use Rattle.std.specs.Prelude.{◌≡◌, ◌≢◌, true, Some, Err, IfErr, IfSome};
    ghost use Rattle.bag_tree.specs.declared.fault.TreeFault.TheVariants.{BadPath, Listing};
    ghost use Rattle.bag_tree.specs.Fault.{IsOrMemory};
    ghost use Rattle.site_commands.specs.Paths.{leads_out, reads_below};

    /// These folders, below this one.
    pub(crate) fn new(alloc: Global, top: Option<&'a str>, folders: F) -> FoldersBelow<'a, F>
        ensures top { result.top ≡ top.entry }
        ensures folders { result.folders ≡ folders }
    {
        FoldersBelow {
            alloc,
            top,
            folders,
            has_left: false,
        }
    }

    // The facts of the tree in the folder of this path from the top. Of one that leads out the
    // folders aren't asked.
    fn read_below(&mut self, top: &str, path: &str) -> Result<Facts, TreeFault>
        ensures known { IfSome (F.gives self.old.folders)
            (λ reads. IsOrMemory result (reads_below (Some top.now) reads path.now)) }
        ensures kept { F.gives self.new.folders ≡ F.gives self.old.folders }
        ensures place { F.fails_at self.new.folders ≡ F.fails_at self.old.folders }
        ensures top { self.new.top ≡ self.old.top }
        ensures unasked { leads_out path.now ≡ true → self.new.folders ≡ self.old.folders }
        ensures refused { leads_out path.now ≡ true → result ≡ Err Listing }
        ensures faults { IfErr result (λ fault. fault ≢ BadPath) }
    {
        if leads_out(path.as_bytes()) {
            self.has_left = true;
            return Err(TreeFault::Listing);
        }
        match format!(in self.alloc; "{top}/{path}") {
            Ok(path) => self.folders.read(path.as_str()),
            Err(AllocError) => Err(TreeFault::Memory),
        }
    }
}

impl<F: Folders> Folders for FoldersBelow<'_, F> {
    ghost use Rattle.std.specs.Prelude.{◌≡◌, ◌≢◌, true, Err, IfErr, IfSome, OnSome, option_copied};
    ghost use Rattle.bag_tree.specs.declared.fault.TreeFault.TheVariants.{BadPath, Listing};
    ghost use Rattle.bag_tree.specs.Fault.{IsOrMemory};
    ghost use Rattle.site_commands.specs.Paths.{leads_out, known_below, place_below};

    ghost gives = { λ f. known_below (option_copied f.top) (F.gives f.folders) };

    ghost fails_at = { λ f. place_below (F.fails_at f.folders) };

    fn read(&mut self, path: &str) -> Result<Facts, TreeFault>
        ensures known { IfSome (known_below (option_copied self.old.top) (F.gives self.old.folders))
            (λ reads. IsOrMemory result (reads path.now)) }
        ensures kept { known_below (option_copied self.new.top) (F.gives self.new.folders)
            ≡ known_below (option_copied self.old.top) (F.gives self.old.folders) }
        ensures place { place_below (F.fails_at self.new.folders)
            ≡ place_below (F.fails_at self.old.folders) }
        // With a top no path that leads out is ever read.
        ensures unasked { OnSome self.old.top
            (leads_out path.now ≡ true → self.new.folders ≡ self.old.folders) }
        ensures refused { OnSome self.old.top (leads_out path.now ≡ true → result ≡ Err Listing) }
        ensures faults { IfErr result (λ fault. fault ≢ BadPath) }
    {
        self.has_left = false;
        match self.top {
            Some(top) => self.read_below(top, path),
            None => self.folders.read(path),
        }
    }

    // One that led out wasn't read.
    fn refused(&mut self, fault: BagFault) {
        if !self.has_left {
            self.folders.refused(fault);
        }
    }

    // One that leads out isn't read.
    fn weighs(&self, path: &str, most: u64) -> Option<u64> {
        match self.top {
            Some(_) if leads_out(path.as_bytes()) => Some(0),
            Some(top) => match format!(in self.alloc; "{top}/{path}") {
                Ok(path) => self.folders.weighs(path.as_str(), most),
                Err(AllocError) => None,
            },
            None => self.folders.weighs(path, most),
        }
    }

    fn failed_at(&self) -> Option<&str> {
        if self.has_left {
            return Some(".");
        }
        self.folders.failed_at()
    }
}

// Whether a path may lead out of the folder from which it is taken.
fn leads_out(path: &[u8]) -> bool
    ensures { result ≡ leads_out path.now }
{
    path.starts_with(b"/") || goes_up(path)
}

// Whether one of its parts leads up.
fn goes_up(path: &[u8]) -> bool
    ensures { result ≡ goes_up path.now }
{
    path.split(|byte| *byte == b'/').any(|part| is_parent(part))
}

fn is_parent(part: &[u8]) -> bool
    ensures { result ≡ is_parent part.now }
{
    part == b"..".as_slice()
}
