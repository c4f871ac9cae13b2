//! Folders that aren't read again once they were refused.

ghost use Rattle.std.specs.Prelude.{◌≡◌, IfOk, IfErr, IfSome};
ghost use Rattle.bag_folders.specs.Disk.{IsRefused, IsKnownOrRefused};
ghost use Rattle.bag_folders.specs.Folders.{IsWalkFault};

use crate::failure::Failure;
use crate::folder_listing::FolderListing;
use crate::folders::Folders;
use crate::list_sum::ListSum;
use crate::now::Now;
use crate::read_listed::{Reading, list_within, open_bag, read_listed};
use crate::refusals::{Reason, Refusal, Refusals};
use crate::refused_bag::bag_refused_for;
use crate::watcher::Silent;
use crate::weighed::WeighedFolders;
use crate::weight::short_list;
use bag_check::BagFault;
use bag_tree::{Facts, TreeFault};
use std::alloc::{AllocError, Global};
use std::fs::Files;
use std::time::{Clock, Instant};

/// Folders of the file system. A folder that was refused isn't read again within a minute, as long
/// as the list of its files is the same: their paths, lengths and times of change. It is only
/// listed, and refused for the fault that it had. The latest refusals are remembered, at most
/// 1,024.
#[derive(Drop)]
pub struct RememberingFolders<R: Files + Clock + AllocGlobal + Clone + Drop> {
    rt: R,
    /// The most bytes that the files of a folder may have together.
    most_bytes: u64,
    /// The moment 0 of the refusals, if the clock could be read.
    made: Option<Instant>,
    refusals: Refusals,
    /// Those that were weighed a moment ago.
    weighed: WeighedFolders,
    /// The list of the files that were read last, if a refusal of theirs is to be remembered.
    last: Option<ListSum>,
    failed_at: Option<String>,
}

impl<R: Files + Clock + AllocGlobal + Clone + Drop> RememberingFolders<R> {
    /// The folders that this runtime reaches. If the files of a folder have more bytes together, it
    /// is `TooMany`, before any of its files is read.
    pub fn new(rt: R, most_bytes: u64) -> RememberingFolders<R> {
        let made = Instant::now(&rt).ok();
        let refusals = Refusals::new(rt.alloc());
        let weighed = WeighedFolders::new(rt.alloc());
        RememberingFolders {
            rt,
            most_bytes,
            made,
            refusals,
            weighed,
            last: None,
            failed_at: None,
        }
    }

    // The facts of a folder by the list for which it was weighed a moment ago. If it can't be read
    // by that, it may have been exchanged since then: it is to be listed again.
    fn read_weighed(&mut self, path: &str, now: Option<Now>) -> Option<Facts>
        ensures { IfSome result IsKnownOrRefused }
    {
        let listing = self.weighed.take(path, now?.moment)?;
        let read = read_or_recall(
            &self.rt,
            path,
            Some(listing),
            self.most_bytes,
            &self.refusals,
            now,
            &mut self.last,
        );
        match read {
            Ok(facts) => Some(facts),
            Err(_) => None,
        }
    }

    // Remembers why what was read last is refused, unless memory runs out.
    fn remember(&mut self, reason: Reason) {
        let Some(files) = self.last else {
            return;
        };
        self.last = None;
        if let Some(now) = Now::of(&self.rt, self.made) {
            let moment = now.moment;
            // It is read again, if there is no memory for it.
            let _ = self.refusals.add(Refusal {
                files,
                reason,
                moment,
            });
        }
    }

    // Remembers that a file can't be read.
    fn remember_failure(&mut self, failure: &Failure) {
        if let Ok(Some(reason)) = reason_of(self.rt.alloc(), failure) {
            self.remember(reason);
        }
    }
}

impl<R: Files + Clock + AllocGlobal + Clone + Drop> Folders for RememberingFolders<R> {
    ghost use Rattle.std.specs.Prelude.{IfOk, IfErr};
    ghost use Rattle.bag_folders.specs.Disk.{IsKnownOrRefused};
    ghost use Rattle.bag_folders.specs.Folders.{IsWalkFault};

    fn read(&mut self, path: &str) -> Result<Facts, TreeFault>
        ensures digests { IfOk result IsKnownOrRefused }
        ensures faults { IfErr result IsWalkFault }
    {
        self.failed_at = None;
        self.last = None;
        let now = Now::of(&self.rt, self.made);
        if let Some(facts) = self.read_weighed(path, now) {
            return Ok(facts);
        }
        self.last = None;
        match read_or_recall(
            &self.rt,
            path,
            None,
            self.most_bytes,
            &self.refusals,
            now,
            &mut self.last,
        ) {
            Ok(facts) => Ok(facts),
            Err(failure) => {
                self.remember_failure(&failure);
                self.failed_at = failure.place;
                Err(failure.fault)
            }
        }
    }

    fn refused(&mut self, fault: BagFault) {
        self.remember(Reason::Invalid(fault));
    }

    fn weighs(&self, path: &str, most: u64) -> Option<u64> {
        let now = Now::of(&self.rt, self.made);
        let listing = short_list(&self.rt, path)?;
        let bytes = listing.bytes();
        if most.min(self.most_bytes) < bytes {
            return None;
        }
        if let Some(now) = now {
            self.weighed.add(path, listing, now.moment);
        }
        Some(bytes)
    }

    fn failed_at(&self) -> Option<&str> {
        match &self.failed_at {
            Some(place) => Some(place.as_str()),
            None => None,
        }
    }
}

// The facts of a folder, whose files are read unless a refusal of their list is remembered. They
// are listed, unless a list is given. If they are read, the list is noted, provided that it can be
// told from that of later files.
fn read_or_recall<R: Files + Clock + AllocGlobal + Clone + Drop>(
    rt: &R,
    path: &str,
    listed: Option<FolderListing>,
    most_bytes: u64,
    refusals: &Refusals,
    now: Option<Now>,
    read: &mut Option<ListSum>,
) -> Result<Facts, Failure>
    ensures digests { IfOk result IsKnownOrRefused }
    ensures faults { IfErr result (λ failure. IsWalkFault failure.fault) }
{
    let alloc = rt.alloc();
    let mut bag = open_bag(rt, path)?;
    let listing = match listed {
        Some(listing) => listing,
        None => list_within(alloc, &mut bag, most_bytes)?,
    };
    if let Some(now) = now {
        let files = ListSum::of(&listing);
        if let Some(facts) = recalled(alloc, refusals.of(files, now.moment))? {
            return Ok(facts);
        }
        if listing.is_settled(now.second) {
            *read = Some(files);
        }
    }
    read_listed(alloc, &mut bag, listing, Reading::Needed, &mut Silent)
}

// What a refusal that is remembered answers, if there is one.
fn recalled(alloc: Global, refusal: Option<&Refusal>) -> Result<Option<Facts>, Failure>
    ensures refused { IfOk result (λ found. IfSome found IsRefused) }
    ensures faults { IfErr result (λ failure. IsWalkFault failure.fault) }
{
    let Some(refusal) = refusal else {
        return Ok(None);
    };
    match &refusal.reason {
        Reason::Invalid(fault) => Ok(bag_refused_for(alloc, *fault)?),
        Reason::TextTooLong(place) => Err(failure_at(alloc, place, TreeFault::TextTooLong)?),
        Reason::Device(place) => Err(failure_at(alloc, place, TreeFault::Device)?),
    }
}

// A failure at this place.
fn failure_at(alloc: Global, place: &String, fault: TreeFault) -> Result<Failure, AllocError>
    ensures { IfOk result (λ failure. failure.fault ≡ fault) }
{
    let place = String::from_str(alloc, place.as_str())?;
    Ok(Failure::at(place, fault))
}

// Why a folder is refused that can't be read, if that is remembered: a file was read, and failed.
fn reason_of(alloc: Global, failure: &Failure) -> Result<Option<Reason>, AllocError> {
    let Some(place) = &failure.place else {
        return Ok(None);
    };
    let place = String::from_str(alloc, place.as_str())?;
    match failure.fault {
        TreeFault::TextTooLong => Ok(Some(Reason::TextTooLong(place))),
        TreeFault::Device => Ok(Some(Reason::Device(place))),
        _ => Ok(None),
    }
}
