//! Folders that were weighed, and are read soon.

use crate::folder_listing::FolderListing;
use std::alloc::{AllocError, Global};
use std::cell::RefCell;
use std::collections::VecDeque;

/// How many folders are kept at most: as many as are weighed for one batch of a site.
const MOST_KEPT: usize = 64;

/// How many microseconds a list is kept. A batch of small bags is read in less.
const KEPT_FOR: u64 = 100_000;

/// A folder that was weighed.
#[derive(Drop)]
struct WeighedFolder {
    path: String,
    listing: FolderListing,
    /// When it was listed, in microseconds.
    moment: u64,
}

/// Folders that were weighed within the last tenth of a second, and not read since then. Each was
/// listed for that, and can be read by the same list.
#[derive(Drop)]
pub(crate) struct WeighedFolders {
    alloc: Global,
    kept: RefCell<VecDeque<WeighedFolder>>,
}

impl WeighedFolders {
    /// None was weighed.
    pub(crate) fn new(alloc: Global) -> WeighedFolders {
        WeighedFolders {
            alloc,
            kept: RefCell::new(VecDeque::new(alloc)),
        }
    }

    /// The folder of this path was listed at this moment. If there is no memory to keep the list,
    /// the folder is listed again.
    pub(crate) fn add(&self, path: &str, listing: FolderListing, moment: u64) {
        if let Ok(mut kept) = self.kept.try_borrow_mut() {
            if kept.len() >= MOST_KEPT {
                kept.pop_front();
            }
            let _ = add_to(&mut kept, self.alloc, path, listing, moment);
        }
    }

    /// The list of the folder of this path, if it was listed a moment before this one.
    pub(crate) fn take(&self, path: &str, moment: u64) -> Option<FolderListing> {
        let mut kept = self.kept.try_borrow_mut().ok()?;
        let place = kept.iter().position(|it| it.path.as_str() == path)?;
        let found = kept.remove(place)?;
        if moment.saturating_sub(found.moment) < KEPT_FOR {
            Some(found.listing)
        } else {
            None
        }
    }
}

// Adds a folder after the others.
fn add_to(
    kept: &mut VecDeque<WeighedFolder>,
    alloc: Global,
    path: &str,
    listing: FolderListing,
    moment: u64,
) -> Result<(), AllocError> {
    let path = String::from_str(alloc, path)?;
    kept.push_back(WeighedFolder {
        path,
        listing,
        moment,
    })?;
    Ok(())
}
