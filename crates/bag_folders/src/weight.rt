//! How much a folder has to read.

use crate::folder_listing::{FolderListing, list_at_most};
use crate::read_listed::open_bag;
use std::fs::Files;

/// The most files and folders of a folder that is weighed: a longer list takes long by itself.
const MOST_LISTED: usize = 64;

/// The list of the files in the folder of this path, if they are few.
pub(crate) fn short_list<R: Files + AllocGlobal + Clone + Drop>(
    rt: &R,
    path: &str,
) -> Option<FolderListing> {
    let mut bag = open_bag(rt, path).ok()?;
    list_at_most(rt.alloc(), &mut bag, MOST_LISTED).ok()
}
