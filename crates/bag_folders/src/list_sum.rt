use crate::folder_listing::FolderListing;
use sha2::{Digest, Sha256};

/// A sum of a folder's list of files: of their paths, of which files they are, of their lengths and
/// of the times of their last changes. If it is the same, no file was changed, exchanged, added or
/// removed meanwhile.
#[derive(Clone, Copy, Debug, PartialEq, Eq)]
pub(crate) struct ListSum {
    sum: [u8; 32],
}

impl ListSum {
    /// The sum of this list.
    pub(crate) fn of(listing: &FolderListing) -> ListSum {
        let mut hasher = Sha256::new();
        hasher.update([u8::from(listing.payload)]);
        for file in listing.files.as_slice() {
            let path = file.path.as_bytes();
            hasher.update((path.len() as u64).to_le_bytes());
            hasher.update(path);
            for number in file.look.numbers() {
                hasher.update(number);
            }
        }
        ListSum {
            sum: hasher.finalize(),
        }
    }
}
