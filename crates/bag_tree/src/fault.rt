ghost use Rattle.std.specs.Prelude.{◌≡◌};
ghost use Rattle.bag_tree.specs.declared.fault.TreeFault.TheVariants.{Memory};
ghost use Rattle.bag_tree.specs.Fault.{number_of};

use std::alloc::{AllocError, AllocFailed};
use thiserror::Error;

/// Why a tree could not be read, or a file not be added to one.
#[derive(Clone, Copy, Debug, PartialEq, Eq, Error)]
pub enum TreeFault {
    /// A folder that is missing or can't be listed, or a name in it that isn't UTF-8.
    #[error("a folder could not be listed")]
    Listing,
    /// An entry that is neither a file nor a folder.
    #[error("an entry is neither a file nor a folder")]
    NotAFile,
    /// A path of more than `DEEPEST_PATH` parts.
    #[error("a path has too many parts")]
    TooDeep,
    /// More than `MOST_FILES` files; on a disk, files and folders.
    #[error("there are too many files")]
    TooMany,
    /// A text that describes the bag has more than `LONGEST_TEXT` bytes.
    #[error("a text that describes the bag is too long")]
    TextTooLong,
    /// A file that can't be read.
    #[error("a file could not be read")]
    Device,
    /// Memory ran out.
    #[error("out of memory")]
    Memory,
    /// A path that no further file of this tree can have. Only `Tree::add` answers it.
    #[error("the tree can have no further file of this path")]
    BadPath,
}

impl TreeFault {
    /// The number of the fault in what the program prints and sends.
    pub fn number(self) -> u8
        ensures { result ≡ number_of self }
    {
        match self {
            TreeFault::Listing => 1,
            TreeFault::NotAFile => 2,
            TreeFault::TooDeep => 3,
            TreeFault::TooMany => 4,
            TreeFault::TextTooLong => 5,
            TreeFault::Device => 6,
            TreeFault::Memory => 7,
            TreeFault::BadPath => 8,
        }
    }
}

impl From<AllocError> for TreeFault {
    ghost from_gives = { λ _ e. e ≡ Memory };

    fn from(_e: AllocError) -> TreeFault {
        TreeFault::Memory
    }
}

impl<T: Drop> From<AllocFailed<T>> for TreeFault {
    ghost from_gives = { λ _ e. e ≡ Memory };

    fn from(_e: AllocFailed<T>) -> TreeFault {
        TreeFault::Memory
    }
}
