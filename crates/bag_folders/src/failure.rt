ghost use Rattle.bag_tree.specs.declared.fault.TreeFault.TheVariants.{Memory};
ghost use Rattle.std.specs.Prelude.{◌≡◌};

use bag_tree::TreeFault;
use std::alloc::{AllocError, AllocFailed};

/// Why a folder can't be read, and where: a path below it, or `.` for the folder itself. If memory
/// ran out, the place is the file that was being read, or the path for which the system said so;
/// else there is none.
#[derive(Drop)]
pub(crate) struct Failure {
    pub(crate) fault: TreeFault,
    pub(crate) place: Option<String>,
}

impl Failure {
    /// A failure at this place.
    pub(crate) fn at(place: String, fault: TreeFault) -> Failure
        ensures { result.fault ≡ fault }
    {
        Failure {
            fault,
            place: Some(place),
        }
    }
}

impl From<AllocError> for Failure {
    ghost from_gives = { λ _ f. f.fault ≡ Memory };

    fn from(_e: AllocError) -> Failure {
        Failure {
            fault: TreeFault::Memory,
            place: None,
        }
    }
}

impl<T: Drop> From<AllocFailed<T>> for Failure {
    ghost from_gives = { λ _ f. f.fault ≡ Memory };

    fn from(_e: AllocFailed<T>) -> Failure {
        Failure {
            fault: TreeFault::Memory,
            place: None,
        }
    }
}
